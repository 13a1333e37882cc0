// The bytes of a lamp panel, and the lamp test.
#![tactic(auto)]

ghost use Rattle.std.specs.Prelude.{◌≡◌, ◌≤◌, length};
ghost use Rattle.panel.specs.LampTests.{lamps, lit_first, overlaid, under_test, kept_of, restored, AllLit, Lights};

pub mod fitting;

// What painting writes.
pub const PANEL_BYTES: usize = 66;

// What a lamp shows under test.
const LIT: u8 = 1;

// How many bytes a test lights.
fn lamp_count(panel: &[u8]) -> usize
    ensures { result ≡ lamps panel.now }
{
    panel.len().min(PANEL_BYTES)
}

fn copy_first(count: usize, from: &[u8], to: &mut [u8])
    requires { (count ≤ length from.now) × (count ≤ length to.old) }
    ensures { to.new ≡ overlaid count from.now to.old }
{
    to[0..count].copy_from_slice(&from[0..count]);
}

fn light_first(count: usize, panel: &mut [u8])
    requires { count ≤ length panel.old }
    ensures { panel.new ≡ lit_first count panel.old }
{
    panel[0..count].fill(LIT);
}

// Lights the lamps and returns what they showed.
fn keep_and_light(panel: &mut [u8]) -> [u8; PANEL_BYTES]
    ensures lit { panel.new ≡ under_test panel.old }
    ensures kept { result ≡ kept_of panel.old }
{
    let count = lamp_count(panel);
    let mut kept = [0; PANEL_BYTES];
    copy_first(count, panel, &mut kept);
    light_first(count, panel);
    kept
}

fn restore(panel: &mut [u8], kept: &[u8; PANEL_BYTES])
    ensures { panel.new ≡ restored kept.now panel.old }
{
    copy_first(lamp_count(panel), kept, panel);
}

// A lamp test that is on. Its panel is lent to it until it ends, and then shows again what it showed before.
pub struct LampTest<'a> {
    panel: &'a mut [u8],
    kept: [u8; PANEL_BYTES],
}

impl<'a> LampTest<'a> {
    // `all` is what letting the test go asks; `lent` ties the panel under test to the caller's.
    pub fn start(panel: &'a mut [u8]) -> LampTest<'a>
        ensures lit { result.panel.now ≡ under_test panel.old }
        ensures by_byte { Lights panel.old result.panel.now }
        ensures all { AllLit result.panel.now }
        ensures kept { restored result.kept result.panel.now ≡ panel.old }
        ensures lent { result.panel.ghost_name ≡ panel.entry.ghost_name }
    {
        LampTest {
            kept: keep_and_light(panel),
            panel,
        }
    }

    // The bytes as they are under test.
    pub fn shown(&self) -> &[u8]
        ensures { result.now ≡ self.now.panel.now }
    {
        self.panel
    }

    // How many bytes are lit.
    pub fn lit(&self) -> usize
        ensures { result ≡ lamps self.now.panel.now }
    {
        lamp_count(self.shown())
    }

    // Not by letting it go: that asks that the lamps be lit, and this asks nothing.
    pub fn end(self)
        ensures { self.exit.0.now ≡ restored self.entry.kept self.entry.panel.now }
    {
        let LampTest { panel, kept } = self;
        restore(panel, &kept);
    }
}

// Every test meets what is asked here. It is asked so that no test can be forgotten.
impl Drop for LampTest<'_> {
    fn drop(self)
        requires { AllLit self.panel.now }
        ensures { self.exit.0.now ≡ restored self.entry.kept self.entry.panel.now }
    {
        let LampTest { panel: lent, kept } = self;
        restore(lent, &kept);
    }
}
