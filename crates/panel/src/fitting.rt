// A fitter's looks at a panel under test. Whichever way the test ends, the panel then shows what it showed before.
ghost use Rattle.std.specs.Prelude.{◌≡◌, ℕ, List, Some};
ghost use Rattle.panel.specs.LampTests.{under_test};
ghost use Rattle.panel.specs.Looks.{Found, in_turn, if_whole, lit_and_after, fault_text};

use crate::{LampTest, PANEL_BYTES};
use std::error::Error;
use std::fmt;

#[derive(Clone, Copy, PartialEq, Eq, Debug)]
pub enum Fault {
    // The lamp of this byte stays dark.
    DarkLamp(usize),
    // The panel has fewer bytes than painting writes.
    ShortPanel,
}

impl fmt::Display for Fault {
    ghost output = { λ x. Some (fault_text x) };

    fn fmt<W: fmt::Write>(&self, f: &mut fmt::Formatter<W>) -> fmt::Result {
        match *self {
            Fault::DarkLamp(byte) => write!(f, "lamp {byte} stays dark"),
            Fault::ShortPanel => f.write_str("short panel"),
        }
    }
}

impl Error for Fault {}

// Whoever looks at a panel: a fitter, a camera.
pub trait Watcher {
    // What is found where the panel shows these bytes.
    ghost finds: { Self → List ℕ → Found };

    fn look(&self, shown: &[u8]) -> Result<(), Fault>
        ensures { result ≡ finds self.now shown.now };
}

// One look. The test ends with the function.
pub fn look_once<W: Watcher>(panel: &mut [u8], watcher: &W) -> Result<(), Fault>
    ensures found { result ≡ W.finds watcher.now (under_test panel.old) }
    ensures same { panel.new ≡ panel.old }
{
    let lit_panel = LampTest::start(panel);
    watcher.look(lit_panel.shown())
}

// Two looks. The test ends with the first that finds a fault.
pub fn look_twice<W: Watcher>(panel: &mut [u8], one: &W, other: &W) -> Result<(), Fault>
    ensures found { result ≡ in_turn (W.finds one.now) (W.finds other.now) panel.old }
    ensures same { panel.new ≡ panel.old }
{
    let test = LampTest::start(panel);
    one.look(test.shown())?;
    other.look(test.shown())
}

// One look, at a whole panel only. The test of a short one ends at once.
pub fn look_if_whole<W: Watcher>(panel: &mut [u8], watcher: &W) -> Result<(), Fault>
    ensures found { result ≡ if_whole (W.finds watcher.now) panel.old }
    ensures same { panel.new ≡ panel.old }
{
    let test = LampTest::start(panel);
    if test.lit() < PANEL_BYTES {
        return Err(Fault::ShortPanel);
    }
    watcher.look(test.shown())
}

// A look at the lamps lit, and once the test is ended one at the panel as it is again.
pub fn look_lit_and_after<W: Watcher>(
    panel: &mut [u8],
    watcher: &W,
) -> (Result<(), Fault>, Result<(), Fault>)
    ensures found { result ≡ lit_and_after (W.finds watcher.now) panel.old }
    ensures same { panel.new ≡ panel.old }
{
    let test = LampTest::start(panel);
    let lit = watcher.look(test.shown());
    test.end();
    (lit, watcher.look(panel))
}
