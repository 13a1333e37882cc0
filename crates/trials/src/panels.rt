// Lamp tests of panels of every telling length, ended in each of the four ways.
ghost use Rattle.std.specs.Prelude.{cond, length, if◌then◌else◌, Ok, Err, nat_eq, nat_lt, slice_index};
ghost use Rattle.panel.specs.declared.fitting.Fault.TheVariants.{DarkLamp};

use panel::fitting::{Fault, Watcher, look_if_whole, look_lit_and_after, look_once, look_twice};
use panel::{LampTest, PANEL_BYTES};

const LONGEST: usize = 100;

const LENGTHS: [usize; 6] = [0, 1, 65, 66, 67, LONGEST];

// A byte that no lamp test shows.
const PAINTED: u8 = 255;

#[test]
fn lamp_test_lights_66_bytes_and_shows_them_again(rt: HostRuntime) {
    for length in LENGTHS {
        assert!(rt; length <= LONGEST);
        let mut bytes = [PAINTED; LONGEST];
        let mut lit = [PAINTED; LONGEST];
        lit[0..length.min(PANEL_BYTES)].fill(1);

        let test = LampTest::start(&mut bytes[0..length]);
        assert_eq!(rt; test.shown(), &lit[0..length]);
        assert_eq!(rt; test.lit(), length.min(PANEL_BYTES));
        test.end();
        assert_eq!(rt; bytes, [PAINTED; LONGEST]);
    }
}

// Sees one lamp stay dark where it should be lit.
#[derive(Clone, Copy)]
struct Camera {
    broken: usize,
}

impl Watcher for Camera {
    ghost finds = { λ camera bytes.
        cond (nat_lt camera.broken (length bytes))
        (if nat_eq (slice_index bytes camera.broken) 1 then Err (DarkLamp camera.broken) else Ok tt)
        (Ok tt) };

    fn look(&self, shown: &[u8]) -> Result<(), Fault> {
        if self.broken >= shown.len() {
            return Ok(());
        }
        match shown[self.broken] {
            1 => Err(Fault::DarkLamp(self.broken)),
            _ => Ok(()),
        }
    }
}

#[test]
fn a_fitter_finds_the_dark_lamp(rt: HostRuntime) {
    let mut bytes = [PAINTED; PANEL_BYTES];
    let last = Camera { broken: 65 };
    let none = Camera { broken: 66 };
    assert_eq!(rt; look_once(&mut bytes, &last), Err(Fault::DarkLamp(65)));
    assert_eq!(rt;
        look_twice(&mut bytes, &none, &last),
        Err(Fault::DarkLamp(65))
    );
    assert_eq!(rt;
        look_twice(&mut bytes, &last, &none),
        Err(Fault::DarkLamp(65))
    );
    assert_eq!(rt;
        look_if_whole(&mut bytes[0..65], &last),
        Err(Fault::ShortPanel)
    );
    assert_eq!(rt; look_if_whole(&mut bytes, &none), Ok(()));
    assert_eq!(rt;
        look_lit_and_after(&mut bytes, &last),
        (Err(Fault::DarkLamp(65)), Ok(()))
    );
    assert_eq!(rt; bytes, [PAINTED; PANEL_BYTES]);
}
