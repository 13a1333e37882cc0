// What a signal can show, and the lamp sets that show it.
ghost use Rattle.std.specs.Prelude.{◌≡◌, Some};
ghost use Rattle.rules.specs.Aspects.{aspect_number, aspect_word};

use std::fmt;

// The aspect of a signal. All but `Stop` are proceed aspects.
#[derive(Clone, Copy, PartialEq, Eq, Debug)]
pub enum Aspect {
    Stop = 0,
    Restricted = 1,
    Caution = 2,
    Reduced = 3,
    Clear = 4,
}

impl Aspect {
    // The number that the case is declared with; the name says which number that is, as a From could not.
    pub fn number(self) -> u8
        ensures { result ≡ aspect_number self }
    {
        self as u8
    }
}

impl fmt::Display for Aspect {
    ghost output = { λ x. Some (aspect_word x) };

    fn fmt<W: fmt::Write>(&self, f: &mut fmt::Formatter<W>) -> fmt::Result {
        f.write_str(match *self {
            Aspect::Stop => "stop",
            Aspect::Restricted => "restricted",
            Aspect::Caution => "caution",
            Aspect::Reduced => "reduced",
            Aspect::Clear => "clear",
        })
    }
}

// A signal head, by the number of its lamps.
#[derive(Clone, Copy, PartialEq, Eq, Debug)]
pub enum LampSet {
    Two,
    Three,
    Four,
    Five,
}
