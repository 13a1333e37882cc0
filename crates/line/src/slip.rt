// The slip of a possession.
ghost use Rattle.std.specs.Prelude.{◌≡◌};

// Given for a closed block, and spent by handing it in. It cannot be let go in any other way, nor copied.
#[derive(PartialEq, Eq, Debug)]
pub struct Slip {
    line: u32,
    block: u32,
}

impl Slip {
    pub(crate) fn new(line: u32, block: u32) -> Self
        ensures { result ≡ record { line = line; block = block } }
    {
        Slip { line, block }
    }

    // The number of the line that gave it.
    pub fn line(&self) -> u32
        ensures { result ≡ self.now.line }
    {
        self.line
    }

    pub fn block(&self) -> u32
        ensures { result ≡ self.now.block }
    {
        self.block
    }

    // Only a handing-in that is carried out comes here.
    pub(crate) fn spend(self) {
        let Slip { line: _, block: _ } = self;
    }
}
