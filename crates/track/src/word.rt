// A word with one bit for each section.
ghost use Rattle.std.specs.Prelude.{◌≡◌, ◌^◌, ◌<◌, ◌==◌, if◌then◌else◌};
ghost use Rattle.track.specs.Words.{Written};
ghost use Rattle.std.specs.Int.{bit_at};

use crate::place::Place;

// The bit at a place stands for the section numbered one more. The word keeps to 24 bits.
#[derive(Clone, Copy)]
pub(crate) struct SectionWord {
    bits: u32,
    ghost kept: { bits < 2 ^ 24 },
}

impl SectionWord {
    // No section's bit is set.
    pub(crate) fn empty() -> Self
        ensures { result.bits ≡ 0 }
    {
        SectionWord { bits: 0 }
    }

    // Whether a section's bit is set.
    #[tactic(auto, using(std::proofs::lemmas::Nat::Bits::shr_and_one))]
    pub(crate) fn has(&self, place: Place) -> bool
        ensures { result ≡ (bit_at self.now.bits place.index == 1) }
    {
        (self.bits >> place.index) & 1 == 1
    }

    // One bit set or cleared: no other changes.
    #[tactic(auto, using(crate::proofs::Words::one_bit_put))]
    pub(crate) fn put(&mut self, place: Place, set: bool)
        ensures { Written self.old.bits place.index (if set then 1 else 0) self.new.bits }
    {
        let mask = 1 << place.index;
        if set {
            self.bits |= mask;
        } else {
            self.bits &= !mask;
        }
    }
}
