// The signal that guards block 1: what is clear ahead of it, and what its lamps show.
ghost use Rattle.std.specs.Prelude.{◌≡◌, ◌+◌, ◌-◌, ◌^◌, ◌<◌, min, sum};
ghost use Rattle.tour.specs.Ahead.{vacant_from, metres_of, heads_show};

use lamps::{CabSignal, Lamps};
use rules::aspect::{Aspect, LampSet};
use std::ops::Range;
use track::Track;

// The stretch of the tour has blocks 1 to 3.
pub const BLOCKS: u32 = 3;

// Their metres: one block, two and three give the cab signal three aspects.
const LENGTHS: [u32; 3] = [100, 150, 250];

// How many of so many sections, from section 1 on, read vacant one after the other.
pub fn vacant_ahead<T: Track>(track: &T, sections: u32) -> u32
    ensures { result ≡ vacant_from (T.cells track.now) 1 sections }
{
    vacant_to(track, 0..sections)
}

// The first number of a range whose next section is not vacant, or where the range ends.
fn vacant_to<T: Track>(track: &T, mut passed: Range<u32>) -> u32
    ensures { result ≡ min passed.start passed.end
        + vacant_from (T.cells track.now) (passed.start + 1) (passed.end - passed.start) }
{
    let end = passed.end;
    passed.find(|&at| !track.is_vacant(at + 1)).unwrap_or(end)
}

// Their sum, where it fits.
fn total(metres: &[u32]) -> u32
    requires { sum metres.now < 2 ^ 32 }
    ensures { result ≡ sum metres.now }
{
    metres.iter().sum()
}

// The metres of so many blocks from block 1 on.
#[tactic(auto, using(crate::proofs::Metres::part_short))]
pub fn metres_ahead(clear: u32) -> u32
    ensures { result ≡ metres_of clear }
{
    total(&LENGTHS[..clear.min(BLOCKS) as usize])
}

// What a head of two, three, four and five lamps and the cab signal show.
pub fn aspects(clear: u32, metres: u32) -> [Aspect; 5]
    ensures { result ≡ heads_show clear metres }
{
    [
        LampSet::Two.aspect(clear, metres),
        LampSet::Three.aspect(clear, metres),
        LampSet::Four.aspect(clear, metres),
        LampSet::Five.aspect(clear, metres),
        CabSignal.aspect(clear, metres),
    ]
}
