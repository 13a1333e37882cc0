// The two kinds of track side by side.
ghost use Rattle.std.specs.Prelude.{◌≡◌};
ghost use Rattle.rules.specs.Detection.{track_answer};
ghost use Rattle.tour.specs.Benches.{circuit_cells, counter_cells, circuit_mark, counter_mark, BothTold};

use rules::detection::{TrackAnswer, TrackCall};
use track::axles::AxleCounter;
use track::circuits::TrackCircuits;
use track::telling::tell;

#[derive(Drop)]
pub struct Bench {
    pub circuits: TrackCircuits,
    pub counter: AxleCounter,
}

// What both answered to one call.
#[derive(Clone, Copy, PartialEq, Eq, Debug)]
pub struct Both {
    pub circuits: TrackAnswer,
    pub counter: TrackAnswer,
}

impl Bench {
    // Makes the same call of both.
    pub fn tell(&mut self, call: TrackCall) -> Both
        ensures circuits { result.circuits ≡ track_answer circuit_mark (circuit_cells self.old) call }
        ensures counter { result.counter ≡ track_answer counter_mark (counter_cells self.old) call }
        ensures after { BothTold self.old call self.new }
    {
        Both {
            circuits: tell(&mut self.circuits, call),
            counter: tell(&mut self.counter, call),
        }
    }
}
