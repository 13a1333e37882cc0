// Track circuits: two words of 24 bits, held and out of order. They keep of a train that it is there.
ghost use Rattle.std.specs.Prelude.{◌≡◌};
ghost use Rattle.rules.specs.Detection.{new_cells};
ghost use Rattle.track.specs.Kinds.{circuit_at, circuit_cells};
ghost use Rattle.track.specs.Places.{cells_length};
ghost use Rattle.std.proofs.Common.{rules};

use crate::place::Place;
use crate::store::SectionStore;
use crate::word::SectionWord;
use rules::detection::Cell;

// What a circuit keeps of a train, however many axles it has.
const MARK: u32 = 1;

#[derive(Drop)]
pub struct TrackCircuits {
    held: SectionWord,
    out_of_order: SectionWord,
}

impl TrackCircuits {
    // Nothing held, all in order.
    #[tactic(auto, unfolding(crate::specs::Cells::cells_by, rules::specs::Detection::new_cells))]
    pub fn new() -> Self
        ensures { circuit_cells result ≡ new_cells }
    {
        TrackCircuits {
            held: SectionWord::empty(),
            out_of_order: SectionWord::empty(),
        }
    }
}

#[tactic(auto, using(crate::proofs::CircuitCells::one_circuit))]
impl SectionStore for TrackCircuits {
    ghost cells = { λ track. circuit_cells track };

    ghost mark = { λ _. 1 };

    ghost sized = { λ track. cells_length (circuit_at track) };

    ghost marked = { Prim.search rules };

    fn mark(_axles: u32) -> u32 {
        MARK
    }

    fn cell(&self, place: Place) -> Cell {
        Cell {
            held: if self.held.has(place) { MARK } else { 0 },
            failed: self.out_of_order.has(place),
        }
    }

    fn hold(&mut self, place: Place, _axles: u32) {
        self.held.put(place, true);
    }

    fn free(&mut self, place: Place) {
        self.held.put(place, false);
    }

    fn put_failed(&mut self, place: Place, failed: bool) {
        self.out_of_order.put(place, failed);
    }
}
