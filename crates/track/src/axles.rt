// The axle counter: a cell for each section, empty or counting the axles that are in it.
ghost use Rattle.std.specs.Prelude.{◌≡◌, ◌<◌, false, replicate};
ghost use Rattle.rules.specs.Detection.{new_cells};
ghost use Rattle.track.specs.Cells.{cell_at, set_held, set_failed};
ghost use Rattle.track.specs.Counts.{counted};
ghost use Rattle.track.specs.Kinds.{counter_at, counter_cells};
ghost use Rattle.track.specs.declared.axles.AxleCell.TheVariants.{Empty, Counting};
ghost use Rattle.track.specs.Places.{cells_length};
ghost use Rattle.std.proofs.Common.{rules};

use crate::place::Place;
use crate::store::SectionStore;
use rules::detection::Cell;

const CELLS: usize = 24;

// One cell of the counter, lent and changed by itself. No Option: the rules speak of it as empty or counting.
#[derive(Clone, Copy)]
pub(crate) enum AxleCell {
    Empty,
    Counting(u32),
}

impl AxleCell {
    fn axles(&self) -> u32
        ensures { result ≡ counted self.now }
    {
        match *self {
            AxleCell::Empty => 0,
            AxleCell::Counting(axles) => axles,
        }
    }

    fn count_in(&mut self, axles: u32)
        ensures { self.new ≡ Counting axles }
    {
        *self = AxleCell::Counting(axles);
    }

    fn count_out(&mut self)
        ensures { self.new ≡ Empty }
    {
        *self = AxleCell::Empty;
    }
}

// A table of 24 cells, as the rules have it, and beside it which sections are out of order.
#[derive(Drop)]
pub struct AxleCounter {
    counts: [AxleCell; CELLS],
    out_of_order: [bool; CELLS],
}

impl AxleCounter {
    // Nothing held, all in order.
    #[tactic(auto, unfolding(crate::specs::Cells::cells_by, rules::specs::Detection::new_cells))]
    pub fn new() -> Self
        ensures { counter_cells result ≡ new_cells }
    {
        Self::blank()
    }

    // Every cell empty: none that counts, not even 0 axles.
    fn blank() -> Self
        ensures counts { result.counts ≡ replicate 24 Empty }
        ensures order { result.out_of_order ≡ replicate 24 false }
    {
        AxleCounter {
            counts: [AxleCell::Empty; CELLS],
            out_of_order: [false; CELLS],
        }
    }
}

#[tactic(auto, using(crate::proofs::CounterCells::one_count))]
impl SectionStore for AxleCounter {
    ghost cells = { λ track. counter_cells track };

    ghost mark = { λ axles. axles };

    ghost sized = { λ track. cells_length (counter_at track) };

    ghost marked = { Prim.search rules };

    fn mark(axles: u32) -> u32 {
        axles
    }

    fn cell(&self, place: Place) -> Cell {
        Cell {
            held: self.counts[place.index].axles(),
            failed: self.out_of_order[place.index],
        }
    }

    fn hold(&mut self, place: Place, axles: u32) {
        self.counts[place.index].count_in(axles);
    }

    fn free(&mut self, place: Place) {
        self.counts[place.index].count_out();
    }

    fn put_failed(&mut self, place: Place, failed: bool) {
        self.out_of_order[place.index] = failed;
    }
}
