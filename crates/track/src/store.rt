// Any track that keeps a cell for each section: what is asked and carried out is the same however it keeps them.
ghost use Rattle.std.specs.Prelude.{◌≡◌, ℕ, ◌-◌, ◌≤◌, true, List, length};
ghost use Rattle.rules.specs.Detection.{legal_axles};
ghost use Rattle.rules.specs.Table.{outcome, topmost, after};
ghost use Rattle.rules.specs.declared.detection.Cell.{Cell};
ghost use Rattle.track.specs.Cells.{cell_at, set_held, set_failed, order_rows};

use crate::Track;
use crate::checks::{check_axles, check_changes, check_mark, check_vacant};
use crate::place::Place;
use rules::detection::{Cell, SectionState};
use rules::refusal::Refusal;

// How a kind of track keeps its sections.
pub(crate) trait SectionStore {
    // The 24 sections: the number held, and whether out of order.
    ghost cells: { Self → List Cell };

    // What the track keeps of a train of so many axles.
    ghost mark: { ℕ → ℕ };

    fn mark(axles: u32) -> u32
        ensures { result ≡ mark axles };

    fn cell(&self, place: Place) -> Cell
        ensures { result ≡ cell_at (cells self.now) place.index };

    // The section holds the mark of a train.
    fn hold(&mut self, place: Place, axles: u32)
        ensures { cells self.new ≡ set_held (cells self.old) place.index (mark axles) };

    // The section holds nothing.
    fn free(&mut self, place: Place)
        ensures { cells self.new ≡ set_held (cells self.old) place.index 0 };

    fn put_failed(&mut self, place: Place, failed: bool)
        ensures { cells self.new ≡ set_failed (cells self.old) place.index failed };

    ghost sized: { (track : Self) → length (cells track) ≡ 24 };

    ghost marked: { (axles : ℕ) → legal_axles axles ≡ true → 1 ≤ mark axles };
}

impl<S: SectionStore> Track for S {
    ghost cells = { S.cells };

    ghost mark = { S.mark };

    ghost sized = { S.sized };

    ghost marked = { S.marked };

    fn state(&self, section: u32) -> Result<SectionState, Refusal> {
        let place = Place::try_from(section)?;
        Ok(self.cell(place).state())
    }

    fn enter(&mut self, section: u32, axles: u32) -> Result<(), Refusal> {
        let place = Place::try_from(section)?;
        check_axles(axles)?;
        check_vacant(self.cell(place))?;
        self.hold(place, axles);
        Ok(())
    }

    fn leave(&mut self, section: u32, axles: u32) -> Result<(), Refusal> {
        let place = Place::try_from(section)?;
        check_axles(axles)?;
        check_mark(self.cell(place).held, S::mark(axles))?;
        self.free(place);
        Ok(())
    }

    fn fail(&mut self, section: u32) -> Result<(), Refusal> {
        put_order(self, section, true)
    }

    fn mend(&mut self, section: u32) -> Result<(), Refusal> {
        put_order(self, section, false)
    }
}

// Puts a section out of order, or back in order.
fn put_order<S: SectionStore>(store: &mut S, section: u32, failed: bool) -> Result<(), Refusal>
    ensures answer { result ≡ outcome (topmost (order_rows (S.cells store.old) section failed)) }
    ensures after { S.cells store.new ≡ after (topmost (order_rows (S.cells store.old) section failed))
        (S.cells store.old) (set_failed (S.cells store.old) (section - 1) failed) }
{
    let place = Place::try_from(section)?;
    check_changes(store.cell(place).failed, failed)?;
    store.put_failed(place, failed);
    Ok(())
}
