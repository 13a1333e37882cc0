// What every kind of track asks before it acts: one function for each row.
ghost use Rattle.std.specs.Prelude.{◌≡◌, ◌-◌, true, [], ◌∷◌, is_ok};
ghost use Rattle.rules.specs.Table.{answer, outcome, topmost};
ghost use Rattle.track.specs.Places.{index_of};
ghost use Rattle.rules.specs.Detection.{state_of, no_section, bad_axles, not_vacant, wrong_mark, so_already};

use crate::place::Place;
use rules::detection::{Cell, FEWEST_AXLES, LAST_SECTION, MOST_AXLES, SectionState};
use rules::refusal::Refusal;

// The place of a section, if there is one. Not beside the type: what it promises speaks of a Place.
impl TryFrom<u32> for Place {
    type Error = Refusal;

    ghost try_from_gives = { λ section found.
        index_of found ≡ answer (topmost (no_section section ∷ [])) (section - 1) };

    fn try_from(section: u32) -> Result<Self, Refusal> {
        match section {
            1..=LAST_SECTION => Ok(Place {
                index: (section - 1) as usize,
            }),
            _ => Err(Refusal::NoSection),
        }
    }
}

pub(crate) fn check_axles(axles: u32) -> Result<(), Refusal>
    ensures { result ≡ outcome (topmost (bad_axles axles ∷ [])) }
{
    match axles {
        FEWEST_AXLES..=MOST_AXLES => Ok(()),
        _ => Err(Refusal::BadCard),
    }
}

// A vacant section holds nothing.
pub(crate) fn check_vacant(cell: Cell) -> Result<(), Refusal>
    ensures verdict { result ≡ outcome (topmost (not_vacant (state_of cell) ∷ [])) }
    ensures none { is_ok result ≡ true → cell.held ≡ 0 }
{
    match cell.state() {
        SectionState::Vacant => Ok(()),
        SectionState::Occupied | SectionState::OutOfOrder => Err(Refusal::NotClear),
    }
}

pub(crate) fn check_mark(held: u32, mark: u32) -> Result<(), Refusal>
    ensures verdict { result ≡ outcome (topmost (wrong_mark held mark ∷ [])) }
    ensures same { is_ok result ≡ true → held ≡ mark }
{
    if held == mark {
        Ok(())
    } else {
        Err(Refusal::WrongMark)
    }
}

// Whether putting a section out of order, or back in order, would change anything.
pub(crate) fn check_changes(failed: bool, wanted: bool) -> Result<(), Refusal>
    ensures { result ≡ outcome (topmost (so_already failed wanted ∷ [])) }
{
    if failed == wanted {
        Err(Refusal::SoAlready)
    } else {
        Ok(())
    }
}
