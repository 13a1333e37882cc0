// Train detection: what any track does, and the two kinds that are delivered.
#![tactic(auto)]

ghost use Rattle.std.specs.Prelude.{◌≡◌, ℕ, ◌≤◌, true, List, length};
ghost use Rattle.rules.specs.Detection.{Ends, legal_axles, state_answer};
ghost use Rattle.track.specs.Cells.{reads_vacant};
ghost use Rattle.rules.specs.declared.detection.Cell.{Cell};
ghost use Rattle.rules.specs.declared.detection.TrackCall.TheVariants.{Enter, Leave, Fail, Mend};

use rules::detection::SectionState;
use rules::refusal::Refusal;

pub mod axles;
mod checks;
pub mod circuits;
mod place;
mod store;
pub mod telling;
mod word;

// Any track. A call turned down alters nothing, asking alters nothing, and no call alters another section.
pub trait Track {
    // The 24 sections: the number held, and whether out of order.
    ghost cells: { Self → List Cell };

    // What the track keeps of a train of so many axles.
    ghost mark: { ℕ → ℕ };

    // Whether the section is vacant, occupied or out of order.
    fn state(&self, section: u32) -> Result<SectionState, Refusal>
        ensures { result ≡ state_answer mark (cells self.now) section };

    // A train comes into a section, which has to be vacant.
    fn enter(&mut self, section: u32, axles: u32) -> Result<(), Refusal>
        ensures { Ends mark (cells self.old) (Enter section axles) result (cells self.new) };

    // A train leaves a section, which has to hold its mark.
    fn leave(&mut self, section: u32, axles: u32) -> Result<(), Refusal>
        ensures { Ends mark (cells self.old) (Leave section axles) result (cells self.new) };

    // The section goes out of order; what it holds stays.
    fn fail(&mut self, section: u32) -> Result<(), Refusal>
        ensures { Ends mark (cells self.old) (Fail section) result (cells self.new) };

    // The section is back in order; what it holds stays.
    fn mend(&mut self, section: u32) -> Result<(), Refusal>
        ensures { Ends mark (cells self.old) (Mend section) result (cells self.new) };

    // Whether there is such a section and it reads vacant.
    fn is_vacant(&self, section: u32) -> bool
        ensures { result ≡ reads_vacant (cells self.now) section }
    {
        matches!(self.state(section), Ok(SectionState::Vacant))
    }

    ghost sized: { (track : Self) → length (cells track) ≡ 24 };

    ghost marked: { (axles : ℕ) → legal_axles axles ≡ true → 1 ≤ mark axles };
}
