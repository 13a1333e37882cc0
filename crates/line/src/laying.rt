// A new line, and laying it.
ghost use Rattle.std.specs.Prelude.{◌≡◌, ◌&&◌, true, IfOk, IfErr, OnOk};
ghost use Rattle.rules.specs.Calls.{lay, verdict, all_vacant, legal_laying, legal_plan, ask_name};
ghost use Rattle.rules.specs.Lines.{new_line, bare};
ghost use Rattle.rules.specs.Table.{answer};
ghost use Rattle.line.specs.Asked.{section_named};
ghost use Rattle.line.specs.Works.{Works};
ghost use Rattle.line.specs.Worlds.{world};

use crate::Line;
use crate::frame::Frame;
use crate::frame::plan::legal_to_lay;
use lamps::Lamps;
use rules::detection::LAST_SECTION;
use rules::line::{Laying, PlanEntry, Train};
use rules::refusal::Refusal;
use std::alloc::Global;
use track::Track;

// There was no memory for a line: here are its track and lamps again.
pub struct NoMemory<T, L> {
    pub track: T,
    pub lamps: L,
}

impl<T: Track, L: Lamps> Line<T, L> {
    // A bare line. Its memory is taken here, and no later call can fail for want of any.
    pub fn new(heap: Global, track: T, lamps: L) -> Result<Self, NoMemory<T, L>>
        ensures made { IfOk result (λ line. (world T.cells line ≡ new_line (T.cells track)) × (line.lamps ≡ lamps)) }
        ensures refused { IfErr result (λ back. (back.track ≡ track) × (back.lamps ≡ lamps)) }
    {
        match Frame::new(heap) {
            Ok(frame) => Ok(Line {
                track,
                lamps,
                frame,
            }),
            Err(_) => Err(NoMemory { track, lamps }),
        }
    }

    // Lays a bare line over a track that is vacant throughout.
    pub fn lay(&mut self, laying: Laying, plan: &[PlanEntry]) -> Result<(), Refusal>
        ensures { Works L.shows T.mark T.cells self.old (lay laying plan.now) tt result self.new }
    {
        self.check_lay(laying, plan)?;
        self.frame.lay(laying, plan);
        Ok(())
    }

    fn check_lay(&self, laying: Laying, plan: &[PlanEntry]) -> Result<(), Refusal>
        ensures row { result ≡ answer
            (verdict (L.shows self.now.lamps) (world T.cells self.now)
            (lay laying plan.now)) tt }
        ensures bare { OnOk result (bare (world T.cells self.now) ≡ true) }
        ensures legal { OnOk result ((legal_laying laying && legal_plan laying plan.now) ≡ true) }
    {
        if self.frame.is_laid() {
            return Err(Refusal::Laid);
        }
        if !legal_to_lay(laying, plan) || !self.all_vacant() {
            return Err(Refusal::BadPlan);
        }
        Ok(())
    }

    // All 24 sections of the track, in use or not.
    fn all_vacant(&self) -> bool
        ensures { result ≡ all_vacant (world T.cells self.now) 24 }
    {
        (1..=LAST_SECTION).all(|section| self.track.is_vacant(section))
    }

    // The section that bears a name in the plan.
    pub fn section_named(&self, name: u32) -> Result<u32, Refusal>
        ensures { result ≡ answer
            (verdict (L.shows self.now.lamps) (world T.cells self.now) (ask_name name))
            (section_named (world T.cells self.now) name) }
    {
        self.frame.section_named(name)
    }

    // The numbers that the line was laid with; none while it is bare.
    pub fn laying(&self) -> Option<Laying>
        ensures { result ≡ (world T.cells self.now).laying }
    {
        self.frame.laying()
    }

    // The trains on the line, in the order of putting on.
    pub fn trains(&self) -> &[Train]
        ensures { result.now ≡ (world T.cells self.now).trains }
    {
        self.frame.trains()
    }
}
