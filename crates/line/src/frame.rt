// All of a line but its track and lamps.
ghost use Rattle.std.specs.Prelude.{◌≡◌, ◌≤◌, true, length, vec_len, vec_capacity};
ghost use Rattle.line.specs.Keeping.{laid_legally, plan_kept, trains_kept, levers_kept};

use rules::line::{Laying, Levers, PlanEntry, Train};

// As many trains, and as many plan entries, as there are sections.
pub(crate) const MOST: usize = 24;

pub(crate) const MOST_BLOCKS: usize = 16;

// Memory for the trains and for the plan is taken when the frame is made, and is enough for ever.
#[derive(Drop)]
pub(crate) struct Frame {
    laying: Option<Laying>,
    plan: Vec<PlanEntry>,
    trains: Vec<Train>,
    // Named for the two stations, as the line of the rules has them.
    at_a: Levers,
    at_b: Levers,
    // For each block, whether a slip is out on it.
    closed: [bool; MOST_BLOCKS],
    ghost legal: { laid_legally laying ≡ true },
    ghost planned: { plan_kept laying plan.items ≡ true },
    ghost placed: { trains_kept laying trains.items ≡ true },
    ghost levers_a: { levers_kept at_a ≡ true },
    ghost levers_b: { levers_kept at_b ≡ true },
    ghost sized: { length closed ≡ 16 },
    ghost few: { vec_len trains ≤ 24 },
    ghost train_room: { 24 ≤ vec_capacity trains },
    ghost plan_room: { 24 ≤ vec_capacity plan },
}

mod closings;
mod laid;
pub(crate) mod levers;
pub(crate) mod plan;
pub(crate) mod questions;
pub(crate) mod trains;
