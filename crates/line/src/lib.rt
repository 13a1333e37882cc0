// The line: every call of the rules, above any track and any lamps.
#![tactic(auto)]

pub mod calls;
mod frame;
pub mod laying;
mod levers;
mod order;
mod painting;
mod places;
mod possession;
mod search;
mod signals;
pub mod slip;
mod trains;
mod work;

ghost use Rattle.std.specs.Prelude.{◌≡◌};

use frame::Frame;
use lamps::Lamps;
use track::Track;

// A line above a track and lamps.
#[derive(Drop)]
pub struct Line<T: Track, L: Lamps> {
    track: T,
    lamps: L,
    frame: Frame,
}
