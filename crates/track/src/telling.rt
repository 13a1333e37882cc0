// One call of any track, as an enum in and an enum out.
ghost use Rattle.std.specs.Prelude.{◌≡◌};
ghost use Rattle.rules.specs.Detection.{track_answer, track_after};
ghost use Rattle.rules.specs.TrackRuns.{GoesOn};

use crate::Track;
use rules::detection::{TrackAnswer, TrackCall};

// Tells the track. Of a track that was new, whatever calls came before and in whatever order: afterwards each section
// reads what an onlooker to those calls and this one must think of it.
pub fn tell<T: Track>(track: &mut T, call: TrackCall) -> TrackAnswer
    ensures answer { result ≡ track_answer T.mark (T.cells track.old) call }
    ensures after { T.cells track.new ≡ track_after T.mark (T.cells track.old) call }
    ensures history { GoesOn T.mark (T.cells track.old) call (T.cells track.new) }
{
    pass_on(track, call)
}

// The same without the history, which is said of all calls at once: each arm is then proved without a file.
fn pass_on<T: Track>(track: &mut T, call: TrackCall) -> TrackAnswer
    ensures answer { result ≡ track_answer T.mark (T.cells track.old) call }
    ensures after { T.cells track.new ≡ track_after T.mark (T.cells track.old) call }
{
    match call {
        TrackCall::State { section } => track.state(section).into(),
        TrackCall::Enter { section, axles } => track.enter(section, axles).into(),
        TrackCall::Leave { section, axles } => track.leave(section, axles).into(),
        TrackCall::Fail { section } => track.fail(section).into(),
        TrackCall::Mend { section } => track.mend(section).into(),
    }
}
