// The promises, each as the contract of a function. The functions do nothing: what they stand for is proved.
#![tactic(auto)]

ghost use Rattle.promises.specs.Movements.{WorkedThrough, WorkedInBoxes, HeldFromRearToFront};
ghost use Rattle.promises.specs.Promises.{RowsAsListed, TurnedDownUntouched};
ghost use Rattle.promises.specs.Promises.{NeverBothSend, ProceedFacesTheSender, DirectionLocked};
ghost use Rattle.promises.specs.Promises.{Apart, FrontsComeIntoClear, NoSurprise, Room, LeverFrame};
ghost use Rattle.promises.specs.Promises.{SameLeversSameLamps, GetsIn};
ghost use Rattle.promises.specs.Witnesses.{NoPromiseIsEmpty};

// The rules yield every line of the movements worked through.
pub fn movements_worked_through()
    ensures { WorkedThrough }
{}

// So they do of those that go row by row, from both stations and with other lamps; and a train on its way holds what
// it should.
pub fn movements_row_by_row()
    ensures yielded { WorkedInBoxes }
    ensures held { HeldFromRearToFront }
{}

// The rows that a call can meet are those that the table lists for it, from the top.
pub fn rows_as_listed()
    ensures { RowsAsListed }
{}

// A call turned down is so by a row of its own list, and alters nothing.
pub fn turned_down_untouched()
    ensures { TurnedDownUntouched }
{}

// After every list of calls the stations do not both send.
pub fn never_both_send()
    ensures { NeverBothSend }
{}

// A signal that shows proceed faces trains from a station that sends.
pub fn proceed_faces_the_sender()
    ensures { ProceedFacesTheSender }
{}

// While a train holds a block, every direction call is turned down.
pub fn direction_locked()
    ensures { DirectionLocked }
{}

// No two trains hold one section, none a closed one, and a front comes only into a clear section.
pub fn apart()
    ensures { Apart }
{}

// Whatever call comes next, each front stands after it where it stood before, or in a section that was clear.
pub fn fronts_come_into_clear()
    ensures { FrontsComeIntoClear }
{}

// The track takes every call that the line makes of it.
pub fn no_surprise()
    ensures { NoSurprise }
{}

// Never more trains than sections in use, and never more than 24.
pub fn room()
    ensures { Room }
{}

// The lever frame of a laid line shows one of ten rows.
pub fn lever_frame()
    ensures { LeverFrame }
{}

// Whatever kind of track it has, a box that is given the same calls answers and shows the same.
pub fn same_levers_same_lamps()
    ensures { SameLeversSameLamps }
{}

// The foremost train, on a line in order and with a way in, is brought wholly in by at most 2 × N + 3 calls.
pub fn gets_in()
    ensures { GetsIn }
{}

// What each promise speaks of comes about, in both directions of travel.
pub fn no_promise_is_empty()
    ensures { NoPromiseIsEmpty }
{}
