// What a track is told and what it answers.
ghost use Rattle.std.specs.Prelude.{◌≡◌, Some};
ghost use Rattle.rules.specs.Detection.{state_number, state_word, state_of, TrackRowsInTableOrder};
ghost use Rattle.rules.specs.Detection.{answer_number, answer_value, answer_text, done_or, reads_or};

use crate::refusal::Refusal;
use std::fmt;

// A track knows the sections 1 to this one.
pub const LAST_SECTION: u32 = 24;

// The axles of a train, at least and at most.
pub const FEWEST_AXLES: u32 = 2;

pub const MOST_AXLES: u32 = 400;

// What a track says of one section.
#[derive(Clone, Copy, PartialEq, Eq, Debug)]
pub enum SectionState {
    Vacant = 0,
    Occupied = 1,
    OutOfOrder = 2,
}

impl SectionState {
    // The number that the case is declared with; the name says which number that is, as a From could not.
    pub fn number(self) -> u8
        ensures { result ≡ state_number self }
    {
        self as u8
    }
}

impl fmt::Display for SectionState {
    ghost output = { λ x. Some (state_word x) };

    fn fmt<W: fmt::Write>(&self, f: &mut fmt::Formatter<W>) -> fmt::Result {
        f.write_str(match *self {
            SectionState::Vacant => "vacant",
            SectionState::Occupied => "occupied",
            SectionState::OutOfOrder => "out of order",
        })
    }
}

// What a track means of one section: the number held, and whether it is out of order.
#[derive(Clone, Copy, PartialEq, Eq, Debug)]
pub struct Cell {
    pub held: u32,
    pub failed: bool,
}

impl Cell {
    // A section out of order says so, whatever it holds.
    pub fn state(self) -> SectionState
        ensures { result ≡ state_of self }
    {
        match (self.failed, self.held) {
            (true, _) => SectionState::OutOfOrder,
            (false, 0) => SectionState::Vacant,
            (false, _) => SectionState::Occupied,
        }
    }
}

// One call of a track.
#[derive(Clone, Copy, PartialEq, Eq, Debug)]
pub enum TrackCall {
    State { section: u32 },
    Enter { section: u32, axles: u32 },
    Leave { section: u32, axles: u32 },
    Fail { section: u32 },
    Mend { section: u32 },
}

// What a track answers to a call. One enum and not a Result: what is answered has a number, a value and words, and so
// has the row that turns a call down.
#[derive(Clone, Copy, PartialEq, Eq, Debug)]
pub enum TrackAnswer {
    // The state that was asked for.
    Reads(SectionState),
    // Carried out.
    Done,
    TurnedDown(Refusal),
}

impl TrackAnswer {
    // Which of the three it is: 0 reads, 1 done, 2 turned down.
    pub fn number(self) -> u8
        ensures { result ≡ answer_number self }
    {
        match self {
            TrackAnswer::Reads(_) => 0,
            TrackAnswer::Done => 1,
            TrackAnswer::TurnedDown(_) => 2,
        }
    }

    // The number of what it holds: the state, or the row.
    pub fn value(self) -> Option<u8>
        ensures { result ≡ answer_value self }
    {
        match self {
            TrackAnswer::Reads(state) => Some(state.number()),
            TrackAnswer::Done => None,
            TrackAnswer::TurnedDown(refusal) => Some(refusal.row()),
        }
    }
}

// A call that has nothing to tell.
impl From<Result<(), Refusal>> for TrackAnswer {
    ghost from_gives = { λ res answer. answer ≡ done_or res };

    fn from(res: Result<(), Refusal>) -> Self {
        res.map_or_else(TrackAnswer::TurnedDown, |()| TrackAnswer::Done)
    }
}

// A section asked for its state.
impl From<Result<SectionState, Refusal>> for TrackAnswer {
    ghost from_gives = { λ res answer. answer ≡ reads_or res };

    fn from(res: Result<SectionState, Refusal>) -> Self {
        res.map_or_else(TrackAnswer::TurnedDown, TrackAnswer::Reads)
    }
}

impl fmt::Display for TrackAnswer {
    ghost output = { λ x. Some (answer_text x) };

    fn fmt<W: fmt::Write>(&self, f: &mut fmt::Formatter<W>) -> fmt::Result {
        match *self {
            TrackAnswer::Reads(state) => write!(f, "reads {state}"),
            TrackAnswer::Done => f.write_str("ok"),
            TrackAnswer::TurnedDown(refusal) => {
                let row = refusal.row();
                write!(f, "no {row}, {refusal}")
            }
        }
    }
}

// The rows that a call of a track can meet are asked in the order of the table.
pub fn track_rows_in_table_order()
    ensures { TrackRowsInTableOrder }
{}
