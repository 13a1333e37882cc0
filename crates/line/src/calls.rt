// The calls and questions of a line as values, and their answers.
ghost use Rattle.std.specs.Prelude.{◌≡◌};
ghost use Rattle.line.specs.Results.{done_or, slip_or, taken_or, shown_or, named_or, painted_or};

use crate::slip::Slip;
use panel::PANEL_BYTES;
use rules::aspect::Aspect;
use rules::line::{Laying, PlanEntry};
use rules::refusal::Refusal;

// One call or question. Whatever the numbers are, they are answered.
#[derive(PartialEq, Eq, Debug)]
pub enum Call {
    Lay {
        laying: Laying,
        plan: Vec<PlanEntry>,
    },
    Direction {
        station: u32,
        send: bool,
    },
    Starter {
        station: u32,
        road: u32,
    },
    Home {
        station: u32,
        road: u32,
    },
    PutOn {
        number: u32,
        axles: u32,
        station: u32,
        road: u32,
    },
    Withdraw {
        number: u32,
    },
    Advance {
        number: u32,
    },
    Follow {
        number: u32,
    },
    Fail {
        section: u32,
    },
    Mend {
        section: u32,
    },
    Close {
        block: u32,
    },
    HandIn {
        slip: Slip,
    },
    Signal {
        station: u32,
        place: u32,
    },
    SectionNamed {
        name: u32,
    },
    // For a panel of so many bytes.
    Paint {
        bytes: usize,
    },
}

// What a line answers. One enum and no Result: a history keeps a refusal as an answer like the others, and of the two
// refusals one brings a slip back.
#[derive(PartialEq, Eq, Debug)]
pub enum Answer {
    // Carried out.
    Done,
    TurnedDown(Refusal),
    // A signal's aspect and count.
    Shows { aspect: Aspect, count: u32 },
    // The section that bears the name.
    Section(u32),
    // A block is closed: its slip.
    Closed(Slip),
    // A handing-in turned down: the slip again.
    NotTaken { refusal: Refusal, slip: Slip },
    // The bytes for the panel.
    Painted([u8; PANEL_BYTES]),
}

// A call that gives nothing but its carrying out.
impl From<Result<(), Refusal>> for Answer {
    ghost from_gives = { λ res answer. answer ≡ done_or res };

    fn from(res: Result<(), Refusal>) -> Self {
        res.map_or_else(Answer::TurnedDown, |()| Answer::Done)
    }
}

// A closing.
impl From<Result<Slip, Refusal>> for Answer {
    ghost from_gives = { λ res answer. answer ≡ slip_or res };

    fn from(res: Result<Slip, Refusal>) -> Self {
        res.map_or_else(Answer::TurnedDown, Answer::Closed)
    }
}

// A handing-in.
impl From<Result<(), (Refusal, Slip)>> for Answer {
    ghost from_gives = { λ res answer. answer ≡ taken_or res };

    fn from(res: Result<(), (Refusal, Slip)>) -> Self {
        match res {
            Ok(()) => Answer::Done,
            Err((refusal, slip)) => Answer::NotTaken { refusal, slip },
        }
    }
}

// A signal asked for.
impl From<Result<(Aspect, u32), Refusal>> for Answer {
    ghost from_gives = { λ res answer. answer ≡ shown_or res };

    fn from(res: Result<(Aspect, u32), Refusal>) -> Self {
        res.map_or_else(
            Answer::TurnedDown,
            |(aspect, count)| Answer::Shows { aspect, count },
        )
    }
}

// A section asked for by its name.
impl From<Result<u32, Refusal>> for Answer {
    ghost from_gives = { λ res answer. answer ≡ named_or res };

    fn from(res: Result<u32, Refusal>) -> Self {
        res.map_or_else(Answer::TurnedDown, Answer::Section)
    }
}

// A painting.
impl From<Result<[u8; PANEL_BYTES], Refusal>> for Answer {
    ghost from_gives = { λ res answer. answer ≡ painted_or res };

    fn from(res: Result<[u8; PANEL_BYTES], Refusal>) -> Self {
        res.map_or_else(Answer::TurnedDown, Answer::Painted)
    }
}
