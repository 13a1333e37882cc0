// The turning-down table.
ghost use Rattle.std.specs.Prelude.{◌≡◌, Some};
ghost use Rattle.rules.specs.Table.{row_number, row_word};

use std::error::Error;
use std::fmt;

// Why a call was turned down: one case for each row of the table, from the top.
#[derive(Clone, Copy, PartialEq, Eq, Debug)]
pub enum Refusal {
    NotLaid = 1,
    Laid = 2,
    BadPlan = 3,
    NoStation = 4,
    NoSection = 5,
    NoRoad = 6,
    BadCard = 7,
    NumberInUse = 8,
    NoTrain = 9,
    ThereAlready = 10,
    FarEndSends = 11,
    WrongWay = 12,
    LeverOnLever = 13,
    LineNotClear = 14,
    Held = 15,
    NotClear = 16,
    AtStop = 17,
    RoadsEnd = 18,
    NothingBehind = 19,
    TrainAway = 20,
    StrangeSlip = 21,
    SoAlready = 22,
    ShortPanel = 23,
    WrongMark = 24,
    Unreadable = 25,
}

impl Refusal {
    // The number of the row, which the case is declared with; the name says so, as a From could not.
    pub fn row(self) -> u8
        ensures { result ≡ row_number self }
    {
        self as u8
    }
}

impl fmt::Display for Refusal {
    ghost output = { λ x. Some (row_word x) };

    fn fmt<W: fmt::Write>(&self, f: &mut fmt::Formatter<W>) -> fmt::Result {
        f.write_str(match *self {
            Refusal::NotLaid => "not laid",
            Refusal::Laid => "laid",
            Refusal::BadPlan => "bad plan",
            Refusal::NoStation => "no station",
            Refusal::NoSection => "no section",
            Refusal::NoRoad => "no road",
            Refusal::BadCard => "bad card",
            Refusal::NumberInUse => "number in use",
            Refusal::NoTrain => "no train",
            Refusal::ThereAlready => "there already",
            Refusal::FarEndSends => "far end sends",
            Refusal::WrongWay => "wrong way",
            Refusal::LeverOnLever => "lever on lever",
            Refusal::LineNotClear => "line not clear",
            Refusal::Held => "held",
            Refusal::NotClear => "not clear",
            Refusal::AtStop => "at stop",
            Refusal::RoadsEnd => "road's end",
            Refusal::NothingBehind => "nothing behind",
            Refusal::TrainAway => "train away",
            Refusal::StrangeSlip => "strange slip",
            Refusal::SoAlready => "so already",
            Refusal::ShortPanel => "short panel",
            Refusal::WrongMark => "wrong mark",
            Refusal::Unreadable => "unreadable",
        })
    }
}

impl Error for Refusal {}
