// What a line is made of: stations, plan, levers, trains.
ghost use Rattle.std.specs.Prelude.{◌≡◌};
ghost use Rattle.rules.specs.Calls.{station_called};
ghost use Rattle.rules.specs.Stations.{station_number, other_end};

use crate::refusal::Refusal;

// One end of the line: station A, number 1, or station B, number 2.
#[derive(Clone, Copy, PartialEq, Eq, Debug)]
pub enum Station {
    EndA = 1,
    EndB = 2,
}

impl Station {
    // The number that the case is declared with; the name says which number that is, as a From could not.
    pub fn number(self) -> u8
        ensures { result ≡ station_number self }
    {
        self as u8
    }

    pub fn other(self) -> Station
        ensures { result ≡ other_end self }
    {
        match self {
            Station::EndA => Station::EndB,
            Station::EndB => Station::EndA,
        }
    }
}

// The station of a number, if there is one.
impl TryFrom<u32> for Station {
    type Error = Refusal;

    ghost try_from_gives = { λ number found. found ≡ station_called number };

    fn try_from(number: u32) -> Result<Self, Refusal> {
        match number {
            1 => Ok(Station::EndA),
            2 => Ok(Station::EndB),
            _ => Err(Refusal::NoStation),
        }
    }
}

// One section in use: its name, and how long it is.
#[derive(Clone, Copy, PartialEq, Eq, Debug)]
pub struct PlanEntry {
    pub name: u32,
    pub metres: u32,
}

// The numbers that a line is laid with, besides its plan.
#[derive(Clone, Copy, PartialEq, Eq, Debug)]
pub struct Laying {
    pub number: u32,
    pub blocks: u32,
    pub roads_a: u32,
    pub roads_b: u32,
    // The fewest clear blocks for which a starter shows proceed.
    pub reach: u32,
}

// The levers of one station. A starter or home is 0 where normal, otherwise the road it is reversed for. These are the
// numbers that a lever call brings and a panel shows; of an Option, Some(0) would have to be ruled out besides.
#[derive(Clone, Copy, PartialEq, Eq, Debug)]
pub struct Levers {
    pub sends: bool,
    pub starter: u32,
    pub home: u32,
}

// A train: its card, and where it is. Rear and front are counted in places from the station that it leaves: 0 there,
// then the blocks in its order of travel, then one more for its far station.
#[derive(Clone, Copy, PartialEq, Eq, Debug)]
pub struct Train {
    pub number: u32,
    pub axles: u32,
    pub from: Station,
    // Its road in that station.
    pub road: u32,
    pub rear: u32,
    pub front: u32,
    // Its road in the far station once its front is there, otherwise 0: what the home there is reversed for.
    pub into: u32,
}
