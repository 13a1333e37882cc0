// Where the places and roads of a line are.
ghost use Rattle.std.specs.Prelude.{◌≡◌, ◌≤◌, true};
ghost use Rattle.rules.specs.Detection.{legal_section};
ghost use Rattle.rules.specs.Stations.{place_from, road_section};
ghost use Rattle.rules.specs.Table.{within};

use rules::line::Station;

// The sections of the roads begin after these.
const BEFORE_ROADS_A: u32 = 16;

const BEFORE_ROADS_B: u32 = 20;

// The place that is so many places on from a station, on a line of so many blocks. That these are at most 16 is asked
// here alone: a number of blocks is read off a laying, whose limits a line keeps.
pub(crate) fn place_from(blocks: u32, station: Station, distance: u32) -> u32
    requires { blocks ≤ 16 }
    ensures { result ≡ place_from blocks station distance }
{
    match station {
        Station::EndA => distance,
        Station::EndB => (blocks + 1).saturating_sub(distance),
    }
}

// A section that every track has.
#[derive(Clone, Copy)]
pub(crate) struct Section {
    pub(crate) number: u32,
    ghost legal: { legal_section number ≡ true },
}

// A block of the longest line.
#[derive(Clone, Copy)]
pub(crate) struct Block {
    pub(crate) number: u32,
    ghost low: { 1 ≤ number },
    ghost high: { number ≤ 16 },
}

impl Block {
    pub(crate) fn section(self) -> Section
        ensures { result.number ≡ self.number }
    {
        Section {
            number: self.number,
        }
    }
}

// A road of a station. Its number is 0 where a lever or a train has none, as levers and trains keep it themselves.
#[derive(Clone, Copy)]
pub(crate) struct Road {
    pub(crate) station: Station,
    pub(crate) number: u32,
    ghost few: { number ≤ 4 },
}

impl Road {
    pub(crate) fn first(station: Station) -> Self
        ensures station { result.station ≡ station }
        ensures number { result.number ≡ 1 }
    {
        Road { station, number: 1 }
    }

    pub(crate) fn section(self) -> Section
        ensures { result.number ≡ road_section self.station self.number }
    {
        let number = match self.station {
            Station::EndA => BEFORE_ROADS_A + self.number,
            Station::EndB => BEFORE_ROADS_B + self.number,
        };
        Section { number }
    }

    // Whether a section is this road or one before it in the station.
    pub(crate) fn reaches(self, section: u32) -> bool
        ensures { result ≡ within (road_section self.station 1) (road_section self.station self.number) section }
    {
        let first = Road::first(self.station);
        (first.section().number..=self.section().number).contains(&section)
    }
}
