// A frame as new, and what it says of its laying.
ghost use Rattle.std.specs.Prelude.{◌≡◌, ◌≤◌, true, not, [], ◌∷◌, IfOk};
ghost use Rattle.rules.specs.Calls.{not_laid, no_station, some_station};
ghost use Rattle.rules.specs.Lines.{new_line, bare, blocks, roads, laying_of, levers_at};
ghost use Rattle.rules.specs.Table.{answer, topmost};
ghost use Rattle.line.specs.Frames.{trackless};
ghost use Rattle.line.specs.Keeping.{levers_kept};

use crate::frame::{Frame, MOST, MOST_BLOCKS};
use crate::places::Road;
use rules::line::{Laying, Levers, Station};
use rules::refusal::Refusal;
use std::alloc::{AllocError, Global};

const NORMAL: Levers = Levers {
    sends: false,
    starter: 0,
    home: 0,
};

// A bare line has no blocks and no roads, as the rules' definition has it: what is asked of them needs no case for it.
const BARE: Laying = Laying {
    number: 0,
    blocks: 0,
    roads_a: 0,
    roads_b: 0,
    reach: 0,
};

impl Frame {
    // Bare, no train, both stations receive, starters and homes normal.
    pub(crate) fn new(heap: Global) -> Result<Self, AllocError>
        ensures { IfOk result (λ frame. trackless frame ≡ new_line []) }
    {
        Ok(Frame {
            laying: None,
            plan: Vec::with_capacity(heap, MOST)?,
            trains: Vec::with_capacity(heap, MOST)?,
            at_a: NORMAL,
            at_b: NORMAL,
            closed: [false; MOST_BLOCKS],
        })
    }

    pub(crate) fn is_laid(&self) -> bool
        ensures { result ≡ not (bare (trackless self.now)) }
    {
        self.laying.is_some()
    }

    pub(crate) fn laying(&self) -> Option<Laying>
        ensures { result ≡ self.now.laying }
    {
        self.laying
    }

    // What the line was laid with, or the row that turns a call of a bare line down.
    pub(crate) fn laid(&self) -> Result<Laying, Refusal>
        ensures { result ≡ answer (topmost (not_laid (trackless self.now) ∷ [])) (laying_of (trackless self.now)) }
    {
        self.laying.ok_or(Refusal::NotLaid)
    }

    // The station of a number, on a line that is laid.
    pub(crate) fn station(&self, number: u32) -> Result<Station, Refusal>
        ensures { result ≡ answer
            (topmost (not_laid (trackless self.now) ∷ no_station number ∷ [])) (some_station number) }
    {
        self.laid()?;
        Station::try_from(number)
    }

    // The numbers of the laying, 0 each while the line is bare.
    pub(crate) fn numbers(&self) -> Laying
        ensures { result ≡ laying_of (trackless self.now) }
    {
        self.laying.unwrap_or(BARE)
    }

    pub(crate) fn blocks(&self) -> u32
        ensures is { result ≡ blocks (trackless self.now) }
        ensures few { result ≤ 16 }
    {
        self.numbers().blocks
    }

    pub(crate) fn roads(&self, station: Station) -> u32
        ensures is { result ≡ roads (trackless self.now) station }
        ensures few { result ≤ 4 }
    {
        let numbers = self.numbers();
        match station {
            Station::EndA => numbers.roads_a,
            Station::EndB => numbers.roads_b,
        }
    }

    // The last road of a station.
    pub(crate) fn last_road(&self, station: Station) -> Road
        ensures station { result.station ≡ station }
        ensures number { result.number ≡ roads (trackless self.now) station }
    {
        Road {
            station,
            number: self.roads(station),
        }
    }

    pub(crate) fn levers(&self, station: Station) -> Levers
        ensures is { result ≡ levers_at (trackless self.now) station }
        ensures kept { levers_kept result ≡ true }
    {
        match station {
            Station::EndA => self.at_a,
            Station::EndB => self.at_b,
        }
    }

    // The road that the home of a station is reversed for.
    pub(crate) fn home_road(&self, station: Station) -> Road
        ensures station { result.station ≡ station }
        ensures number { result.number ≡ (levers_at (trackless self.now) station).home }
    {
        Road {
            station,
            number: self.levers(station).home,
        }
    }
}
