// Direction, starter and home.
ghost use Rattle.std.specs.Prelude.{◌≡◌};
ghost use Rattle.rules.specs.Calls.{direction, starter, home, some_station, verdict};
ghost use Rattle.rules.specs.Table.{answer};
ghost use Rattle.line.specs.Works.{Works};
ghost use Rattle.line.specs.Worlds.{world};

use crate::Line;
use crate::frame::levers::Lever;
use lamps::Lamps;
use rules::line::Station;
use rules::refusal::Refusal;
use track::Track;

impl<T: Track, L: Lamps> Line<T, L> {
    // Turns a direction lever to send or to receive.
    pub fn direction(&mut self, station: u32, send: bool) -> Result<(), Refusal>
        ensures { Works L.shows T.mark T.cells self.old (direction station send) tt result self.new }
    {
        let station = self.check_direction(station, send)?;
        self.frame.turn(station, send);
        Ok(())
    }

    // Puts a starter to normal, which is road 0, or reverses it for a road.
    pub fn starter(&mut self, station: u32, road: u32) -> Result<(), Refusal>
        ensures { Works L.shows T.mark T.cells self.old (starter station road) tt result self.new }
    {
        let road = self.frame.check_lever(Lever::Starter, station, road)?;
        self.frame.put_lever(Lever::Starter, road);
        Ok(())
    }

    // Puts a home to normal, which is road 0, or reverses it for a road.
    pub fn home(&mut self, station: u32, road: u32) -> Result<(), Refusal>
        ensures { Works L.shows T.mark T.cells self.old (home station road) tt result self.new }
    {
        let road = self.frame.check_lever(Lever::Home, station, road)?;
        self.frame.put_lever(Lever::Home, road);
        Ok(())
    }

    // Whether a direction lever may be turned. The lever asks this, and the lock lamps ask it too.
    pub(crate) fn check_direction(&self, station: u32, send: bool) -> Result<Station, Refusal>
        ensures { result ≡ answer
            (verdict (L.shows self.now.lamps) (world T.cells self.now) (direction station send))
            (some_station station) }
    {
        let station = self.frame.station(station)?;
        let levers = self.frame.levers(station);
        if levers.sends == send {
            return Err(Refusal::ThereAlready);
        }
        if send && self.frame.levers(station.other()).sends {
            return Err(Refusal::FarEndSends);
        }
        let locking = if send { levers.home } else { levers.starter };
        if locking != 0 {
            return Err(Refusal::LeverOnLever);
        }
        if !send && !self.line_clear() {
            return Err(Refusal::LineNotClear);
        }
        Ok(station)
    }
}
