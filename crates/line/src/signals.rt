// What a signal has ahead of it, and what it shows. The trains are never asked.
ghost use Rattle.std.specs.Prelude.{◌≡◌, ◌≤◌};
ghost use Rattle.rules.specs.Calls.{all_clear, ask_signal, verdict};
ghost use Rattle.rules.specs.Lines.{clear, blocks};
ghost use Rattle.rules.specs.Signals.{run_ahead, starter_count, block_count, home_count};
ghost use Rattle.rules.specs.Signals.{count_at, metres_at, aspect_at};
ghost use Rattle.rules.specs.Stations.{place_from};
ghost use Rattle.rules.specs.Table.{answer};
ghost use Rattle.line.specs.Asked.{signal_shown};
ghost use Rattle.line.specs.Worlds.{world};

use crate::Line;
use crate::frame::questions::Signal;
use crate::places::{Section, place_from};
use lamps::Lamps;
use rules::aspect::Aspect;
use rules::line::Station;
use rules::refusal::Refusal;
use track::Track;

impl<T: Track, L: Lamps> Line<T, L> {
    // The aspect of the signal that guards a place, for trains from a station, together with its count.
    pub fn signal(&self, station: u32, place: u32) -> Result<(Aspect, u32), Refusal>
        ensures { result ≡ answer
            (verdict (L.shows self.now.lamps) (world T.cells self.now) (ask_signal station place))
            (signal_shown (L.shows self.now.lamps) (world T.cells self.now) station place) }
    {
        let at = self.frame.check_signal(station, place)?;
        Ok((self.aspect_at(at), self.count_at(at)))
    }

    // Vacant, and no slip out on it.
    pub(crate) fn is_clear(&self, section: Section) -> bool
        ensures { result ≡ clear (world T.cells self.now) section.number }
    {
        self.track.is_vacant(section.number) && !self.frame.closed_at(section.number)
    }

    // The block so many places on from a station is clear. It takes no Signal: the run asks it from within a closure,
    // where none can be made without asking the same of the closure.
    fn is_clear_ahead(&self, station: Station, distance: u32) -> bool
        requires low { 1 ≤ distance }
        requires high { distance ≤ blocks (world T.cells self.now) }
        ensures { result ≡ clear (world T.cells self.now)
            (place_from (blocks (world T.cells self.now)) station distance) }
    {
        self.is_clear(Section {
            number: place_from(self.frame.blocks(), station, distance),
        })
    }

    // How many blocks are clear one after the other ahead of a signal. A range that takes its last number in would cost
    // more at each block, here and for a clear line.
    fn run_ahead(&self, at: Signal) -> u32
        ensures { result ≡ run_ahead (world T.cells self.now) at.station at.distance }
    {
        (at.distance..self.frame.blocks() + 1)
            .take_while(|&distance| self.is_clear_ahead(at.station, distance))
            .count() as u32
    }

    // Every block, from A to B.
    pub(crate) fn line_clear(&self) -> bool
        ensures { result ≡ all_clear (world T.cells self.now) (blocks (world T.cells self.now)) }
    {
        (1..self.frame.blocks() + 1).all(|block| self.is_clear_ahead(Station::EndA, block))
    }

    fn starter_count(&self, station: Station) -> u32
        ensures { result ≡ starter_count (world T.cells self.now) station }
    {
        let levers = self.frame.levers(station);
        let run = self.run_ahead(Signal {
            station,
            distance: 1,
        });
        if levers.sends && levers.starter != 0 && self.frame.numbers().reach <= run {
            run
        } else {
            0
        }
    }

    fn block_count(&self, at: Signal) -> u32
        ensures { result ≡ block_count (world T.cells self.now) at.station at.distance }
    {
        if self.frame.levers(at.station).sends {
            self.run_ahead(at)
        } else {
            0
        }
    }

    // One section, the road that the home is reversed for, or none.
    fn home_count(&self, station: Station) -> u32
        ensures { result ≡ home_count (world T.cells self.now) station }
    {
        let home = self.frame.home_road(station.other());
        let cleared = self.frame.levers(station).sends
            && home.number != 0
            && self.is_clear(home.section());
        u32::from(cleared)
    }

    // The clear sections ahead of a signal.
    fn count_at(&self, at: Signal) -> u32
        ensures { result ≡ count_at (world T.cells self.now) at.station at.distance }
    {
        if at.distance == 1 {
            self.starter_count(at.station)
        } else if at.distance <= self.frame.blocks() {
            self.block_count(at)
        } else {
            self.home_count(at.station)
        }
    }

    // Their metres: of those blocks, or of the home's road.
    fn metres_at(&self, at: Signal) -> u32
        ensures { result ≡ metres_at (world T.cells self.now) at.station at.distance }
    {
        if at.distance <= self.frame.blocks() {
            return self.frame.block_metres(at, self.count_at(at));
        }
        if self.home_count(at.station) == 0 {
            return 0;
        }
        let far = at.station.other();
        self.frame.road_metres(self.frame.home_road(far))
    }

    pub(crate) fn aspect_at(&self, at: Signal) -> Aspect
        ensures { result ≡ aspect_at (L.shows self.now.lamps) (world T.cells self.now)
            at.station at.distance }
    {
        self.lamps.aspect(self.count_at(at), self.metres_at(at))
    }
}
