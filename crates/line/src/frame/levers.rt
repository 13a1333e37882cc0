// The levers of the two stations: what locks them, and putting them.
ghost use Rattle.std.specs.Prelude.{◌≡◌, true};
ghost use Rattle.rules.specs.Calls.{with_levers, turned, verdict, some_station, starter_held, home_held};
ghost use Rattle.rules.specs.Lines.{levers_at};
ghost use Rattle.rules.specs.Table.{answer};
ghost use Rattle.line.specs.Frames.{trackless, nothing_shown, Becomes};
ghost use Rattle.line.specs.Keeping.{levers_kept};
ghost use Rattle.line.specs.Levers.{lever_call, lever_put, lever_road, may_reverse, lever_held, station_and_road};

use crate::frame::Frame;
use crate::places::Road;
use rules::line::{Levers, Station};
use rules::refusal::Refusal;

// The levers that are reversed for a road, and that a train can hold.
#[derive(Clone, Copy)]
pub(crate) enum Lever {
    Starter,
    Home,
}

impl Lever {
    // The road that it is reversed for, 0 where it is normal.
    fn road(self, levers: Levers) -> u32
        ensures { result ≡ lever_road self levers }
    {
        match self {
            Lever::Starter => levers.starter,
            Lever::Home => levers.home,
        }
    }

    // A starter may be reversed where its station sends, a home where it receives.
    fn may_reverse(self, levers: Levers) -> bool
        ensures { result ≡ may_reverse self levers }
    {
        match self {
            Lever::Starter => levers.sends,
            Lever::Home => !levers.sends,
        }
    }

    fn put(self, levers: Levers, road: u32) -> Levers
        ensures { result ≡ lever_put self levers road }
    {
        match self {
            Lever::Starter => Levers {
                starter: road,
                ..levers
            },
            Lever::Home => Levers {
                home: road,
                ..levers
            },
        }
    }
}

impl Frame {
    // A rear in the station and the front elsewhere.
    fn starter_held(&self, station: Station) -> bool
        ensures { result ≡ starter_held (trackless self.now) station }
    {
        self.trains.iter().any(|train| train.from == station && train.rear == 0 && train.front != 0)
    }

    // A front in the station and the rear elsewhere.
    fn home_held(&self, station: Station) -> bool
        ensures { result ≡ home_held (trackless self.now) station }
    {
        let other = station.other();
        let place = self.blocks() + 1;
        self.trains
            .iter()
            .any(|train| train.from == other && train.front == place)
    }

    // Which lever it is comes with the call, so the two questions are cases of it.
    fn is_held(&self, lever: Lever, station: Station) -> bool
        ensures { result ≡ lever_held lever (trackless self.now) station }
    {
        match lever {
            Lever::Starter => self.starter_held(station),
            Lever::Home => self.home_held(station),
        }
    }

    // The road that a lever may be put for, 0 for normal, at the station of that number.
    pub(crate) fn check_lever(&self, lever: Lever, station: u32, road: u32) -> Result<Road, Refusal>
        ensures { station_and_road result ≡ answer
            (verdict nothing_shown (trackless self.now) (lever_call lever station road))
            (some_station station, road) }
    {
        let station = self.station(station)?;
        let levers = self.levers(station);
        if self.roads(station) < road {
            return Err(Refusal::NoRoad);
        }
        if (lever.road(levers) == 0) == (road == 0) {
            return Err(Refusal::ThereAlready);
        }
        if road != 0 && !lever.may_reverse(levers) {
            return Err(Refusal::WrongWay);
        }
        if road == 0 && self.is_held(lever, station) {
            return Err(Refusal::Held);
        }
        Ok(Road {
            station,
            number: road,
        })
    }

    fn put_levers(&mut self, station: Station, levers: Levers)
        requires { levers_kept levers ≡ true }
        ensures { Becomes (λ line. with_levers line station levers) self.old self.new }
    {
        match station {
            Station::EndA => self.at_a = levers,
            Station::EndB => self.at_b = levers,
        }
    }

    pub(crate) fn turn(&mut self, station: Station, send: bool)
        ensures { Becomes (λ line. with_levers line station (turned (levers_at line station) send))
            self.old self.new }
    {
        let levers = self.levers(station);
        self.put_levers(
            station,
            Levers {
                sends: send,
                ..levers
            },
        );
    }

    pub(crate) fn put_lever(&mut self, lever: Lever, road: Road)
        ensures { Becomes (λ line. with_levers line road.station
            (lever_put lever (levers_at line road.station) road.number)) self.old self.new }
    {
        let levers = self.levers(road.station);
        self.put_levers(road.station, lever.put(levers, road.number));
    }
}
