// Putting on, withdrawing, advance and follow.
ghost use Rattle.std.specs.Prelude.{◌≡◌, ◌<◌, ◌≤◌, true, false, IfOk, vec_len, OnOk};
ghost use Rattle.rules.specs.Calls.{put_on, withdraw, advance, follow, verdict, standing, some_station, at_stop};
ghost use Rattle.rules.specs.Lines.{bare, blocks};
ghost use Rattle.rules.specs.Table.{answer};
ghost use Rattle.line.specs.Keeping.{train_kept};
ghost use Rattle.line.specs.Moves.{advancing};
ghost use Rattle.line.specs.Works.{Works};
ghost use Rattle.line.specs.Worlds.{world};

use crate::Line;
use crate::frame::questions::Signal;
use crate::frame::trains::{Move, legal_card, standing};
use lamps::Lamps;
use rules::aspect::Aspect;
use rules::line::Train;
use rules::refusal::Refusal;
use track::Track;

impl<T: Track, L: Lamps> Line<T, L> {
    // Sets a train in a road.
    pub fn put_on(
        &mut self,
        number: u32,
        axles: u32,
        station: u32,
        road: u32,
    ) -> Result<(), Refusal>
        ensures { Works L.shows T.mark T.cells self.old (put_on number axles station road) tt result self.new }
    {
        let train = self.check_put_on(number, axles, station, road)?;
        if self.frame.is_full() {
            return Err(Refusal::NotClear);
        }
        let section = self.frame.section_of(train, 0);
        self.track.enter(section.number, train.axles)?;
        self.frame.push_train(train);
        Ok(())
    }

    // Withdrawing, follow and advance differ in the check, in what the track is told, or in what becomes of the train:
    // one function over them would take two closures for its three lines.

    // Takes a train that stands in a road off the line.
    pub fn withdraw(&mut self, number: u32) -> Result<(), Refusal>
        ensures { Works L.shows T.mark T.cells self.old (withdraw number) tt result self.new }
    {
        let gone = self.frame.check_withdraw(number)?;
        self.track.leave(gone.section, gone.axles)?;
        self.frame.remove_train(gone.index);
        Ok(())
    }

    // Moves a train's rear one place towards its front.
    pub fn follow(&mut self, number: u32) -> Result<(), Refusal>
        ensures { Works L.shows T.mark T.cells self.old (follow number) tt result self.new }
    {
        let moved = self.frame.check_follow(number)?;
        self.track.leave(moved.section, moved.axles)?;
        self.frame.put_train(moved.index, moved.train);
        Ok(())
    }

    // Moves a train's front one place on, past a signal that shows proceed.
    pub fn advance(&mut self, number: u32) -> Result<(), Refusal>
        ensures { Works L.shows T.mark T.cells self.old (advance number) tt result self.new }
    {
        let moved = self.check_advance(number)?;
        self.track.enter(moved.section, moved.axles)?;
        self.frame.put_train(moved.index, moved.train);
        Ok(())
    }

    // Whether a train may be put on, and the train as it then stands.
    fn check_put_on(
        &self,
        number: u32,
        axles: u32,
        station: u32,
        road: u32,
    ) -> Result<Train, Refusal>
        ensures row { result ≡ answer
            (verdict (L.shows self.now.lamps) (world T.cells self.now)
            (put_on number axles station road))
            (standing number axles (some_station station) road) }
        ensures kept { IfOk result (λ train. train_kept (blocks (world T.cells self.now)) train ≡ true) }
        ensures laid { OnOk result (bare (world T.cells self.now) ≡ false) }
    {
        let station = self.frame.station(station)?;
        if road == 0 || self.frame.roads(station) < road {
            return Err(Refusal::NoRoad);
        }
        if !legal_card(number, axles) {
            return Err(Refusal::BadCard);
        }
        if self.frame.find(number).is_some() {
            return Err(Refusal::NumberInUse);
        }
        let train = standing(number, axles, station, road);
        if !self.is_clear(self.frame.section_of(train, 0)) {
            return Err(Refusal::NotClear);
        }
        Ok(train)
    }

    // The signal ahead shows stop, or the train stands in a road that the starter is not reversed for.
    fn at_stop(&self, train: Train) -> bool
        requires { train.front ≤ 16 }
        ensures { result ≡ at_stop (L.shows self.now.lamps) (world T.cells self.now) train }
    {
        let aspect = self.aspect_at(Signal {
            station: train.from,
            distance: train.front + 1,
        });
        let starter = self.frame.levers(train.from).starter;
        aspect == Aspect::Stop || train.front == 0 && starter != train.road
    }

    // Whether a train's front may go on, and what that comes to.
    fn check_advance(&self, number: u32) -> Result<Move, Refusal>
        ensures row { result ≡ answer
            (verdict (L.shows self.now.lamps) (world T.cells self.now) (advance number))
            (advancing (world T.cells self.now) number) }
        ensures within { IfOk result (λ move. move.index < vec_len self.now.frame.trains) }
        ensures kept { IfOk result
            (λ move. train_kept (blocks (world T.cells self.now)) move.train ≡ true) }
    {
        let (index, train) = self.frame.running(number)?;
        if train.front == self.frame.blocks() + 1 {
            return Err(Refusal::RoadsEnd);
        }
        if self.at_stop(train) {
            return Err(Refusal::AtStop);
        }
        let moved = self.frame.front_moved(train);
        Ok(Move {
            index,
            section: self.frame.section_of(moved, train.front + 1).number,
            axles: train.axles,
            train: moved,
        })
    }
}
