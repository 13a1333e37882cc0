// One call in, its answer out: everything that a program does to a line.
ghost use Rattle.line.specs.Worked.{Worked};

use crate::Line;
use crate::calls::{Answer, Call};
use lamps::Lamps;
use track::Track;

impl<T: Track, L: Lamps> Line<T, L> {
    // Whatever calls came before, on a line that was new, and in whatever order: the answer is that of the rules, and
    // so is what the call leaves, and of that every promise holds.
    pub fn work(&mut self, call: Call) -> Answer
        ensures { Worked L.shows T.mark T.cells self.old call result self.new }
    {
        match call {
            Call::Lay { laying, plan } => self.lay(laying, plan.as_slice()).into(),
            Call::Direction { station, send } => self.direction(station, send).into(),
            Call::Starter { station, road } => self.starter(station, road).into(),
            Call::Home { station, road } => self.home(station, road).into(),
            Call::PutOn {
                number,
                axles,
                station,
                road,
            } => self.put_on(number, axles, station, road).into(),
            Call::Withdraw { number } => self.withdraw(number).into(),
            Call::Advance { number } => self.advance(number).into(),
            Call::Follow { number } => self.follow(number).into(),
            Call::Fail { section } => self.fail(section).into(),
            Call::Mend { section } => self.mend(section).into(),
            Call::Close { block } => self.close(block).into(),
            Call::HandIn { slip } => self.hand_in(slip).into(),
            Call::Signal { station, place } => self.signal(station, place).into(),
            Call::SectionNamed { name } => self.section_named(name).into(),
            Call::Paint { bytes } => self.painted(bytes).into(),
        }
    }
}
