// Failing and mending: passed on to the track.
ghost use Rattle.rules.specs.Calls.{fail, mend};
ghost use Rattle.line.specs.Works.{Works};

use crate::Line;
use lamps::Lamps;
use rules::refusal::Refusal;
use track::Track;

impl<T: Track, L: Lamps> Line<T, L> {
    // The section goes out of order; what it holds stays.
    pub fn fail(&mut self, section: u32) -> Result<(), Refusal>
        ensures { Works L.shows T.mark T.cells self.old (fail section) tt result self.new }
    {
        let section = self.frame.check_in_use(section)?;
        self.track.fail(section.number)
    }

    // The section is back in order; what it holds stays.
    pub fn mend(&mut self, section: u32) -> Result<(), Refusal>
        ensures { Works L.shows T.mark T.cells self.old (mend section) tt result self.new }
    {
        let section = self.frame.check_in_use(section)?;
        self.track.mend(section.number)
    }
}
