// Which signal or section a question is about.
ghost use Rattle.std.specs.Prelude.{◌≡◌, ◌<◌, ◌≤◌, [], ◌∷◌, is_some, IfSome};
ghost use Rattle.std.specs.Result.{result_map_both};
ghost use Rattle.rules.specs.Calls.{ask_signal, ask_name, verdict, entry_section, not_laid, not_in_use};
ghost use Rattle.rules.specs.Lines.{in_use};
ghost use Rattle.rules.specs.Signals.{has_signal, distance_to};
ghost use Rattle.rules.specs.Table.{answer, topmost};
ghost use Rattle.line.specs.Asked.{signal_at, section_named};
ghost use Rattle.line.specs.Frames.{trackless, nothing_shown};

use crate::frame::Frame;
use crate::places::{Road, Section, place_from};
use crate::search::search;
use rules::line::Station;
use rules::refusal::Refusal;

// A signal, by the station that its trains come from and how many places on the place is that it guards.
#[derive(Clone, Copy)]
pub(crate) struct Signal {
    pub(crate) station: Station,
    pub(crate) distance: u32,
    ghost ahead: { 1 ≤ distance },
}

impl Frame {
    fn has_signal(&self, station: Station, place: u32) -> bool
        ensures { result ≡ has_signal (trackless self.now) station place }
    {
        match station {
            Station::EndA => (1..=self.blocks() + 1).contains(&place),
            Station::EndB => place <= self.blocks(),
        }
    }

    // The signal that guards a place, for trains from a station, where there is one.
    pub(crate) fn signal(&self, station: Station, place: u32) -> Option<Signal>
        ensures is { is_some result ≡ has_signal (trackless self.now) station place }
        ensures same { IfSome result (λ at. (at.station ≡ station)
            × (at.distance ≡ distance_to (trackless self.now) station place)) }
    {
        if self.has_signal(station, place) {
            Some(Signal {
                station,
                distance: place_from(self.blocks(), station, place),
            })
        } else {
            None
        }
    }

    // The same for a station by its number, on a line that is laid.
    pub(crate) fn check_signal(&self, station: u32, place: u32) -> Result<Signal, Refusal>
        ensures { result_map_both (λ at. (at.station, at.distance)) (λ refusal. refusal) result
            ≡ answer (verdict nothing_shown (trackless self.now) (ask_signal station place))
            (signal_at (trackless self.now) station place) }
    {
        let station = self.station(station)?;
        self.signal(station, place).ok_or(Refusal::NoSection)
    }

    // The section of a number, where it is in use.
    pub(crate) fn in_use(&self, number: u32) -> Option<Section>
        ensures is { is_some result ≡ in_use (trackless self.now) number }
        ensures same { IfSome result (λ section. section.number ≡ number) }
    {
        if self.block(number).is_some()
            || self.last_road(Station::EndA).reaches(number)
            || self.last_road(Station::EndB).reaches(number)
        {
            Some(Section { number })
        } else {
            None
        }
    }

    // The section that a call may be about: the line is laid, and it is in use.
    pub(crate) fn check_in_use(&self, number: u32) -> Result<Section, Refusal>
        ensures { result_map_both (λ section. section.number) (λ refusal. refusal) result
            ≡ answer (topmost
            (not_laid (trackless self.now) ∷ not_in_use (trackless self.now) number ∷ [])) number }
    {
        self.laid()?;
        self.in_use(number).ok_or(Refusal::NoSection)
    }

    // The section of an entry of the plan.
    fn entry_section(&self, index: u32) -> u32
        requires { index < 24 }
        ensures { result ≡ entry_section (trackless self.now) index }
    {
        let blocks = self.blocks();
        let before_b = blocks + self.roads(Station::EndA);
        if index < blocks {
            index + 1
        } else if index < before_b {
            Road::first(Station::EndA).section().number + (index - blocks)
        } else {
            Road::first(Station::EndB).section().number + (index - before_b)
        }
    }

    // The section that bears a name in the plan.
    pub(crate) fn section_named(&self, name: u32) -> Result<u32, Refusal>
        ensures { result ≡ answer
            (verdict nothing_shown (trackless self.now) (ask_name name))
            (section_named (trackless self.now) name) }
    {
        self.laid()?;
        let index = search(self.plan.as_slice(), name).ok_or(Refusal::NoSection)?;
        Ok(self.entry_section(index as u32))
    }
}
