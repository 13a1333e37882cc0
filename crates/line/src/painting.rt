// The 66 bytes of the lamp panel.
ghost use Rattle.std.specs.Prelude.{◌≡◌, ◌<◌, ◌≤◌, ◌++◌, length, drop, OnOk};
ghost use Rattle.rules.specs.Calls.{paint, verdict};
ghost use Rattle.rules.specs.Panels.{section_byte, signal_byte, lock_lamp, panel_byte, panel};
ghost use Rattle.rules.specs.Table.{answer, after};
ghost use Rattle.line.specs.Worlds.{world};

use crate::Line;
use lamps::Lamps;
use panel::PANEL_BYTES;
use rules::detection::SectionState;
use rules::line::Station;
use rules::refusal::Refusal;
use track::Track;

// What is painted for a section that is not in use and for a signal that is not there. A number and no enum: it stands
// beside the numbers of both, and section states have theirs already.
const MISSING: u8 = 255;

// What is painted for a closed and vacant block: the number after those of the section states.
const CLOSED: u8 = 3;

impl<T: Track, L: Lamps> Line<T, L> {
    // Paints the first 66 bytes of a panel.
    pub fn paint(&self, bytes: &mut [u8]) -> Result<(), Refusal>
        ensures answer { result ≡ answer
            (verdict (L.shows self.now.lamps) (world T.cells self.now)
            (paint (length bytes.old))) tt }
        ensures painted { bytes.new ≡ after
            (verdict (L.shows self.now.lamps) (world T.cells self.now)
            (paint (length bytes.old)))
            bytes.old
            (panel (L.shows self.now.lamps) (world T.cells self.now) ++ drop 66 bytes.old) }
    {
        self.check_paint(bytes.len())?;
        bytes[..PANEL_BYTES].copy_from_slice(&self.panel());
        Ok(())
    }

    // The bytes that a panel of so many would be painted with.
    pub(crate) fn painted(&self, bytes: usize) -> Result<[u8; PANEL_BYTES], Refusal>
        ensures { result ≡ answer
            (verdict (L.shows self.now.lamps) (world T.cells self.now) (paint bytes))
            (panel (L.shows self.now.lamps) (world T.cells self.now)) }
    {
        self.check_paint(bytes)?;
        Ok(self.panel())
    }

    fn check_paint(&self, bytes: usize) -> Result<(), Refusal>
        ensures row { result ≡ answer
            (verdict (L.shows self.now.lamps) (world T.cells self.now) (paint bytes)) tt }
        ensures long { OnOk result (66 ≤ bytes) }
    {
        self.frame.laid()?;
        if bytes < PANEL_BYTES {
            return Err(Refusal::ShortPanel);
        }
        Ok(())
    }

    // The bytes that a panel shows, from the first on.
    fn panel(&self) -> [u8; PANEL_BYTES]
        ensures { result ≡ panel (L.shows self.now.lamps) (world T.cells self.now) }
    {
        std::array::from_fn(|at| self.byte(at as u32))
    }

    fn byte(&self, at: u32) -> u8
        requires { at < 66 }
        ensures { result ≡ panel_byte (L.shows self.now.lamps) (world T.cells self.now) at }
    {
        match at {
            0..24 => self.section_byte(at + 1),
            24..41 => self.signal_byte(Station::EndA, at - 23),
            41..58 => self.signal_byte(Station::EndB, at - 41),
            58 => u8::from(self.frame.levers(Station::EndA).sends),
            59 => u8::from(self.frame.levers(Station::EndB).sends),
            60 => self.frame.levers(Station::EndA).starter as u8,
            61 => self.frame.levers(Station::EndB).starter as u8,
            62 => self.frame.levers(Station::EndA).home as u8,
            63 => self.frame.levers(Station::EndB).home as u8,
            64 => self.lock_lamp(Station::EndA),
            _ => self.lock_lamp(Station::EndB),
        }
    }

    fn section_byte(&self, section: u32) -> u8
        ensures { result ≡ section_byte (world T.cells self.now) section }
    {
        let Some(section) = self.frame.in_use(section) else {
            return MISSING;
        };
        match self.track.state(section.number) {
            Ok(SectionState::Vacant) if self.frame.closed_at(section.number) => CLOSED,
            Ok(state) => state.number(),
            Err(_) => MISSING,
        }
    }

    fn signal_byte(&self, station: Station, place: u32) -> u8
        ensures { result ≡ signal_byte (L.shows self.now.lamps) (world T.cells self.now)
            station place }
    {
        self.frame
            .signal(station, place)
            .map_or(MISSING, |at| self.aspect_at(at).number())
    }

    // Lit where turning the direction lever over would be turned down: the lever itself is asked.
    fn lock_lamp(&self, station: Station) -> u8
        ensures { result ≡ lock_lamp (L.shows self.now.lamps) (world T.cells self.now) station }
    {
        let over = !self.frame.levers(station).sends;
        u8::from(
            self.check_direction(u32::from(station.number()), over)
                .is_err(),
        )
    }
}
