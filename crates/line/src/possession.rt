// Closing a block and handing its slip in.
ghost use Rattle.std.specs.Prelude.{◌≡◌};
ghost use Rattle.std.specs.Result.{result_map_both};
ghost use Rattle.rules.specs.Calls.{close, hand_in, verdict};
ghost use Rattle.rules.specs.Table.{answer};
ghost use Rattle.line.specs.Slips.{slip_for, without_slip, GivenBack};
ghost use Rattle.line.specs.Works.{Works};
ghost use Rattle.line.specs.Worlds.{world};

use crate::Line;
use crate::places::Block;
use crate::slip::Slip;
use lamps::Lamps;
use rules::refusal::Refusal;
use track::Track;

impl<T: Track, L: Lamps> Line<T, L> {
    // Closes a clear block and gives the slip for it.
    pub fn close(&mut self, block: u32) -> Result<Slip, Refusal>
        ensures { Works L.shows T.mark T.cells self.old
            (close block) (slip_for (world T.cells self.old) block) result self.new }
    {
        let block = self.check_close(block)?;
        let slip = Slip::new(self.frame.numbers().number, block.number);
        self.frame.put_closed(block, true);
        Ok(slip)
    }

    // The block that may be closed.
    fn check_close(&self, number: u32) -> Result<Block, Refusal>
        ensures { result_map_both (λ block. block.number) (λ refusal. refusal) result
            ≡ answer (verdict (L.shows self.now.lamps) (world T.cells self.now) (close number)) number }
    {
        let block = self.frame.check_block(number)?;
        if !self.is_clear(block.section()) {
            return Err(Refusal::NotClear);
        }
        Ok(block)
    }

    // Opens the block that a slip is out on and spends the slip, or gives it back.
    pub fn hand_in(&mut self, slip: Slip) -> Result<(), (Refusal, Slip)>
        ensures works { Works L.shows T.mark T.cells self.old
            (hand_in slip.line slip.block) tt (without_slip result) self.new }
        ensures back { GivenBack slip result }
    {
        match self.frame.check_hand_in(slip.line(), slip.block()) {
            Err(refusal) => Err((refusal, slip)),
            Ok(block) => {
                self.frame.put_closed(block, false);
                slip.spend();
                Ok(())
            }
        }
    }
}
