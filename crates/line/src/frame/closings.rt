// The blocks on which a slip is out.
ghost use Rattle.std.specs.Prelude.{◌≡◌, [], ◌∷◌, is_some, IfSome};
ghost use Rattle.std.specs.Result.{result_map_both};
ghost use Rattle.rules.specs.Calls.{with_closed, hand_in, verdict, not_laid, no_block};
ghost use Rattle.rules.specs.Lines.{closed_at, blocks};
ghost use Rattle.rules.specs.Table.{answer, topmost, within};
ghost use Rattle.line.specs.Frames.{trackless, nothing_shown, Becomes};

use crate::frame::Frame;
use crate::places::Block;
use rules::refusal::Refusal;

impl Frame {
    // The block of a number, where the line has it.
    pub(crate) fn block(&self, number: u32) -> Option<Block>
        ensures is { is_some result ≡ within 1 (blocks (trackless self.now)) number }
        ensures same { IfSome result (λ block. block.number ≡ number) }
    {
        if (1..=self.blocks()).contains(&number) {
            Some(Block { number })
        } else {
            None
        }
    }

    // The block that a call may be about: the line is laid, and has it.
    pub(crate) fn check_block(&self, number: u32) -> Result<Block, Refusal>
        ensures { result_map_both (λ block. block.number) (λ refusal. refusal) result
            ≡ answer (topmost
            (not_laid (trackless self.now) ∷ no_block (trackless self.now) number ∷ [])) number }
    {
        self.laid()?;
        self.block(number).ok_or(Refusal::NoSection)
    }

    // The block that a slip with these numbers may be handed in for.
    pub(crate) fn check_hand_in(&self, number: u32, block: u32) -> Result<Block, Refusal>
        ensures { result_map_both (λ block. block.number) (λ refusal. refusal) result
            ≡ answer (verdict nothing_shown (trackless self.now) (hand_in number block)) block }
    {
        let block = self.check_block(block)?;
        if number != self.numbers().number || !self.closed_at(block.number) {
            return Err(Refusal::StrangeSlip);
        }
        Ok(block)
    }

    pub(crate) fn closed_at(&self, section: u32) -> bool
        ensures { result ≡ closed_at (trackless self.now) section }
    {
        let place = section.saturating_sub(1) as usize;
        self.closed.get(place).copied().unwrap_or(false)
    }

    pub(crate) fn put_closed(&mut self, block: Block, closed: bool)
        ensures { Becomes (λ line. with_closed line block.number closed) self.old self.new }
    {
        self.closed[(block.number - 1) as usize] = closed;
    }
}
