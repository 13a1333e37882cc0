// The trains that a line keeps: finding them, how they move, putting them back.
ghost use Rattle.std.specs.Prelude.{◌≡◌, ◌+◌, ◌<◌, ◌≤◌, true, false, ◌&&◌, [], ◌∷◌, ◌++◌, length, take, drop, IfSome};
ghost use Rattle.std.specs.Prelude.{IfOk, vec_len, ◌≢◌, nat_le, slice_index_or, slice_set};
ghost use Rattle.rules.specs.Calls.{train_index, no_train, front_moved, rear_moved, standing, withdraw, follow};
ghost use Rattle.rules.specs.Calls.{verdict, not_laid, no_train_of};
ghost use Rattle.rules.specs.Lines.{bare, blocks, section_of};
ghost use Rattle.rules.specs.Detection.{legal_axles};
ghost use Rattle.rules.specs.Table.{answer, topmost, within};
ghost use Rattle.line.specs.Frames.{trackless, nothing_shown, Becomes, trains_put};
ghost use Rattle.line.specs.Keeping.{train_kept};
ghost use Rattle.line.specs.Moves.{running, taking_off, following};

use crate::frame::plan::MOST_NUMBER;
use crate::frame::{Frame, MOST};
use crate::places::{Road, Section, place_from};
use crate::search::search;
use rules::detection::{FEWEST_AXLES, MOST_AXLES};
use rules::line::{Station, Train};
use rules::refusal::Refusal;

// What a call of a train comes to, as specs/Moves.antt has it: which train, the section and the axles that the track is
// told, and the train then.
#[derive(Clone, Copy)]
pub(crate) struct Move {
    pub(crate) index: usize,
    pub(crate) section: u32,
    pub(crate) axles: u32,
    pub(crate) train: Train,
}

// The numbers and the axles that a card may bear.
pub(crate) fn legal_card(number: u32, axles: u32) -> bool
    ensures { result ≡ (within 1 9999 number && legal_axles axles) }
{
    (1..=MOST_NUMBER).contains(&number) && (FEWEST_AXLES..=MOST_AXLES).contains(&axles)
}

// A train that stands in a road.
pub(crate) fn standing(number: u32, axles: u32, from: Station, road: u32) -> Train
    ensures { result ≡ standing number axles from road }
{
    Train {
        number,
        axles,
        from,
        road,
        rear: 0,
        front: 0,
        into: 0,
    }
}

// That an index is one of the trains, and that a train is in order on the line, stands in the contracts below: both are
// facts about this frame, which no type of an index or a train can state.
impl Frame {
    pub(crate) fn trains(&self) -> &[Train]
        ensures { result.now ≡ self.now.trains.items }
    {
        self.trains.as_slice()
    }

    pub(crate) fn find(&self, number: u32) -> Option<usize>
        ensures is { result ≡ train_index (trackless self.now) number }
        ensures within { IfSome result (λ index. index < vec_len self.now.trains) }
    {
        search(self.trains.as_slice(), number)
    }

    pub(crate) fn train(&self, index: usize) -> Train
        requires { index < vec_len self.now.trains }
        ensures is { result ≡ slice_index_or self.now.trains.items index no_train }
        ensures kept { train_kept (blocks (trackless self.now)) result ≡ true }
    {
        self.trains[index]
    }

    // Where the train of a number is among the trains, and the train.
    pub(crate) fn running(&self, number: u32) -> Result<(usize, Train), Refusal>
        ensures row { result ≡ answer
            (topmost (not_laid (trackless self.now) ∷ no_train_of (trackless self.now) number ∷ []))
            (running (trackless self.now) number) }
        ensures within { IfOk result (λ found. found.0 < vec_len self.now.trains) }
        ensures kept { IfOk result (λ found. train_kept (blocks (trackless self.now)) found.1 ≡ true) }
    {
        self.laid()?;
        let index = self.find(number).ok_or(Refusal::NoTrain)?;
        Ok((index, self.train(index)))
    }

    // The section of a train so many places on from the station that it leaves.
    pub(crate) fn section_of(&self, train: Train, distance: u32) -> Section
        requires { train_kept (blocks (trackless self.now)) train ≡ true }
        ensures { result.number ≡ section_of (blocks (trackless self.now)) train distance }
    {
        let blocks = self.blocks();
        if distance == 0 {
            Road {
                station: train.from,
                number: train.road,
            }
            .section()
        } else if distance <= blocks {
            Section {
                number: place_from(blocks, train.from, distance),
            }
        } else {
            Road {
                station: train.from.other(),
                number: train.into,
            }
            .section()
        }
    }

    // The front one place on; at the far station it is in the home's road.
    pub(crate) fn front_moved(&self, train: Train) -> Train
        requires kept { train_kept (blocks (trackless self.now)) train ≡ true }
        requires going { train.front ≢ blocks (trackless self.now) + 1 }
        ensures is { result ≡ front_moved (trackless self.now) train }
        ensures kept { train_kept (blocks (trackless self.now)) result ≡ true }
    {
        let into = if train.front == self.blocks() {
            self.levers(train.from.other()).home
        } else {
            0
        };
        Train {
            front: train.front + 1,
            into,
            ..train
        }
    }

    // The rear one place on; come wholly in, the train stands in its road there.
    fn rear_moved(&self, train: Train) -> Train
        requires { train.rear ≤ 17 }
        ensures { result ≡ rear_moved (trackless self.now) train }
    {
        if train.rear == self.blocks() {
            return standing(train.number, train.axles, train.from.other(), train.into);
        }
        Train {
            rear: train.rear + 1,
            ..train
        }
    }

    // Whether a train may be withdrawn, and what that comes to.
    pub(crate) fn check_withdraw(&self, number: u32) -> Result<Move, Refusal>
        ensures row { result ≡ answer
            (verdict nothing_shown (trackless self.now) (withdraw number))
            (taking_off (trackless self.now) number) }
        ensures within { IfOk result (λ move. move.index < vec_len self.now.trains) }
    {
        let (index, train) = self.running(number)?;
        if train.front != 0 {
            return Err(Refusal::TrainAway);
        }
        Ok(Move {
            index,
            section: self.section_of(train, 0).number,
            axles: train.axles,
            train,
        })
    }

    // Whether a train's rear may follow its front, and what that comes to.
    pub(crate) fn check_follow(&self, number: u32) -> Result<Move, Refusal>
        ensures row { result ≡ answer
            (verdict nothing_shown (trackless self.now) (follow number))
            (following (trackless self.now) number) }
        ensures within { IfOk result (λ move. move.index < vec_len self.now.trains) }
        ensures kept { IfOk result (λ move. train_kept (blocks (trackless self.now)) move.train ≡ true) }
    {
        let (index, train) = self.running(number)?;
        if train.rear == train.front {
            return Err(Refusal::NothingBehind);
        }
        Ok(Move {
            index,
            section: self.section_of(train, train.rear).number,
            axles: train.axles,
            train: self.rear_moved(train),
        })
    }

    pub(crate) fn is_full(&self) -> bool
        ensures { result ≡ nat_le 24 (length (trackless self.now).trains) }
    {
        self.trains.len() >= MOST
    }

    pub(crate) fn push_train(&mut self, train: Train)
        requires room { vec_len self.old.trains < 24 }
        requires kept { train_kept (blocks (trackless self.old)) train ≡ true }
        requires laid { bare (trackless self.old) ≡ false }
        ensures { Becomes (λ line. trains_put (line.trains ++ train ∷ []) line)
            self.old self.new }
    {
        self.trains.push_reserved(train);
    }

    pub(crate) fn put_train(&mut self, index: usize, train: Train)
        requires within { index < vec_len self.old.trains }
        requires kept { train_kept (blocks (trackless self.old)) train ≡ true }
        ensures { Becomes (λ line. trains_put (slice_set line.trains index train) line)
            self.old self.new }
    {
        self.trains[index] = train;
    }

    pub(crate) fn remove_train(&mut self, index: usize)
        requires { index < vec_len self.old.trains }
        ensures { Becomes (λ line. trains_put (take index line.trains ++ drop (index + 1) line.trains) line)
            self.old self.new }
    {
        let _ = self.trains.remove(index);
    }
}
