// Every row of every call of a track, from the top, on both kinds.
use rules::detection::{SectionState, TrackAnswer, TrackCall};
use rules::refusal::Refusal;
use std::process::Abort;
use track::Track;
use track::axles::AxleCounter;
use track::circuits::TrackCircuits;
use track::telling::tell;

const VACANT: TrackAnswer = TrackAnswer::Reads(SectionState::Vacant);

const OCCUPIED: TrackAnswer = TrackAnswer::Reads(SectionState::Occupied);

const OUT_OF_ORDER: TrackAnswer = TrackAnswer::Reads(SectionState::OutOfOrder);

const DONE: TrackAnswer = TrackAnswer::Done;

const NO_SECTION: TrackAnswer = TrackAnswer::TurnedDown(Refusal::NoSection);

const BAD_CARD: TrackAnswer = TrackAnswer::TurnedDown(Refusal::BadCard);

const NOT_CLEAR: TrackAnswer = TrackAnswer::TurnedDown(Refusal::NotClear);

const SO_ALREADY: TrackAnswer = TrackAnswer::TurnedDown(Refusal::SoAlready);

const WRONG_MARK: TrackAnswer = TrackAnswer::TurnedDown(Refusal::WrongMark);

fn state(section: u32) -> TrackCall {
    TrackCall::State { section }
}

fn enter(section: u32, axles: u32) -> TrackCall {
    TrackCall::Enter { section, axles }
}

fn leave(section: u32, axles: u32) -> TrackCall {
    TrackCall::Leave { section, axles }
}

fn fail(section: u32) -> TrackCall {
    TrackCall::Fail { section }
}

fn mend(section: u32) -> TrackCall {
    TrackCall::Mend { section }
}

// Each call and its answer, one after the other.
fn told<T: Track>(rt: &impl Abort, track: &mut T, steps: &[(TrackCall, TrackAnswer)]) {
    for (call, answer) in steps {
        assert_eq!(rt; tell(track, *call), *answer);
    }
}

// On a new track.
fn state_and_enter<T: Track>(rt: &impl Abort, track: &mut T) {
    told(
        rt,
        track,
        &[
            (state(0), NO_SECTION),
            (state(1), VACANT),
            (state(24), VACANT),
            (state(25), NO_SECTION),
        ],
    );
    told(
        rt,
        track,
        &[
            (state(u32::MAX), NO_SECTION),
            (enter(0, 1), NO_SECTION),
            (enter(25, 8), NO_SECTION),
        ],
    );
    told(
        rt,
        track,
        &[
            (enter(1, 0), BAD_CARD),
            (enter(1, 1), BAD_CARD),
            (enter(1, 401), BAD_CARD),
        ],
    );
    told(
        rt,
        track,
        &[
            (enter(1, 2), DONE),
            (enter(24, 400), DONE),
            (enter(1, 2), NOT_CLEAR),
            (enter(1, 1), BAD_CARD),
        ],
    );
    told(
        rt,
        track,
        &[
            (state(1), OCCUPIED),
            (state(2), VACANT),
            (state(23), VACANT),
            (state(24), OCCUPIED),
        ],
    );
}

// With trains in sections 1 and 24.
fn fail_and_mend<T: Track>(rt: &impl Abort, track: &mut T) {
    told(
        rt,
        track,
        &[
            (fail(0), NO_SECTION),
            (fail(25), NO_SECTION),
            (fail(1), DONE),
            (fail(1), SO_ALREADY),
        ],
    );
    told(
        rt,
        track,
        &[
            (fail(2), DONE),
            (fail(24), DONE),
            (state(1), OUT_OF_ORDER),
            (state(2), OUT_OF_ORDER),
        ],
    );
    told(
        rt,
        track,
        &[
            (state(3), VACANT),
            (enter(1, 2), NOT_CLEAR),
            (enter(2, 2), NOT_CLEAR),
        ],
    );
    told(
        rt,
        track,
        &[
            (mend(0), NO_SECTION),
            (mend(25), NO_SECTION),
            (mend(1), DONE),
            (mend(1), SO_ALREADY),
        ],
    );
    told(
        rt,
        track,
        &[
            (mend(3), SO_ALREADY),
            (mend(2), DONE),
            (state(1), OCCUPIED),
            (state(2), VACANT),
        ],
    );
}

// With trains in sections 1 and 24, the latter out of order.
fn leave_again<T: Track>(rt: &impl Abort, track: &mut T) {
    told(
        rt,
        track,
        &[
            (leave(0, 1), NO_SECTION),
            (leave(25, 8), NO_SECTION),
            (leave(2, 1), BAD_CARD),
        ],
    );
    told(
        rt,
        track,
        &[
            (leave(2, 401), BAD_CARD),
            (leave(2, 2), WRONG_MARK),
            (leave(1, 2), DONE),
        ],
    );
    told(
        rt,
        track,
        &[
            (leave(1, 2), WRONG_MARK),
            (leave(24, 400), DONE),
            (state(1), VACANT),
            (state(24), OUT_OF_ORDER),
        ],
    );
}

fn row_by_row<T: Track>(rt: &impl Abort, track: &mut T) {
    state_and_enter(rt, track);
    fail_and_mend(rt, track);
    leave_again(rt, track);
}

#[test]
fn circuits_answer_row_by_row(rt: HostRuntime) {
    row_by_row(&rt, &mut TrackCircuits::new());
}

#[test]
fn axle_counter_answers_row_by_row(rt: HostRuntime) {
    row_by_row(&rt, &mut AxleCounter::new());
}

// A circuit knows only that a train is there; the counter knows how many axles.
#[test]
fn only_the_counter_tells_trains_apart(rt: HostRuntime) {
    told(
        &rt,
        &mut AxleCounter::new(),
        &[
            (enter(5, 8), DONE),
            (leave(5, 9), WRONG_MARK),
            (leave(5, 8), DONE),
        ],
    );
    told(
        &rt,
        &mut TrackCircuits::new(),
        &[(enter(5, 8), DONE), (leave(5, 9), DONE)],
    );
}

#[test]
fn answers_have_numbers_and_values(rt: HostRuntime) {
    assert_eq!(rt; (OUT_OF_ORDER.number(), OUT_OF_ORDER.value()), (0, Some(2)));
    assert_eq!(rt; (DONE.number(), DONE.value()), (1, None));
    assert_eq!(rt; (WRONG_MARK.number(), WRONG_MARK.value()), (2, Some(24)));
}
