// A train's passage from A to B, told to both kinds of track, with what each lamp set shows behind it.
#![tactic(auto)]

ghost use Rattle.std.specs.Prelude.{◌≡◌};
ghost use Rattle.rules.specs.Detection.{state_answer};
ghost use Rattle.tour.specs.Drawing.{symbol_of, drawing};

mod bench;
mod passage;
mod signal;

use bench::Bench;
use passage::PASSAGE;
use rules::detection::{SectionState, TrackAnswer, TrackCall};
use signal::{BLOCKS, aspects, metres_ahead, vacant_ahead};
use track::Track;
use track::axles::AxleCounter;
use track::circuits::TrackCircuits;

fn symbol(state: SectionState) -> &'static str
    ensures { result.now ≡ symbol_of state }
{
    match state {
        SectionState::Vacant => "....",
        SectionState::Occupied => "####",
        SectionState::OutOfOrder => "!!!!",
    }
}

fn drawn<T: Track>(track: &T, section: u32) -> &'static str
    ensures { result.now ≡ drawing (state_answer T.mark (T.cells track.now) section) }
{
    match track.state(section) {
        Ok(state) => symbol(state),
        Err(_) => "    ",
    }
}

// The stretch as one kind of track sees it, and what it answered.
fn draw<T: Track>(
    rt: &HostRuntime,
    kind: &str,
    track: &T,
    answer: TrackAnswer,
) -> anyhow::Result<()> {
    let a = drawn(track, passage::ROAD_A);
    let one = drawn(track, 1);
    let two = drawn(track, 2);
    let three = drawn(track, 3);
    let b = drawn(track, passage::ROAD_B);
    println!(rt; "      {kind}  A {a} | {one} {two} {three} | {b} B   {answer}")?;
    Ok(())
}

// What the signal before block 1 has ahead of it, and what each kind of lamps shows there.
fn show_signal<T: Track>(rt: &HostRuntime, track: &T) -> anyhow::Result<()> {
    let vacant = vacant_ahead(track, BLOCKS);
    let metres = metres_ahead(vacant);
    let [two, three, four, five, cab] = aspects(vacant, metres);
    println!(rt; "      signal before block 1: {vacant} vacant ahead, {metres} m")?;
    println!(rt; "      lamps: two {two}, three {three}, four {four}, five {five}; cab {cab}")?;
    Ok(())
}

fn take_step(rt: &HostRuntime, bench: &mut Bench, call: TrackCall) -> anyhow::Result<()> {
    let answers = bench.tell(call);
    draw(rt, "track circuits", &bench.circuits, answers.circuits)?;
    draw(rt, "axle counter  ", &bench.counter, answers.counter)?;
    show_signal(rt, &bench.circuits)
}

fn tour(rt: &HostRuntime) -> anyhow::Result<()> {
    println!(rt;
        "Train 101 runs from A over blocks 1 to 3 to B. Both kinds of track are told the same."
    )?;
    println!(rt; "Drawn:  .... vacant   #### occupied   !!!! out of order")?;
    let mut bench = Bench {
        circuits: TrackCircuits::new(),
        counter: AxleCounter::new(),
    };
    for (number, step) in (1u32..).zip(PASSAGE) {
        let note = step.note;
        println!(rt; "{number:>3}. {note}")?;
        take_step(rt, &mut bench, step.call)?;
    }
    Ok(())
}

fn main(rt: HostRuntime) -> anyhow::Result<()> {
    tour(&rt)
}
