// The plan: the metres and the names of the sections in use.
ghost use Rattle.std.specs.Prelude.{◌≡◌, ◌+◌, ◌≤◌, ◌&&◌, true, length, vec_capacity, sum_by};
ghost use Rattle.std.specs.List.{list_all};
ghost use Rattle.rules.specs.Calls.{legal_laying, legal_entry, legal_entries, has_name, names_differ, legal_plan};
ghost use Rattle.rules.specs.Calls.{as_laid};
ghost use Rattle.rules.specs.Lines.{blocks, bare};
ghost use Rattle.rules.specs.Signals.{metres_from, metres_of_entry, road_index};
ghost use Rattle.line.specs.Frames.{trackless, Becomes};
ghost use Rattle.line.specs.Keeping.{entry_kept};
ghost use Rattle.line.specs.Parts.{part_start};

use crate::frame::questions::Signal;
use crate::frame::{Frame, MOST_BLOCKS};
use crate::places::Road;
use rules::line::{Laying, PlanEntry, Station};

const MOST_ROADS: u32 = 4;

// The highest number that a line, a name, a train may bear.
pub(crate) const MOST_NUMBER: u32 = 9_999;

// The limits of the length of a section.
const FEWEST_METRES: u32 = 100;

const MOST_METRES: u32 = 9_999;

// The limits of the numbers that a line is laid with.
fn legal_laying(laying: Laying) -> bool
    ensures { result ≡ legal_laying laying }
{
    (1..=MOST_BLOCKS as u32).contains(&laying.blocks)
        && (1..=MOST_ROADS).contains(&laying.roads_a)
        && (1..=MOST_ROADS).contains(&laying.roads_b)
        && (1..=laying.blocks).contains(&laying.reach)
        && (1..=MOST_NUMBER).contains(&laying.number)
}

fn legal_entry(entry: &PlanEntry) -> bool
    ensures { result ≡ legal_entry entry.now }
{
    (1..=MOST_NUMBER).contains(&entry.name) && (FEWEST_METRES..=MOST_METRES).contains(&entry.metres)
}

fn legal_entries(plan: &[PlanEntry]) -> bool
    ensures { result ≡ legal_entries plan.now }
{
    plan.iter().all(legal_entry)
}

fn has_name(plan: &[PlanEntry], name: u32) -> bool
    ensures { result ≡ has_name name plan.now }
{
    plan.iter().any(|entry| entry.name == name)
}

fn names_differ(plan: &[PlanEntry]) -> bool
    ensures { result ≡ names_differ plan.now }
{
    match plan {
        [] => true,
        [entry, rest @ ..] => !has_name(rest, entry.name) && names_differ(rest),
    }
}

// Numbers within their limits, and an entry for each section in use, with its own name.
pub(crate) fn legal_to_lay(laying: Laying, plan: &[PlanEntry]) -> bool
    ensures { result ≡ (legal_laying laying && legal_plan laying plan.now) }
{
    legal_laying(laying)
        && plan.len() == (laying.blocks + laying.roads_a + laying.roads_b) as usize
        && legal_entries(plan)
        && names_differ(plan)
}

// The plan copied into memory that is there, entry by entry: what copies a whole slice into a Vec may ask for memory.
fn copy(into: &mut Vec<PlanEntry>, plan: &[PlanEntry])
    requires { length plan.now ≤ vec_capacity into.old }
    ensures items { into.new.items ≡ plan.now }
    ensures capacity { vec_capacity into.new ≡ vec_capacity into.old }
{
    into.clear();
    for entry in plan {
        into.push_reserved(*entry);
    }
}

// A loop over the plan's part, as docs/DECISIONS.md has the form of a signal's metres.
fn sum_metres(part: &[PlanEntry]) -> u32
    requires kept { list_all entry_kept part.now ≡ true }
    requires few { length part.now ≤ 24 }
    ensures { result ≡ sum_by (λ entry. entry.metres) part.now }
{
    let mut metres = 0;
    for entry in part {
        metres += entry.metres;
    }
    metres
}

impl Frame {
    pub(crate) fn lay(&mut self, laying: Laying, plan: &[PlanEntry])
        requires bare { bare (trackless self.old) ≡ true }
        requires legal { (legal_laying laying && legal_plan laying plan.now) ≡ true }
        ensures { Becomes (λ line. as_laid line laying plan.now)
            self.old self.new }
    {
        copy(&mut self.plan, plan);
        self.laying = Some(laying);
    }

    // Where the entries of so many blocks from a signal's on begin in the plan.
    fn part_start(&self, at: Signal, count: u32) -> usize
        requires { count + at.distance ≤ blocks (trackless self.now) + 1 }
        ensures { result ≡ part_start (blocks (trackless self.now)) at.station at.distance count }
    {
        match at.station {
            Station::EndA => (at.distance - 1) as usize,
            Station::EndB => (self.blocks() + 1 - at.distance - count) as usize,
        }
    }

    // The metres of so many blocks from a signal's on.
    pub(crate) fn block_metres(&self, at: Signal, count: u32) -> u32
        requires { count + at.distance ≤ blocks (trackless self.now) + 1 }
        ensures { result ≡ metres_from (trackless self.now) at.station at.distance count }
    {
        let start = self.part_start(at, count);
        let plan = self.plan.as_slice();
        sum_metres(&plan[start..start + count as usize])
    }

    fn metres_of(&self, index: u32) -> u32
        ensures { result ≡ metres_of_entry (trackless self.now) index }
    {
        self.plan
            .get(index as usize)
            .map_or(0, |entry| entry.metres)
    }

    pub(crate) fn road_metres(&self, road: Road) -> u32
        ensures { result ≡ metres_of_entry (trackless self.now)
            (road_index (trackless self.now) road.station road.number) }
    {
        let before = match road.station {
            Station::EndA => self.blocks(),
            Station::EndB => self.blocks() + self.roads(Station::EndA),
        };
        self.metres_of((before + road.number).saturating_sub(1))
    }
}
