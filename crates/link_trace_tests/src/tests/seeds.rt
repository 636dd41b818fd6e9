// The order of a replay, by a world that a test drives itself.

use super::by_hand::{deliver, finished, started};
use super::inputs::{eight_rows_a_side, four_joiners};
use link_trace::{Input, Run, Setting, Step, World, replay};
use load_controller::Journal;
use rand_core::utils::NextWord;
use rand_pcg::Lcg64Xsh32;
use std::alloc::{AllocError, Global};
use std::process::Abort;
use std::sync::Wait;
use std::test::Fail;

// Makes the event of the slot of this number, if it has one: first the feeder's beginning, then the links.
fn make(world: &mut World, number: usize) -> Result<Step, AllocError> {
    if number == 0 {
        world.begin(0)
    } else {
        deliver(world, number - 1)
    }
}

// Makes the event of the first slot that has one, from the one that the word names.
fn make_first(world: &mut World, word: usize) -> Result<u64, AllocError> {
    for i in 0..23 {
        if make(world, word.wrapping_add(i) % 23)? == Step::Took {
            return Ok(1);
        }
    }
    Ok(0)
}

// Drives a world by the words of this seed, until it is done, and counts the events.
fn drive(world: &mut World, seed: u64) -> Result<u64, AllocError> {
    let mut draws = Lcg64Xsh32::new(seed, 56);
    let mut events = 0u64;
    for _ in 0..1000 {
        if world.done() {
            return Ok(events);
        }
        let word = draws.next_word();
        events = events.wrapping_add(make_first(world, word as usize)?);
    }
    Ok(events)
}

fn driven_in(mut world: World<'_>, seed: u64) -> Result<Run, AllocError> {
    match drive(&mut world, seed) {
        Ok(events) => finished(world, events),
        Err(refused) => {
            drop(world);
            Err(refused)
        }
    }
}

// The run of a world that is driven to its end by the words of this seed.
fn driven(alloc: Global, input: &Input, setting: &Setting, seed: u64) -> Result<Run, AllocError> {
    let world = started(alloc, input, setting)?;
    driven_in(world, seed)
}

/// The replay of a valid input and setting.
pub(super) fn replayed<R: Wait>(
    rt: &R,
    alloc: Global,
    input: &Input,
    setting: &Setting,
    seed: u64,
) -> Result<Run, AllocError> {
    if !input.valid() || !setting.valid() {
        return Err(AllocError);
    }
    replay(rt, alloc, input, setting, seed)
}

// The first field in which two runs differ.
fn difference(one: &Run, other: &Run) -> &'static str {
    if one.pairs.as_slice() != other.pairs.as_slice() {
        "pairs"
    } else if one.made.as_slice() != other.made.as_slice() {
        "made"
    } else if one.loads.as_slice() != other.loads.as_slice() {
        "loads"
    } else if one.moved.as_slice() != other.moved.as_slice() {
        "moved"
    } else if one.journal.as_slice() != other.journal.as_slice() {
        "journal"
    } else if one.bouts != other.bouts {
        "bouts"
    } else {
        "none"
    }
}

// The first field in which the replay of this seed differs from a run.
fn replay_difference<R: Wait>(
    rt: &R,
    alloc: Global,
    input: &Input,
    setting: &Setting,
    seed: u64,
    wanted: &Run,
) -> Result<&'static str, AllocError> {
    let run = replayed(rt, alloc, input, setting, seed)?;
    let found = difference(&run, wanted);
    drop(run);
    Ok(found)
}

// That the replay of this seed is this run.
fn is_replayed<R: Abort + Wait>(
    rt: &R,
    alloc: Global,
    input: &Input,
    setting: &Setting,
    seed: u64,
    wanted: &Run,
) -> Result<(), AllocError> {
    let found = replay_difference(rt, alloc, input, setting, seed, wanted)?;
    assert!(rt; found == "none", "seed {seed}");
    Ok(())
}

fn has_journal(run: &Run, journal: &Journal) -> bool {
    run.journal.as_slice() == journal.as_slice()
}

// Whether the run of a world that is driven by the words of this seed has this journal. It has to be the replay of the
// seed.
fn replays_with_journal<R: Abort + Wait>(
    rt: &R,
    alloc: Global,
    input: &Input,
    setting: &Setting,
    seed: u64,
    journal: &Journal,
) -> Result<bool, AllocError> {
    let run = driven(alloc, input, setting, seed)?;
    let held = is_replayed(rt, alloc, input, setting, seed, &run);
    let same = has_journal(&run, journal);
    drop(run);
    held?;
    Ok(same)
}

// How many of the first 32 seeds have another journal than this one.
fn other_journals<R: Abort + Wait>(
    rt: &R,
    alloc: Global,
    input: &Input,
    setting: &Setting,
    journal: &Journal,
) -> Result<u64, AllocError> {
    let mut others = 0u64;
    for seed in 0..32 {
        if !replays_with_journal(rt, alloc, input, setting, seed, journal)? {
            others = others.wrapping_add(1);
        }
    }
    Ok(others)
}

// How many of them have another journal than the first.
fn later_journals<R: Abort + Wait>(
    rt: &R,
    alloc: Global,
    input: &Input,
    setting: &Setting,
) -> Result<u64, AllocError> {
    let first = driven(alloc, input, setting, 0)?;
    let others = other_journals(rt, alloc, input, setting, &first.journal);
    drop(first);
    others
}

// The same of eight rows a side.
fn later_journals_of_eight<R: Abort + Wait>(rt: &R, alloc: Global) -> Result<u64, AllocError> {
    let input = eight_rows_a_side(alloc)?;
    let others = later_journals(rt, alloc, &input, &four_joiners());
    drop(input);
    others
}

#[test]
fn a_replay_makes_the_events_in_its_order(rt: HostRuntime) -> Result<(), Fail> {
    let others = later_journals_of_eight(&rt, rt.alloc())?;
    assert!(rt; others > 0, "the journals aren't all equal");
    Ok(())
}
