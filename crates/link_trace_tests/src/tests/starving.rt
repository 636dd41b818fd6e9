// Runs in which one actor is served last.

use super::by_hand::actor;
use super::inputs::{eight_rows_a_side, four_joiners};
use super::is;
use super::seeds::replayed;
use link_trace::{Input, Run, Setting, replay_starving};
use run_inputs::three_rows_a_side;
use std::alloc::{AllocError, Global};
use std::process::Abort;
use std::sync::Wait;
use std::test::Fail;

fn starving(
    alloc: Global,
    input: &Input,
    setting: &Setting,
    letter: u8,
) -> Result<Run, AllocError> {
    if !input.valid() || !setting.valid() {
        return Err(AllocError);
    }
    replay_starving(alloc, input, setting, actor(letter))
}

// How many pairs are found where the actor of this letter is served last.
fn pairs_of_starving(
    alloc: Global,
    input: &Input,
    setting: &Setting,
    letter: u8,
) -> Result<u64, AllocError> {
    let run = starving(alloc, input, setting, letter)?;
    let pairs = run.pairs.len();
    drop(run);
    Ok(pairs)
}

fn finds_all_of(rt: &impl Abort, alloc: Global, input: &Input) -> Result<(), AllocError> {
    let setting = four_joiners();
    for letter in b"f0123co" {
        let pairs = pairs_of_starving(alloc, input, &setting, *letter)?;
        is(rt, pairs, 64, "pairs");
    }
    Ok(())
}

#[test]
fn each_actor_is_served_last(rt: HostRuntime) -> Result<(), Fail> {
    let input = eight_rows_a_side(rt.alloc())?;
    let found = finds_all_of(&rt, rt.alloc(), &input);
    drop(input);
    Ok(found?)
}

fn one_joiner() -> Setting {
    let mut setting = four_joiners();
    setting.k = 0;
    setting.batch = 64;
    setting
}

// How many events and lines a run has.
fn size_of(run: &Run) -> (u64, u64) {
    (run.bouts, run.journal.len())
}

// The events and lines of the replay of this seed.
fn size_of_replay<R: Wait>(
    rt: &R,
    alloc: Global,
    input: &Input,
    seed: u64,
) -> Result<(u64, u64), AllocError> {
    let run = replayed(rt, alloc, input, &one_joiner(), seed)?;
    let size = size_of(&run);
    drop(run);
    Ok(size)
}

// The same where the actor of this letter is served last.
fn size_of_starving(alloc: Global, input: &Input, letter: u8) -> Result<(u64, u64), AllocError> {
    let run = starving(alloc, input, &one_joiner(), letter)?;
    let size = size_of(&run);
    drop(run);
    Ok(size)
}

fn replays_have_17_events<R: Abort + Wait>(
    rt: &R,
    alloc: Global,
    input: &Input,
) -> Result<(), AllocError> {
    for seed in 0..32 {
        let size = size_of_replay(rt, alloc, input, seed)?;
        assert!(rt; size == (17, 3), "seed {seed}");
    }
    Ok(())
}

fn starving_has_17_events(rt: &impl Abort, alloc: Global, input: &Input) -> Result<(), AllocError> {
    for letter in b"f0co" {
        let size = size_of_starving(alloc, input, *letter)?;
        is(rt, size, (17, 3), "events and lines");
    }
    Ok(())
}

#[test]
fn one_joiner_has_17_events_in_each_replay(rt: HostRuntime) -> Result<(), Fail> {
    let input = three_rows_a_side(rt.alloc(), [100; 3])?;
    let held = replays_have_17_events(&rt, rt.alloc(), &input);
    drop(input);
    Ok(held?)
}

#[test]
fn one_joiner_has_17_events_whoever_is_served_last(rt: HostRuntime) -> Result<(), Fail> {
    let input = three_rows_a_side(rt.alloc(), [100; 3])?;
    let held = starving_has_17_events(&rt, rt.alloc(), &input);
    drop(input);
    Ok(held?)
}
