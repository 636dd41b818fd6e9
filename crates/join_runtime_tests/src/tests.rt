mod early;
mod turns;
mod waves;

use epoch_tags::Actor;
use grid_map::Weights;
use join_runtime::{Told, run};
use row_tickets::Feed;
use run_inputs::three_rows_a_side;
use std::alloc::{AllocError, Global};
use std::fmt::Debug;
use std::process::Abort;
use std::sync::Wait;
use std::test::Fail;
use std::thread::Threads;
use trace_law::{Input, Setting};
use worker_gate::{Gate, NoGate, PairGate};

// That these are equal: one call, where an assertion in its place is dear to prove.
fn is<T: Copy + Debug + PartialEq>(rt: &impl Abort, seen: T, wanted: T, what: &str) {
    assert!(rt; seen == wanted, "{what}");
}

// Four joiners.
fn setting(feeders: u32, workers: u32) -> Setting {
    Setting {
        k: 2,
        feeders,
        workers,
        batch: 1,
        feed: Feed::Alternate,
        fixed: None,
        weights: Weights { r: 1, s: 1 },
    }
}

fn run_checked<R: Threads + Wait + Sync, G: Gate + Sync>(
    rt: &R,
    alloc: Global,
    input: &Input,
    setting: &Setting,
    gate: &G,
) -> Result<Told, AllocError> {
    if input.valid() && setting.valid() {
        run(rt, alloc, input, setting, gate)
    } else {
        Err(AllocError)
    }
}

// The pairs as digits: each row of R and of S.
fn pairs_number(told: &Told) -> u64 {
    let mut number = 0u64;
    for pair in told.run.pairs.as_slice() {
        let digits = (pair.i as u64).wrapping_mul(10).wrapping_add(pair.j as u64);
        number = number.wrapping_mul(100).wrapping_add(digits);
    }
    number
}

fn made_by_joiner_0(told: &Told) -> Option<u64> {
    told.run.made.as_slice().first().copied()
}

// What is seen of an answer.
#[derive(Clone, Copy)]
struct Found {
    pairs: u64,
    bouts: u64,
    made: Option<u64>,
}

fn found_in(told: &Told) -> Found {
    Found {
        pairs: pairs_number(told),
        bouts: told.run.bouts,
        made: made_by_joiner_0(told),
    }
}

fn seen<R: Threads + Wait + Sync, G: Gate + Sync>(
    rt: &R,
    alloc: Global,
    input: &Input,
    setting: &Setting,
    gate: &G,
) -> Result<Found, AllocError> {
    let told = run_checked(rt, alloc, input, setting, gate)?;
    let found = found_in(&told);
    drop(told);
    Ok(found)
}

// The same of three rows a side with these tickets.
fn seen_of_three<R: Threads + Wait + Sync, G: Gate + Sync>(
    rt: &R,
    alloc: Global,
    tickets: [u8; 3],
    setting: &Setting,
    gate: &G,
) -> Result<Found, AllocError> {
    let input = three_rows_a_side(alloc, tickets)?;
    let found = seen(rt, alloc, &input, setting, gate);
    drop(input);
    found
}

// The three pairs of rows, in order.
const PAIRS: u64 = 10_12_21;

fn finds_the_pairs<R: Abort + Threads + Wait + Sync>(
    rt: &R,
    alloc: Global,
    workers: u32,
) -> Result<(), AllocError> {
    let tickets = [161, 123, 186];
    let seen = seen_of_three(rt, alloc, tickets, &setting(2, workers), &NoGate)?;
    assert!(rt; seen.pairs == PAIRS, "with {workers} workers");
    assert!(rt; seen.bouts > 0, "bouts with {workers} workers");
    Ok(())
}

#[test]
fn any_number_of_workers_finds_the_pairs(rt: HostRuntime) -> Result<(), Fail> {
    for workers in [1u32, 4, 16] {
        finds_the_pairs(&rt, rt.alloc(), workers)?;
    }
    Ok(())
}

#[test]
fn where_all_tickets_are_0_one_joiner_makes_all(rt: HostRuntime) -> Result<(), Fail> {
    let seen = seen_of_three(&rt, rt.alloc(), [0, 0, 0], &setting(1, 2), &NoGate)?;
    is(&rt, seen.pairs, PAIRS, "pairs");
    is(&rt, seen.made, Some(3), "made by joiner 0");
    Ok(())
}

// The pairs of a run in which these two are to meet, and whether they met.
fn pairs_of_two_workers<R: Threads + Wait + Sync>(
    rt: &R,
    alloc: Global,
    a: Actor,
    b: Actor,
) -> Result<(u64, bool), AllocError> {
    let gate = PairGate::new(a, b, 1 << 27);
    let seen = seen_of_three(rt, alloc, [161, 123, 186], &setting(1, 2), &gate);
    let met = gate.met();
    drop(gate);
    Ok((seen?.pairs, met))
}

fn two_meet<R: Abort + Threads + Wait + Sync>(
    rt: &R,
    alloc: Global,
    a: Actor,
    b: Actor,
) -> Result<(), AllocError> {
    let (pairs, met) = pairs_of_two_workers(rt, alloc, a, b)?;
    is(rt, pairs, PAIRS, "pairs");
    is(rt, met, true, "the two met");
    Ok(())
}

#[test]
fn two_workers_meet(rt: HostRuntime) -> Result<(), Fail> {
    two_meet(&rt, rt.alloc(), Actor::Joiner(0), Actor::Collector)?;
    two_meet(&rt, rt.alloc(), Actor::Feeder(0), Actor::Controller)?;
    Ok(())
}
