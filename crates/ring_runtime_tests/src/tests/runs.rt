// Runs over rings.

use super::{is, setting};
use epoch_tags::Actor;
use ring_runtime::{RingRun, ring_run};
use run_inputs::{input, three_rows_a_side};
use std::alloc::{AllocError, Global};
use std::process::Abort;
use std::test::Fail;
use std::thread::Threads;
use trace_law::{Input, Setting};
use worker_gate::{Gate, NoGate, PairGate};

fn run_checked<R: Threads + Sync, G: Gate + Sync>(
    rt: &R,
    alloc: Global,
    input: &Input,
    setting: &Setting,
    gate: &G,
) -> Result<RingRun, AllocError> {
    if input.valid() && setting.valid() {
        ring_run(rt, alloc, input, setting, gate)
    } else {
        Err(AllocError)
    }
}

// The pairs as digits: each row of R and of S.
fn pairs_number(told: &RingRun) -> u64 {
    let mut number = 0u64;
    for pair in told.run.pairs.as_slice() {
        let digits = (pair.i as u64).wrapping_mul(10).wrapping_add(pair.j as u64);
        number = number.wrapping_mul(100).wrapping_add(digits);
    }
    number
}

// What is seen of an answer.
#[derive(Clone, Copy)]
struct Found {
    pairs: u64,
    bouts: u64,
    fallen: bool,
}

fn found_in(told: &RingRun) -> Found {
    Found {
        pairs: pairs_number(told),
        bouts: told.run.bouts,
        fallen: told.fallen,
    }
}

fn seen<R: Threads + Sync, G: Gate + Sync>(
    rt: &R,
    alloc: Global,
    input: &Input,
    setting: &Setting,
    gate: &G,
) -> Result<Found, AllocError> {
    let told = run_checked(rt, alloc, input, setting, gate)?;
    let found = found_in(&told);
    drop(told);
    Ok(found)
}

fn seen_of_three<R: Threads + Sync, G: Gate + Sync>(
    rt: &R,
    alloc: Global,
    setting: &Setting,
    gate: &G,
) -> Result<Found, AllocError> {
    let input = three_rows_a_side(alloc, [161, 123, 186])?;
    let found = seen(rt, alloc, &input, setting, gate);
    drop(input);
    found
}

// The three pairs of rows, in order.
const PAIRS: u64 = 10_12_21;

fn finds_the_pairs<R: Abort + Threads + Sync>(
    rt: &R,
    alloc: Global,
    workers: u32,
) -> Result<(), AllocError> {
    let seen = seen_of_three(rt, alloc, &setting(2, 2, workers), &NoGate)?;
    assert!(rt; seen.pairs == PAIRS, "with {workers} workers");
    assert!(rt; seen.bouts > 0, "bouts with {workers} workers");
    assert!(rt; !seen.fallen, "over rings with {workers} workers");
    Ok(())
}

#[test]
fn any_number_of_workers_finds_the_pairs(rt: HostRuntime) -> Result<(), Fail> {
    for workers in [1u32, 4, 16] {
        finds_the_pairs(&rt, rt.alloc(), workers)?;
    }
    Ok(())
}

#[test]
fn one_joiner_one_feeder_and_one_worker_find_the_pairs(rt: HostRuntime) -> Result<(), Fail> {
    let seen = seen_of_three(&rt, rt.alloc(), &setting(0, 1, 1), &NoGate)?;
    is(&rt, seen.pairs, PAIRS, "pairs");
    Ok(())
}

// The pairs of a run in which these two are to meet, and whether they met.
fn pairs_of_two_workers<R: Threads + Sync>(
    rt: &R,
    alloc: Global,
) -> Result<(u64, bool), AllocError> {
    let gate = PairGate::new(Actor::Joiner(0), Actor::Collector, 1 << 27);
    let seen = seen_of_three(rt, alloc, &setting(2, 1, 2), &gate);
    let met = gate.met();
    drop(gate);
    Ok((seen?.pairs, met))
}

#[test]
fn two_workers_meet(rt: HostRuntime) -> Result<(), Fail> {
    let (pairs, met) = pairs_of_two_workers(&rt, rt.alloc())?;
    is(&rt, pairs, PAIRS, "pairs");
    is(&rt, met, true, "the two met");
    Ok(())
}

// Twenty rows a side of each number from 0 to 6.
fn many_rows_a_side(alloc: Global) -> Result<Input, AllocError> {
    let mut numbers = [0; 140];
    let mut tickets_r = [0; 140];
    let mut tickets_s = [0; 140];
    for place in 0..140u8 {
        numbers[place as usize] = place % 7;
        tickets_r[place as usize] = place.wrapping_mul(37);
        tickets_s[place as usize] = place.wrapping_mul(101);
    }
    input(
        alloc,
        "r.x = s.y",
        (&numbers, &tickets_r),
        (&numbers, &tickets_s),
    )
}

fn pairs_of<R: Threads + Sync>(
    rt: &R,
    alloc: Global,
    input: &Input,
    setting: &Setting,
) -> Result<u64, AllocError> {
    let told = run_checked(rt, alloc, input, setting, &NoGate)?;
    let pairs = told.run.pairs.len();
    drop(told);
    Ok(pairs)
}

// How many pairs a run of those rows has.
fn pairs_of_many<R: Threads + Sync>(
    rt: &R,
    alloc: Global,
    setting: &Setting,
) -> Result<u64, AllocError> {
    let input = many_rows_a_side(alloc)?;
    let pairs = pairs_of(rt, alloc, &input, setting);
    drop(input);
    pairs
}

#[test]
fn sixty_four_joiners_eight_feeders_and_sixteen_workers_find_all(
    rt: HostRuntime,
) -> Result<(), Fail> {
    let pairs = pairs_of_many(&rt, rt.alloc(), &setting(6, 8, 16))?;
    assert!(rt; pairs == 2800, "twenty rows a side of each number");
    Ok(())
}
