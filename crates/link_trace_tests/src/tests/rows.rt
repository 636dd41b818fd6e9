// Small inputs through a replay.

use super::is;
use super::seeds::replayed;
use grid_map::Weights;
use link_trace::{Input, Run, Setting};
use row_tickets::Feed;
use run_inputs::input;
use std::alloc::{AllocError, Global};
use std::process::Abort;
use std::sync::Wait;
use std::test::Fail;

// These rows of R and three of S, all with this ticket, where equal numbers match.
fn equal_input(alloc: Global, numbers: &[u8], ticket: u8) -> Result<Input, AllocError> {
    let tickets = [ticket; 3];
    input(
        alloc,
        "r.x = s.y",
        (numbers, &tickets[..numbers.len().min(3)]),
        (&[20, 30, 20], &tickets),
    )
}

fn one_feeder(k: u32) -> Setting {
    Setting {
        k,
        feeders: 1,
        workers: 1,
        batch: 64,
        feed: Feed::Alternate,
        fixed: None,
        weights: Weights { r: 1, s: 1 },
    }
}

fn equal_numbers<R: Wait>(
    rt: &R,
    alloc: Global,
    numbers: &[u8],
    ticket: u8,
    k: u32,
) -> Result<Run, AllocError> {
    let input = equal_input(alloc, numbers, ticket)?;
    let run = replayed(rt, alloc, &input, &one_feeder(k), 7);
    drop(input);
    run
}

// The pairs as digits: each row of R and of S.
fn pairs_number(run: &Run) -> u64 {
    let mut number = 0u64;
    for pair in run.pairs.as_slice() {
        let digits = (pair.i as u64).wrapping_mul(10).wrapping_add(pair.j as u64);
        number = number.wrapping_mul(100).wrapping_add(digits);
    }
    number
}

fn last_shift(run: &Run) -> Option<u32> {
    run.journal.as_slice().last().map(|line| line.shift)
}

fn last_epoch(run: &Run) -> Option<u32> {
    run.journal.as_slice().last().map(|line| line.epoch)
}

#[test]
fn an_empty_side_has_no_pairs(rt: HostRuntime) -> Result<(), Fail> {
    let run = equal_numbers(&rt, rt.alloc(), &[], 0, 2)?;
    is(&rt, run.pairs.len(), 0, "pairs");
    is(&rt, last_shift(&run), Some(2), "the last grid is 1 by 4");
    drop(run);
    Ok(())
}

// The rows of R and of S that the one joiner holds.
fn only_load(run: &Run) -> Option<(u64, u64)> {
    match run.loads.as_slice() {
        [load] => Some((load.rows_r, load.rows_s)),
        _ => None,
    }
}

fn has_all_rows(rt: &impl Abort, run: &Run) {
    is(rt, pairs_number(run), 10_12_21, "pairs");
    is(rt, run.journal.len(), 3, "lines");
    is(rt, last_epoch(run), Some(0), "epoch");
    is(rt, run.bouts, 17, "events");
    is(rt, only_load(run), Some((3, 3)), "rows of one joiner");
}

#[test]
fn one_joiner_holds_all_rows(rt: HostRuntime) -> Result<(), Fail> {
    let run = equal_numbers(&rt, rt.alloc(), &[10, 20, 30], 100, 0)?;
    has_all_rows(&rt, &run);
    drop(run);
    Ok(())
}

#[test]
fn equal_tickets_meet_in_one_joiner(rt: HostRuntime) -> Result<(), Fail> {
    let run = equal_numbers(&rt, rt.alloc(), &[10, 20, 30], 0, 2)?;
    is(&rt, pairs_number(&run), 10_12_21, "pairs");
    is(&rt, run.made.as_slice(), [3, 0, 0, 0].as_slice(), "made");
    drop(run);
    Ok(())
}
