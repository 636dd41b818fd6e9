mod runs;
mod turns;

use grid_map::Weights;
use ring_runtime::{RingSeats, ring_bout};
use row_tickets::Feed;
use run_inputs::three_rows_a_side;
use std::alloc::{AllocError, Global};
use std::fmt::Debug;
use std::process::Abort;
use std::test::Fail;
use std::thread::Threads;
use trace_law::{Input, Setting};
use worker_gate::NoGate;

// That these are equal: one call, where an assertion in its place is dear to prove.
fn is<T: Copy + Debug + PartialEq>(rt: &impl Abort, seen: T, wanted: T, what: &str) {
    assert!(rt; seen == wanted, "{what}");
}

// 2^k joiners.
fn setting(k: u32, feeders: u32, workers: u32) -> Setting {
    Setting {
        k,
        feeders,
        workers,
        batch: 1,
        feed: Feed::Alternate,
        fixed: None,
        weights: Weights { r: 1, s: 1 },
    }
}

fn seats<'a>(
    alloc: Global,
    input: &'a Input,
    setting: &Setting,
) -> Result<RingSeats<'a>, AllocError> {
    if input.valid() && setting.valid() {
        RingSeats::start(alloc, input, setting)
    } else {
        Err(AllocError)
    }
}

// How many bouts made or moved something, until one found all done.
fn bouts<R: Threads + Sync>(
    rt: &R,
    seats: &mut RingSeats,
    workers: u32,
) -> Result<u32, AllocError> {
    for bouts in 0..1000u32 {
        if !ring_bout(rt, seats, workers.max(1), &NoGate)? {
            return Ok(bouts);
        }
    }
    Err(AllocError)
}

// The same of new seats; whether one bout more finds all done, too.
fn bouts_and_more<R: Threads + Sync>(
    rt: &R,
    seats: &mut RingSeats,
    workers: u32,
) -> Result<(u32, bool), AllocError> {
    let count = bouts(rt, seats, workers)?;
    let more = ring_bout(rt, seats, workers.max(1), &NoGate)?;
    Ok((count, more))
}

fn bouts_of<R: Threads + Sync>(
    rt: &R,
    alloc: Global,
    input: &Input,
    workers: u32,
) -> Result<(u32, bool), AllocError> {
    let mut seats = seats(alloc, input, &setting(2, 2, workers))?;
    let bouts = bouts_and_more(rt, &mut seats, workers);
    drop(seats);
    bouts
}

// The same of three rows a side.
fn bouts_of_three_rows<R: Threads + Sync>(
    rt: &R,
    alloc: Global,
    workers: u32,
) -> Result<(u32, bool), AllocError> {
    let input = three_rows_a_side(alloc, [161, 123, 186])?;
    let bouts = bouts_of(rt, alloc, &input, workers);
    drop(input);
    bouts
}

#[test]
fn bouts_end_once_all_is_done(rt: HostRuntime) -> Result<(), Fail> {
    for workers in [1u32, 4, 16] {
        let (count, more) = bouts_of_three_rows(&rt, rt.alloc(), workers)?;
        assert!(rt; count > 0, "some bouts");
        assert!(rt; !more, "nothing more");
    }
    Ok(())
}
