// A wave of 24 rows of R behind eight rows a side. Its journal is the same in each order, but for the line where the
// feeder drains.

use super::inputs::{four_joiners, with_more_of_r};
use super::is;
use super::waves::{first_wave, wave};
use link_trace::{Input, Rest, Run, Setting, Upto, WaveRun};
use std::alloc::{AllocError, Global};
use std::process::Abort;
use std::sync::Wait;
use std::test::Fail;

// The second of two waves, the first of which ends behind eight rows a side.
fn second<R: Wait>(
    rt: &R,
    alloc: Global,
    input: &Input,
    setting: &Setting,
    seed: u64,
) -> Result<WaveRun, AllocError> {
    if !input.valid() || !setting.valid() {
        return Err(AllocError);
    }
    let end = Upto {
        rows_r: 8,
        rows_s: 8,
    };
    let (_, rest) = first_wave(rt, alloc, input, setting, end, seed)?;
    let end = Upto {
        rows_r: 32,
        rows_s: 8,
    };
    wave(rt, alloc, rest, input, setting, end, seed)
}

// A digit for each line: its shift, and its epoch.
fn steps_of(run: &Run) -> (u64, u64) {
    let mut shifts = 0u64;
    let mut epochs = 0u64;
    for line in run.journal.as_slice() {
        shifts = shifts.wrapping_mul(10).wrapping_add(line.shift as u64);
        epochs = epochs.wrapping_mul(10).wrapping_add(line.epoch as u64);
    }
    (shifts, epochs)
}

// It begins with the rows that were counted, and with the bases of the last decision.
fn begins_there(rt: &impl Abort, run: &Run) {
    if let Some(line) = run.journal.as_slice().first() {
        is(
            rt,
            (line.rows_r, line.rows_s),
            (8, 8),
            "rows counted before",
        );
        is(
            rt,
            (line.base_r, line.base_s),
            (8, 8),
            "rows at the last decision",
        );
    }
}

// At 16 rows of R the shift stays, and at 32 a step leads to shift 0: it moves each row of S, which two joiners hold.
fn has_one_step(rt: &impl Abort, run: &Run) {
    is(
        rt,
        steps_of(run),
        (1111_1100_0000, 2222_2233_3333),
        "shifts and epochs",
    );
    is(rt, run.moved.as_slice(), [16].as_slice(), "moved");
    is(rt, run.pairs.len(), 192, "pairs with a new row");
}

fn leaves(rt: &impl Abort, rest: &Rest) {
    let line = &rest.line;
    is(rt, (line.rows_r, line.rows_s), (32, 8), "rows counted");
    is(
        rt,
        (line.base_r, line.base_s),
        (32, 8),
        "rows at the last decision",
    );
    is(rt, (line.epoch, line.shift), (3, 0), "epoch and shift");
    is(rt, rest.stores.len(), 4, "stores");
}

fn is_as_worked<R: Abort + Wait>(
    rt: &R,
    alloc: Global,
    input: &Input,
    seed: u64,
) -> Result<(), AllocError> {
    let wave = second(rt, alloc, input, &four_joiners(), seed)?;
    begins_there(rt, &wave.run);
    has_one_step(rt, &wave.run);
    leaves(rt, &wave.rest);
    drop(wave);
    Ok(())
}

fn each_is_as_worked<R: Abort + Wait>(
    rt: &R,
    alloc: Global,
    input: &Input,
) -> Result<(), AllocError> {
    for seed in 0..4u64 {
        is_as_worked(rt, alloc, input, seed)?;
    }
    Ok(())
}

#[test]
fn rows_of_r_behind_eight_a_side(rt: HostRuntime) -> Result<(), Fail> {
    let input = with_more_of_r(rt.alloc())?;
    let played = each_is_as_worked(&rt, rt.alloc(), &input);
    drop(input);
    Ok(played?)
}
