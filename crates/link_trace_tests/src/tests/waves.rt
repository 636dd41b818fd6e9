// Two waves against one run of all rows.

ghost use Rattle.std.specs.Prelude.{◌≡◌, ◌≤◌, IfOk, true};
ghost use Rattle.trace_law.specs.Validity.{IsValidInput, IsValidSetting};
ghost use Rattle.actor_core.specs.Rests.{IsRestOf, IsUpto};

use super::inputs::{eight_rows_a_side, four_joiners};
use super::is;
use super::seeds::replayed;
use link_trace::{Input, Rest, Setting, Upto, WaveRun, replay_wave};
use std::alloc::{AllocError, Global};
use std::process::Abort;
use std::sync::Wait;
use std::test::Fail;
use trace_law::limits_suffice;

// Whether a wave that goes on from this rest can end there.
fn can_end(rest: &Rest, input: &Input, end: Upto) -> bool
    ensures { result ≡ true → IsUpto rest.now.line end input.now }
{
    rest.line.rows_r <= end.rows_r
        && rest.line.rows_s <= end.rows_s
        && end.rows_r <= input.table_r.rows.len()
        && end.rows_s <= input.table_s.rows.len()
}

/// The wave that goes on from this rest and ends there, if it can.
pub(super) fn wave<R: Wait>(
    rt: &R,
    alloc: Global,
    rest: Rest,
    input: &Input,
    setting: &Setting,
    end: Upto,
    seed: u64,
) -> Result<WaveRun, AllocError>
    requires input { IsValidInput input.now }
    requires setting { IsValidSetting setting.now }
    requires rest { IsRestOf input.now setting.now rest }
    ensures { IfOk result (λ wave. IsRestOf input.now setting.now wave.rest) }
{
    if !can_end(&rest, input, end) || rest.line.epoch > 1 << 31 {
        drop(rest);
        return Err(AllocError);
    }
    replay_wave(rt, alloc, rest, input, setting, end, seed)
}

/// What a run begins with.
pub(super) fn empty_rest(
    alloc: Global,
    input: &Input,
    setting: &Setting,
) -> Result<Rest, AllocError>
    requires input { IsValidInput input.now }
    requires setting { IsValidSetting setting.now }
    ensures { IfOk result (λ rest. IsRestOf input.now setting.now rest) }
{
    limits_suffice();
    Rest::empty(alloc, setting.k, setting.fixed, &input.theta)
}

// The pairs of a wave, and what it leaves.
fn pairs_and_rest(wave: WaveRun) -> (u64, Rest)
    ensures { result.1 ≡ wave.rest }
{
    let WaveRun { run, rest } = wave;
    let pairs = run.pairs.len();
    drop(run);
    (pairs, rest)
}

/// The pairs of the first wave, which ends there, and what it leaves.
pub(super) fn first_wave<R: Wait>(
    rt: &R,
    alloc: Global,
    input: &Input,
    setting: &Setting,
    end: Upto,
    seed: u64,
) -> Result<(u64, Rest), AllocError>
    requires input { IsValidInput input.now }
    requires setting { IsValidSetting setting.now }
    ensures { IfOk result (λ first. IsRestOf input.now setting.now first.1) }
{
    let rest = empty_rest(alloc, input, setting)?;
    let first = wave(rt, alloc, rest, input, setting, end, seed)?;
    Ok(pairs_and_rest(first))
}

// How many pairs the wave of all other rows has.
fn pairs_of_others<R: Wait>(
    rt: &R,
    alloc: Global,
    rest: Rest,
    input: &Input,
    setting: &Setting,
    seed: u64,
) -> Result<u64, AllocError>
    requires input { IsValidInput input.now }
    requires setting { IsValidSetting setting.now }
    requires rest { IsRestOf input.now setting.now rest }
{
    let end = Upto {
        rows_r: input.table_r.rows.len(),
        rows_s: input.table_s.rows.len(),
    };
    let wave = wave(rt, alloc, rest, input, setting, end, seed)?;
    let pairs = wave.run.pairs.len();
    drop(wave);
    Ok(pairs)
}

// How many pairs each of two waves has, the first of which ends behind so many rows of each side.
fn pairs_of_two<R: Wait>(
    rt: &R,
    alloc: Global,
    input: &Input,
    setting: &Setting,
    first_rows: (u64, u64),
    seed: u64,
) -> Result<(u64, u64), AllocError> {
    if !input.valid() || !setting.valid() {
        return Err(AllocError);
    }
    let (rows_r, rows_s) = first_rows;
    let end = Upto { rows_r, rows_s };
    let (first, rest) = first_wave(rt, alloc, input, setting, end, seed)?;
    let second = pairs_of_others(rt, alloc, rest, input, setting, seed)?;
    Ok((first, second))
}

// The rows of both sides that the first wave has, and the pairs of the two waves.
const WAVES: [(u64, u64, u64, u64); 5] = [
    (0, 0, 0, 64),
    (4, 4, 16, 48),
    (8, 0, 0, 64),
    (3, 8, 24, 40),
    (8, 8, 64, 0),
];

// Whether two waves, the first of which has these rows, have these pairs.
fn splits<R: Abort + Wait>(
    rt: &R,
    alloc: Global,
    input: &Input,
    told: (u64, u64, u64, u64),
    seed: u64,
) -> Result<(), AllocError> {
    let (rows_r, rows_s, one, other) = told;
    let rows = (rows_r, rows_s);
    let pairs = pairs_of_two(rt, alloc, input, &four_joiners(), rows, seed)?;
    assert!(rt;
        pairs == (one, other),
        "{rows_r} and {rows_s} rows first, seed {seed}"
    );
    Ok(())
}

fn each_splits<R: Abort + Wait>(rt: &R, alloc: Global, input: &Input) -> Result<u64, AllocError> {
    let mut count = 0u64;
    for told in WAVES {
        for seed in 0..4u64 {
            splits(rt, alloc, input, told, seed)?;
            count = count.wrapping_add(1);
        }
    }
    Ok(count)
}

fn pairs_of_one<R: Wait>(rt: &R, alloc: Global, input: &Input) -> Result<u64, AllocError> {
    let whole = replayed(rt, alloc, input, &four_joiners(), 1)?;
    let pairs = whole.pairs.len();
    drop(whole);
    Ok(pairs)
}

fn one_run_and_two_waves<R: Abort + Wait>(
    rt: &R,
    alloc: Global,
    input: &Input,
) -> Result<(), AllocError> {
    is(rt, pairs_of_one(rt, alloc, input)?, 64, "pairs of one run");
    let made = each_splits(rt, alloc, input)?;
    is(rt, made, 20, "pairs of waves that were made");
    Ok(())
}

#[test]
fn two_waves_have_the_pairs_of_one_run(rt: HostRuntime) -> Result<(), Fail> {
    let input = eight_rows_a_side(rt.alloc())?;
    let held = one_run_and_two_waves(&rt, rt.alloc(), &input);
    drop(input);
    Ok(held?)
}
