// Waves in threads.

ghost use Rattle.std.specs.Prelude.{◌≡◌, ◌≤◌, IfOk, true};
ghost use Rattle.trace_law.specs.Validity.{IsValidInput, IsValidSetting};
ghost use Rattle.actor_core.specs.Rests.{IsRestOf, IsUpto};

use super::is;
use epoch_tags::Pair;
use grid_map::Weights;
use join_runtime::{Rest, Upto, WaveRun, WaveTold, run_wave};
use row_tickets::Feed;
use run_inputs::input;
use std::alloc::{AllocError, Global};
use std::process::Abort;
use std::sync::Wait;
use std::test::Fail;
use std::thread::Threads;
use trace_law::{Input, Run, Setting, limits_suffice};
use worker_gate::NoGate;

// Rows of so many numbers, which are their tickets too; each pair of them matches.
fn numbered(alloc: Global, of_r: &[u8], of_s: &[u8]) -> Result<Input, AllocError> {
    input(alloc, "1 = 1", (of_r, of_r), (of_s, of_s))
}

// Four joiners and one feeder, in batches of four.
fn four_joiners(workers: u32) -> Setting {
    Setting {
        k: 2,
        feeders: 1,
        workers,
        batch: 4,
        feed: Feed::RFirst,
        fixed: None,
        weights: Weights { r: 1, s: 1 },
    }
}

// Whether a wave that goes on from this rest can end there.
fn can_end(rest: &Rest, input: &Input, end: Upto) -> bool
    ensures { result ≡ true → IsUpto rest.now.line end input.now }
{
    rest.line.rows_r <= end.rows_r
        && rest.line.rows_s <= end.rows_s
        && end.rows_r <= input.table_r.rows.len()
        && end.rows_s <= input.table_s.rows.len()
}

// The wave that goes on from this rest and ends there, if it can.
fn wave<R: Threads + Wait + Sync>(
    rt: &R,
    alloc: Global,
    rest: Rest,
    input: &Input,
    setting: &Setting,
    end: Upto,
) -> Result<WaveTold, AllocError>
    requires input { IsValidInput input.now }
    requires setting { IsValidSetting setting.now }
    requires rest { IsRestOf input.now setting.now rest }
    ensures { IfOk result (λ told. IsRestOf input.now setting.now told.wave.rest) }
{
    if !can_end(&rest, input, end) || rest.line.epoch > 1 << 31 {
        drop(rest);
        return Err(AllocError);
    }
    run_wave(rt, alloc, rest, input, setting, end, &NoGate)
}

// What a run begins with.
fn empty_rest(alloc: Global, input: &Input, setting: &Setting) -> Result<Rest, AllocError>
    requires input { IsValidInput input.now }
    requires setting { IsValidSetting setting.now }
    ensures { IfOk result (λ rest. IsRestOf input.now setting.now rest) }
{
    limits_suffice();
    Rest::empty(alloc, setting.k, setting.fixed, &input.theta)
}

// What a wave leaves for the next.
fn rest_of(told: WaveTold) -> Rest
    ensures { result ≡ told.wave.rest }
{
    let WaveTold { wave, ends } = told;
    let WaveRun { run, rest } = wave;
    drop(ends);
    drop(run);
    rest
}

// What the first wave leaves, which ends there.
fn first_rest<R: Threads + Wait + Sync>(
    rt: &R,
    alloc: Global,
    input: &Input,
    setting: &Setting,
    end: Upto,
) -> Result<Rest, AllocError>
    requires input { IsValidInput input.now }
    requires setting { IsValidSetting setting.now }
    ensures { IfOk result (λ rest. IsRestOf input.now setting.now rest) }
{
    let rest = empty_rest(alloc, input, setting)?;
    let first = wave(rt, alloc, rest, input, setting, end)?;
    Ok(rest_of(first))
}

// The second of two waves, the first of which ends behind so many rows of each side.
fn second<R: Threads + Wait + Sync>(
    rt: &R,
    alloc: Global,
    input: &Input,
    setting: &Setting,
    rows: u64,
) -> Result<WaveTold, AllocError> {
    if !input.valid() || !setting.valid() {
        return Err(AllocError);
    }
    let end = Upto {
        rows_r: rows,
        rows_s: rows,
    };
    let rest = first_rest(rt, alloc, input, setting, end)?;
    let end = Upto {
        rows_r: input.table_r.rows.len(),
        rows_s: input.table_s.rows.len(),
    };
    wave(rt, alloc, rest, input, setting, end)
}

// Whether a pair has a row that is new behind so many rows of each side.
fn has_new(pair: &Pair, rows: u64) -> bool {
    pair.i as u64 >= rows || pair.j as u64 >= rows
}

// How many pairs of a run have a new row, where each is behind the one before it.
fn new_pairs(run: &Run, rows: u64) -> u64 {
    let mut count = 0u64;
    let mut least = 0u64;
    for pair in run.pairs.as_slice() {
        let place = (pair.i as u64)
            .wrapping_mul(1000)
            .wrapping_add(pair.j as u64);
        if has_new(pair, rows) && place >= least {
            count = count.wrapping_add(1);
        }
        least = place.wrapping_add(1);
    }
    count
}

// It begins with the rows that were counted, and with the bases of the last decision.
fn begins_there(rt: &impl Abort, run: &Run) {
    if let Some(line) = run.journal.as_slice().first() {
        is(
            rt,
            (line.rows_r, line.rows_s),
            (8, 8),
            "rows counted before",
        );
        is(
            rt,
            (line.base_r, line.base_s),
            (8, 8),
            "rows at the last decision",
        );
        is(
            rt,
            (line.epoch, line.shift),
            (2, 1),
            "epoch and shift before",
        );
    }
}

fn has_one_step(rt: &impl Abort, run: &Run) {
    is(rt, run.moved.as_slice(), [16].as_slice(), "moved");
    is(rt, new_pairs(run, 8), 192, "pairs with a new row");
    is(rt, run.pairs.len(), 192, "pairs");
}

fn leaves(rt: &impl Abort, rest: &Rest) {
    let line = &rest.line;
    is(rt, (line.rows_r, line.rows_s), (32, 8), "rows counted");
    is(
        rt,
        (line.base_r, line.base_s),
        (32, 8),
        "rows at the last decision",
    );
    is(rt, (line.epoch, line.shift), (3, 0), "epoch and shift");
    is(rt, rest.stores.len(), 4, "stores");
}

// Of 24 rows of R behind eight a side: at 16 rows of R the shift stays, and at 32 a step leads to shift 0. It moves
// each row of S, which two joiners hold.
fn is_as_worked<R: Abort + Threads + Wait + Sync>(
    rt: &R,
    alloc: Global,
    input: &Input,
    workers: u32,
) -> Result<(), AllocError> {
    let told = second(rt, alloc, input, &four_joiners(workers), 8)?;
    begins_there(rt, &told.wave.run);
    has_one_step(rt, &told.wave.run);
    leaves(rt, &told.wave.rest);
    drop(told);
    Ok(())
}

fn each_is_as_worked<R: Abort + Threads + Wait + Sync>(
    rt: &R,
    alloc: Global,
    input: &Input,
) -> Result<(), AllocError> {
    for workers in [1u32, 4] {
        is_as_worked(rt, alloc, input, workers)?;
    }
    Ok(())
}

#[test]
fn rows_of_r_behind_eight_a_side(rt: HostRuntime) -> Result<(), Fail> {
    let input = numbered(rt.alloc(), b"01234567abcdefghijklmnopqrstuvwx", b"01234567")?;
    let played = each_is_as_worked(&rt, rt.alloc(), &input);
    drop(input);
    Ok(played?)
}

// The pairs of the second wave with a new row, and all of them, where the first has so many rows of each side.
fn second_pairs<R: Threads + Wait + Sync>(
    rt: &R,
    alloc: Global,
    input: &Input,
    rows: u64,
) -> Result<(u64, u64), AllocError> {
    let told = second(rt, alloc, input, &four_joiners(4), rows)?;
    let pairs = (new_pairs(&told.wave.run, rows), told.wave.run.pairs.len());
    drop(told);
    Ok(pairs)
}

// The rows of each side in the first wave, and the pairs of the second.
const WAVES: [(u64, u64); 4] = [(0, 64), (1, 63), (4, 48), (8, 0)];

fn each_has_new_pairs<R: Abort + Threads + Wait + Sync>(
    rt: &R,
    alloc: Global,
    input: &Input,
) -> Result<(), AllocError> {
    for (rows, wanted) in WAVES {
        let pairs = second_pairs(rt, alloc, input, rows)?;
        assert!(rt;
            pairs == (wanted, wanted),
            "new pairs, and pairs, behind {rows}"
        );
    }
    Ok(())
}

#[test]
fn a_second_wave_has_the_pairs_with_a_new_row(rt: HostRuntime) -> Result<(), Fail> {
    let input = numbered(rt.alloc(), b"01234567", b"76543210")?;
    let held = each_has_new_pairs(&rt, rt.alloc(), &input);
    drop(input);
    Ok(held?)
}
