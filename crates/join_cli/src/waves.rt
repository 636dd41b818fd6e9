// The waves of a run, one after the other.

ghost use Rattle.std.specs.Prelude.{◌≡◌, ◌++◌, IfOk, None, Some};
ghost use Rattle.join_cli.specs.WaveSteps.{AreAllWaves, AreFewWaves, AreWavesBehind, MayGoThrough};
ghost use Rattle.join_cli.specs.WaveSteps.{MayGoTo, IsWaveBehind, IsWaveFrom};
ghost use Rattle.join_cli.specs.WaveTexts.{with_wave};
ghost use Rattle.join_cli.specs.Waves.{upto_of};
ghost use Rattle.join_cli.specs.Works.{view_of};

use crate::in_one::{no_waves, run_of_both, trail_of_both};
use crate::run::trail_of;
use crate::work::Work;
use join_plan::WaveEnd;
use join_runtime::{Trail, WaveTold, run_wave};
use link_trace::{Rest, Run, Upto, WaveRun, replay_wave};
use std::alloc::{AllocError, Global};
use std::sync::Wait;
use std::thread::Threads;
use worker_gate::Gate;

/// Some waves in one: what they answer, what their seats left, and what the last of them leaves for the next.
#[derive(Drop)]
pub(crate) struct Waved {
    pub(crate) run: Run,
    pub(crate) trail: Trail,
    pub(crate) rest: Rest,
}

/// A replay of the work's wave that goes on from this rest, with this number.
fn replayed<R: Wait>(
    rt: &R,
    alloc: Global,
    work: &Work<'_>,
    rest: Rest,
    end: Upto,
    seed: u64,
) -> Result<Waved, AllocError>
    requires { MayGoTo work.now rest end }
    ensures { IfOk result (IsWaveFrom (Some seed) work.now rest end) }
{
    let WaveRun { run, rest } = replay_wave(rt, alloc, rest, work.input, work.setting, end, seed)?;
    let trail = Trail::new(alloc);
    Ok(Waved { run, trail, rest })
}

/// A run of that wave in threads.
fn threaded<R: Threads + Wait + Sync, G: Gate + Sync>(
    rt: &R,
    alloc: Global,
    work: &Work<'_>,
    rest: Rest,
    end: Upto,
    gate: &G,
) -> Result<Waved, AllocError>
    requires { MayGoTo work.now rest end }
    ensures { IfOk result (IsWaveFrom None work.now rest end) }
{
    let WaveTold { wave, ends } = run_wave(rt, alloc, rest, work.input, work.setting, end, gate)?;
    let WaveRun { run, rest } = wave;
    match trail_of(alloc, ends) {
        Ok(trail) => Ok(Waved { run, trail, rest }),
        Err(refused) => {
            drop(run);
            drop(rest);
            Err(refused)
        }
    }
}

/// The wave that goes on from this rest: in threads, or as a replay where the work has a number of one.
fn one_wave<R: Threads + Wait + Sync, G: Gate + Sync>(
    rt: &R,
    alloc: Global,
    work: &Work<'_>,
    rest: Rest,
    end: Upto,
    gate: &G,
) -> Result<Waved, AllocError>
    requires { MayGoTo work.now rest end }
    ensures { IfOk result (IsWaveFrom work.now.number work.now rest end) }
{
    match work.number {
        Some(seed) => replayed(rt, alloc, work, rest, end, seed),
        None => threaded(rt, alloc, work, rest, end, gate),
    }
}

/// Some waves, of which these are the run and the trail, and the next in one.
fn waves_of_both(alloc: Global, run: Run, trail: Trail, next: Waved) -> Result<Waved, AllocError>
    ensures { IfOk result (λ both. (both.run ≡ with_wave run next.run)
        × (both.trail ≡ trail ++ next.trail) × (both.rest ≡ next.rest)) }
{
    let Waved {
        run: next_run,
        trail: next_trail,
        rest,
    } = next;
    match run_of_both(alloc, run, next_run) {
        Ok(run) => match trail_of_both(trail, next_trail) {
            Ok(trail) => Ok(Waved { run, trail, rest }),
            Err(refused) => {
                drop(run);
                drop(rest);
                Err(refused)
            }
        },
        Err(refused) => {
            drop(trail);
            drop(next_trail);
            drop(rest);
            Err(refused)
        }
    }
}

/// These waves and the next, which goes on from what they left.
fn next_wave<R: Threads + Wait + Sync, G: Gate + Sync>(
    rt: &R,
    alloc: Global,
    work: &Work<'_>,
    before: Waved,
    end: &WaveEnd,
    gate: &G,
) -> Result<Waved, AllocError>
    requires { MayGoTo work.now before.rest (upto_of end.now) }
    ensures { IfOk result (IsWaveBehind (view_of work.now) before end.now) }
{
    let Waved { run, trail, rest } = before;
    let end = Upto {
        rows_r: end.rows_r,
        rows_s: end.rows_s,
    };
    match one_wave(rt, alloc, work, rest, end, gate) {
        Ok(next) => waves_of_both(alloc, run, trail, next),
        Err(refused) => {
            drop(run);
            drop(trail);
            Err(refused)
        }
    }
}

/// These waves and those behind them up to these ends, each of which goes on from what the one before left.
pub(crate) fn through<R: Threads + Wait + Sync, G: Gate + Sync>(
    rt: &R,
    alloc: Global,
    work: &Work<'_>,
    before: Waved,
    ends: &[WaveEnd],
    gate: &G,
) -> Result<Waved, AllocError>
    requires { MayGoThrough work.now before.rest ends.now }
    ensures { IfOk result (AreWavesBehind (view_of work.now) before ends.now) }
{
    let [end, ends @ ..] = ends else {
        return Ok(before);
    };
    let after = next_wave(rt, alloc, work, before, end, gate)?;
    through(rt, alloc, work, after, ends, gate)
}

/// The waves up to these ends, the first of which begins with no rows.
pub(crate) fn all_waves<R: Threads + Wait + Sync, G: Gate + Sync>(
    rt: &R,
    alloc: Global,
    work: &Work<'_>,
    ends: &[WaveEnd],
    gate: &G,
) -> Result<Waved, AllocError>
    requires { AreFewWaves work.now.input.now ends.now }
    ensures { IfOk result (λ all. AreAllWaves (view_of work.now) ends.now all.run all.trail) }
{
    let rest = Rest::empty(alloc, work.setting.k, work.setting.fixed, &work.input.theta)?;
    let run = no_waves(alloc, work.setting)?;
    let none = Waved {
        run,
        trail: Trail::new(alloc),
        rest,
    };
    through(rt, alloc, work, none, ends, gate)
}
