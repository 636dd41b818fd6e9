// A run in threads, and a wave.

ghost use Rattle.std.specs.Prelude.{◌≡◌, ◌≤◌, ◌^◌, IfOk};
ghost use Rattle.trace_law.specs.Validity.{IsValidInput, IsValidSetting};
ghost use Rattle.trace_law.specs.Family.{first_rest, migrations};
ghost use Rattle.trace_law.specs.Runs.{IsRunOf};
ghost use Rattle.load_controller.specs.Journal.{last_epoch, last_line};
ghost use Rattle.trace_law.specs.MostEvents.{most_events};
ghost use Rattle.actor_core.specs.Players.{AgreesOnLinks, IsFinishedFamily};
ghost use Rattle.actor_core.specs.Rests.{IsRestOf, IsUpto, task_upto, upto};
ghost use Rattle.actor_core.specs.Tasks.{task_of};
ghost use Rattle.join_runtime.specs.Endings.{lists_left};
ghost use Rattle.join_runtime.specs.Runs.{TellsOf};

use crate::bouts::{Seats, bout_by};
use crate::ends::{Told, WaveTold};
use crate::kept::{Turns, pool_of, signals_of};
use crate::seat::Seat;
use crate::turns_side_by_side::work_by;
use actor_core::{Rest, Upto, WaveRun};
use kept_threads::Pool;
use std::alloc::{AllocError, Global};
use std::sync::Wait;
use std::thread;
use std::thread::Threads;
use trace_law::{Input, Setting, events_are_few, limits_suffice};
use worker_gate::Gate;

// Bout after bout of these seats by these threads, until the collector is complete.
fn wave_by<'a, R: Wait, G: Gate>(
    rt: &R,
    gate: &G,
    begun: Seats<'a>,
    pool: &mut Pool<Seat<'a>, Turns<R, G>>,
) -> Result<WaveTold, AllocError>
    ensures { IfOk result (TellsOf begun.entry) }
{
    events_are_few();
    let mut seats = begun;
    let batches = seats.batches_left();
    let mut bouts = 0u64;
    for _ in rt.forever() {
        if seats.complete() {
            break;
        }
        let threads = &mut *pool;
        bout_by(
            rt,
            &mut seats,
            gate,
            move |standing| work_by(rt, standing, threads),
        )?;
        bouts = bouts.saturating_add(1);
        gate.fed(batches.saturating_sub(seats.batches_left()), batches);
    }
    seats.finish_wave(bouts)
}

// The same in as many threads as there are workers.
fn in_threads<'a, R: Threads + Wait + Sync, G: Gate + Sync>(
    rt: &R,
    alloc: Global,
    workers: u32,
    gate: &G,
    seats: Seats<'a>,
) -> Result<WaveTold, AllocError>
    ensures { IfOk result (TellsOf seats.entry) }
{
    let signals = signals_of(alloc, workers);
    let signals = signals.as_slice();
    let turns = Turns { rt, gate };
    let turns = &turns;
    thread::scope(
        thread::scope_env(),
        rt,
        move |scope| -> Result<WaveTold, AllocError>
            ensures { IfOk result (TellsOf seats.entry) }
        {
            let mut pool = pool_of(rt, alloc, scope, signals, turns);
            let told = wave_by(rt, gate, seats, &mut pool);
            pool.end();
            told
        },
    )
}

/// Runs the seats of this input and setting, in as many threads as there are workers, bout after bout until the
/// collector is complete. `bouts` stays at 2^64 - 1 once it is there. What it promises holds if it returns.
pub fn run<'a, R: Threads + Wait + Sync, G: Gate + Sync>(
    rt: &R,
    alloc: Global,
    input: &'a Input,
    setting: &Setting,
    gate: &G,
) -> Result<Told, AllocError>
    requires input { IsValidInput input.now }
    requires setting { IsValidSetting setting.now }
    ensures family { IfOk result (λ told. IsFinishedFamily (task_of input.now setting.now)
        told.run.journal (lists_left told.ends)) }
    ensures linked { IfOk result
        (λ told. AgreesOnLinks setting.now (lists_left told.ends)) }
    ensures run { IfOk result (λ told. IsRunOf input.now setting.now
        (first_rest setting.now).line told.run.journal told.run) }
    ensures bound { IfOk result
        (λ told. told.run.bouts ≤ most_events input.now setting.now (last_epoch told.run.journal)) }
{
    limits_suffice();
    let seats = Seats::start(alloc, input, setting)?;
    let told = in_threads(rt, alloc, setting.workers, gate, seats)?;
    let WaveTold { wave, ends } = told;
    let WaveRun { run, rest } = wave;
    gate.let_go(rest);
    Ok(Told { run, ends })
}

/// Runs the seats of the wave that goes on from this rest and ends there, as [`run`] does. What it promises holds if it
/// returns.
pub fn run_wave<'a, R: Threads + Wait + Sync, G: Gate + Sync>(
    rt: &R,
    alloc: Global,
    rest: Rest,
    input: &'a Input,
    setting: &Setting,
    end: Upto,
    gate: &G,
) -> Result<WaveTold, AllocError>
    requires input { IsValidInput input.now }
    requires setting { IsValidSetting setting.now }
    requires end { IsUpto rest.line end input.now }
    requires rest { IsRestOf input.now setting.now rest }
    requires epoch { rest.line.epoch ≤ 2 ^ 31 }
    ensures family { IfOk result
        (λ told. IsFinishedFamily (task_upto end input.now setting.now rest)
        told.wave.run.journal (lists_left told.ends)) }
    ensures linked { IfOk result (λ told. AgreesOnLinks setting.now (lists_left told.ends)) }
    ensures run { IfOk result (λ told. IsRunOf (upto end input.now) setting.now rest.line
        told.wave.run.journal told.wave.run) }
    ensures rest { IfOk result (λ told. IsRestOf input.now setting.now told.wave.rest) }
    ensures line { IfOk result
        (λ told. told.wave.rest.line ≡ last_line rest.line told.wave.run.journal) }
    ensures bound { IfOk result (λ told. told.wave.run.bouts ≤ most_events (upto end input.now)
        setting.now (migrations rest.line told.wave.run.journal)) }
{
    let seats = Seats::start_at(alloc, rest, input, setting, end)?;
    in_threads(rt, alloc, setting.workers, gate, seats)
}
