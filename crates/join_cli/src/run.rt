// The output of a run in one wave.

ghost use Rattle.std.specs.Prelude.{◌≡◌, [], ◌∷◌, IfOk, None, Some};
ghost use Rattle.join_words.specs.Words.{asked};
ghost use Rattle.join_cli.specs.Kinds.{IsOneWave};
ghost use Rattle.join_cli.specs.Steps.{IsCarriedOut, IsMadeOver};
ghost use Rattle.join_cli.specs.Works.{IsWorkOf};

use crate::outcome::Outcome;
use crate::output::Joined;
use crate::texts::{journal_of, text};
use crate::work::Work;
use join_runtime::{Ends, Told, Trail, run};
use join_words::Options;
use link_trace::{Run, replay};
use std::alloc::{AllocError, Global};
use std::sync::Wait;
use std::thread::Threads;
use worker_gate::Gate;

/// A run, and what its seats left.
#[derive(Drop)]
pub(crate) struct Course {
    pub(crate) run: Run,
    pub(crate) trail: Trail,
}

/// A replay with this number.
fn replayed<R: Wait>(
    rt: &R,
    alloc: Global,
    work: &Work<'_>,
    seed: u64,
) -> Result<Course, AllocError>
    ensures { IfOk result (IsCarriedOut (Some seed) work.now) }
{
    let run = replay(rt, alloc, work.input, work.setting, seed)?;
    Ok(Course {
        run,
        trail: Trail::new(alloc),
    })
}

/// A trail of these ends alone.
pub(crate) fn trail_of(alloc: Global, ends: Ends) -> Result<Trail, AllocError>
    ensures { IfOk result (λ trail. trail ≡ ends ∷ []) }
{
    let mut trail = Trail::new(alloc);
    match trail.push(ends) {
        Ok(()) => Ok(trail),
        Err(refused) => {
            drop(trail);
            Err(refused)
        }
    }
}

/// A run in threads.
fn threaded<R: Threads + Wait + Sync, G: Gate + Sync>(
    rt: &R,
    alloc: Global,
    work: &Work<'_>,
    gate: &G,
) -> Result<Course, AllocError>
    ensures { IfOk result (IsCarriedOut None work.now) }
{
    let Told { run, ends } = run(rt, alloc, work.input, work.setting, gate)?;
    match trail_of(alloc, ends) {
        Ok(trail) => Ok(Course { run, trail }),
        Err(refused) => {
            drop(run);
            Err(refused)
        }
    }
}

/// The work's run: in threads, or as a replay where it has a number of one.
fn carry_out<R: Threads + Wait + Sync, G: Gate + Sync>(
    rt: &R,
    alloc: Global,
    work: &Work<'_>,
    gate: &G,
) -> Result<Course, AllocError>
    ensures { IfOk result (IsCarriedOut work.now.number work.now) }
{
    match work.number {
        Some(seed) => replayed(rt, alloc, work, seed),
        None => threaded(rt, alloc, work, gate),
    }
}

/// The output that the options ask for of a run in one wave.
pub(crate) fn run_output<R: Threads + Wait + Sync, G: Gate + Sync>(
    rt: &R,
    alloc: Global,
    options: &Options<'_>,
    work: &Work<'_>,
    gate: &G,
) -> Result<Joined, AllocError>
    requires kind { IsOneWave options.now.kind }
    requires work { IsWorkOf (asked options.now) work.now }
    ensures { IfOk result (IsMadeOver (asked options.now) work.now.input.now) }
{
    let Course { run, trail } = carry_out(rt, alloc, work, gate)?;
    match text(alloc, options, work, &run) {
        Ok(text) => {
            let journal = journal_of(run);
            let done = Outcome::Done { journal, trail };
            Ok(Joined { text, done })
        }
        Err(refused) => {
            drop(run);
            drop(trail);
            Err(refused)
        }
    }
}
