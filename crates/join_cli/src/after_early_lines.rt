// The output of a run whose pairs are wanted early: their lines are put as they are found, and the report after them.

ghost use Rattle.std.specs.Prelude.{◌≡◌, ◌<◌, true};
ghost use Rattle.join_rows.specs.Shelves.{last_fault};
ghost use Rattle.join_words.specs.Words.{asked, is_early};
ghost use Rattle.join_plan.specs.Plan.{IsFit};
ghost use Rattle.join_plan.specs.declared.fitting.Planned.{Planned as Planned'};
ghost use Rattle.join_cli.specs.Plan.{input_of, report_asked};
ghost use Rattle.join_cli.specs.Steps.{CarriesOut, PutsCourse, PutsText};
ghost use Rattle.join_cli.specs.Works.{IsWorkOf, IsWholeRun};

use crate::input::{input, setting};
use crate::outcome::Outcome;
use crate::run::{Course, trail_of};
use crate::texts::report;
use crate::work::Work;
use join_plan::Planned;
use join_report::put_all;
use join_rows::{Failed, Sink};
use join_runtime::{EarlyFault, Told, run_early};
use join_words::Options;
use link_trace::Run;
use std::alloc::{AllocError, Global};
use std::sync::Wait;
use std::thread::Threads;
use worker_gate::Gate;

/// Puts the report where one is asked for.
fn put_report<K: Sink>(
    alloc: Global,
    options: &Options<'_>,
    work: &Work<'_>,
    run: &Run,
    sink: &mut K,
) -> Result<(), EarlyFault>
    requires sink { K.faults sink.old < last_fault }
    requires run { IsWholeRun work.now run.now }
    ensures { PutsText K.Sink (report_asked options.now.report work.now.input.now
        work.now.setting.now run.now.journal) sink.old sink.new result }
{
    let lines = match report(alloc, options, work, run) {
        Ok(lines) => lines,
        Err(AllocError) => return Err(EarlyFault::Memory),
    };
    let put = put_all(sink, lines.as_slice());
    drop(lines);
    match put {
        Ok(()) => Ok(()),
        Err(Failed) => Err(EarlyFault::Write),
    }
}

/// Runs in threads and puts the pairs' lines after each bout, and then the report where one is
/// asked for.
fn put_found<R: Threads + Wait + Sync, G: Gate + Sync, K: Sink>(
    rt: &R,
    alloc: Global,
    options: &Options<'_>,
    work: &Work<'_>,
    gate: &G,
    sink: &mut K,
) -> Result<Course, EarlyFault>
    requires { K.faults sink.old < last_fault }
    ensures { PutsCourse K.Sink options.now.report work.now sink.old sink.new result }
{
    let Told { run, ends } = run_early(rt, alloc, work.input, work.setting, gate, sink)?;
    match trail_of(alloc, ends) {
        Ok(trail) => match put_report(alloc, options, work, &run, sink) {
            Ok(()) => Ok(Course { run, trail }),
            Err(fault) => {
                drop(run);
                drop(trail);
                Err(fault)
            }
        },
        Err(AllocError) => {
            drop(run);
            Err(EarlyFault::Memory)
        }
    }
}

/// Writes the lines of the pairs as they are found, and then the report where one is asked for.
fn put_early<R: Threads + Wait + Sync, K: Sink, G: Gate + Sync>(
    rt: &R,
    alloc: Global,
    options: &Options<'_>,
    work: &Work<'_>,
    sink: &mut K,
    gate: &G,
) -> Outcome
    requires work { IsWorkOf (asked options.now) work.now }
    requires early { is_early (asked options.now).kind ≡ true }
    requires sink { K.faults sink.old < last_fault }
    ensures { (planned : Planned') → work.now.input.now ≡ input_of options.now.seed planned
        → CarriesOut K.Sink (asked options.now) planned sink.old sink.new result }
{
    match put_found(rt, alloc, options, work, gate, sink) {
        Ok(Course { run, trail }) => Outcome::Done {
            journal: run.journal,
            trail,
        },
        Err(EarlyFault::Write) => Outcome::Write,
        Err(EarlyFault::Memory) => Outcome::Memory,
    }
}

/// Carries out a plan whose pairs are wanted early.
pub(crate) fn early_output<R: Threads + Wait + Sync, K: Sink, G: Gate + Sync>(
    rt: &R,
    alloc: Global,
    options: &Options<'_>,
    planned: Planned,
    sink: &mut K,
    gate: &G,
) -> Outcome
    requires early { is_early (asked options.now).kind ≡ true }
    requires fit { IsFit planned }
    requires sink { K.faults sink.old < last_fault }
    ensures { CarriesOut K.Sink (asked options.now) planned sink.old sink.new result }
{
    let setting = setting(options);
    let Planned {
        tables,
        ends,
        theta,
        third,
    } = planned;
    drop(ends);
    drop(third);
    match input(alloc, options.seed, tables, theta) {
        Ok(input) => {
            let work = Work {
                input: &input,
                setting: &setting,
                number: options.kind.replay(),
            };
            let outcome = put_early(rt, alloc, options, &work, sink, gate);
            gate.let_go(input);
            outcome
        }
        Err(AllocError) => Outcome::Memory,
    }
}
