// Carrying out a plan: its run, and the writing of the output.

ghost use Rattle.std.specs.Prelude.{◌≡◌, ◌<◌, is_some};
ghost use Rattle.join_rows.specs.Shelves.{last_fault};
ghost use Rattle.join_words.specs.Words.{asked, chain_of};
ghost use Rattle.join_plan.specs.Plan.{IsFit};
ghost use Rattle.join_cli.specs.Steps.{CarriesOut};

use crate::after_early_lines::early_output;
use crate::outcome::Outcome;
use crate::output::{Joined, output};
use join_plan::Planned;
use join_report::put_all;
use join_rows::{Failed, Sink};
use join_words::Options;
use std::alloc::Global;
use std::sync::Wait;
use std::thread::Threads;
use worker_gate::Gate;

/// Carries a plan out: the output is made whole and then written, or early, pair by pair. What it
/// promises holds if it returns.
pub(crate) fn conclude<R: Threads + Wait + Sync, K: Sink, G: Gate + Sync>(
    rt: &R,
    alloc: Global,
    options: &Options<'_>,
    planned: Planned,
    sink: &mut K,
    gate: &G,
) -> Outcome
    requires fit { IsFit planned }
    requires there { is_some planned.third ≡ is_some (chain_of (asked options.now).kind) }
    requires sink { K.faults sink.old < last_fault }
    ensures { CarriesOut K.Sink (asked options.now) planned sink.old sink.new result }
{
    if options.kind.is_early() {
        return early_output(rt, alloc, options, planned, sink, gate);
    }
    let Joined { text, done } = match output(rt, alloc, options, planned, gate) {
        Ok(joined) => joined,
        Err(outcome) => return outcome,
    };
    let put = put_all(sink, text.as_slice());
    gate.let_go(text);
    match put {
        Ok(()) => done,
        Err(Failed) => {
            drop(done);
            Outcome::Write
        }
    }
}
