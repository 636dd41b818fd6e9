// The output of a run over rings.

ghost use Rattle.std.specs.Prelude.{◌≡◌, IfOk, true};
ghost use Rattle.join_words.specs.Words.{asked, is_over_rings};
ghost use Rattle.join_cli.specs.Steps.{IsMadeOver};
ghost use Rattle.join_cli.specs.Works.{IsWorkOf};

use crate::outcome::Outcome;
use crate::output::Joined;
use crate::texts::{journal_of, text};
use crate::work::Work;
use join_words::Options;
use ring_runtime::{RingRun, ring_run};
use std::alloc::{AllocError, Global};
use std::thread::Threads;
use worker_gate::Gate;

/// The output that the options ask for of a run over rings. It takes no handle by which it could wait.
pub(crate) fn rings_output<R: Threads + Sync, G: Gate + Sync>(
    rt: &R,
    alloc: Global,
    options: &Options<'_>,
    work: &Work<'_>,
    gate: &G,
) -> Result<Joined, AllocError>
    requires kind { is_over_rings (asked options.now).kind ≡ true }
    requires work { IsWorkOf (asked options.now) work.now }
    ensures { IfOk result (IsMadeOver (asked options.now) work.now.input.now) }
{
    let RingRun { run, ends, fallen } = ring_run(rt, alloc, work.input, work.setting, gate)?;
    match text(alloc, options, work, &run) {
        Ok(text) => {
            let journal = journal_of(run);
            let done = Outcome::DoneRings {
                journal,
                ends,
                fallen,
            };
            Ok(Joined { text, done })
        }
        Err(refused) => {
            drop(run);
            drop(ends);
            Err(refused)
        }
    }
}
