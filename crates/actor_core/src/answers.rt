// What a run answers.

ghost use Rattle.std.specs.Prelude.{ℕ, ◌≡◌, IfOk, true};
ghost use Rattle.pair_collector.specs.Law.{CollectorLists};
ghost use Rattle.pair_collector.specs.Standing.{is_complete, StandsFor as CollectorStands};
ghost use Rattle.actor_core.specs.Endings.{IsAnswerOf};

use load_controller::{Controller, Journal};
use pair_collector::Collector;
use std::alloc::{AllocError, Global};
use trace_law::Run;

// The lines of a journal.
fn copied(alloc: Global, journal: &Journal) -> Result<Journal, AllocError>
    ensures { IfOk result (λ copy. copy ≡ journal.now) }
{
    let mut copy = Journal::with_room(alloc, journal.len() as usize)?;
    for line in journal.as_slice() {
        copy.push(*line)?;
    }
    Ok(copy)
}

/// What a controller and a complete collector have to tell.
pub fn answer(
    alloc: Global,
    controller: &Controller,
    collector: Collector,
    bouts: u64,
) -> Result<Run, AllocError>
    requires { is_complete collector ≡ true }
    ensures run { IfOk result (λ run. (joiners : ℕ) (lists : CollectorLists)
        → CollectorStands joiners lists collector
        → IsAnswerOf joiners lists controller.now.journal bouts run) }
    ensures journal { IfOk result (λ run. run.journal ≡ controller.now.journal) }
    ensures bouts { IfOk result (λ run. run.bouts ≡ bouts) }
{
    let journal = copied(alloc, controller.journal())?;
    let collected = collector.finish()?;
    Ok(Run {
        pairs: collected.pairs,
        made: collected.made,
        loads: collected.loads,
        moved: collected.moved,
        journal,
        bouts,
    })
}
