// A run over rings.

ghost use Rattle.std.specs.Prelude.{◌≡◌, ◌≤◌, false, IfOk};
ghost use Rattle.trace_law.specs.Validity.{IsValidInput, IsValidSetting};
ghost use Rattle.trace_law.specs.Family.{first_rest};
ghost use Rattle.trace_law.specs.Runs.{IsRunOf};
ghost use Rattle.load_controller.specs.Journal.{last_epoch};
ghost use Rattle.actor_core.specs.Players.{AgreesOnLinks, IsFinishedFamily};
ghost use Rattle.actor_core.specs.Tasks.{task_of};
ghost use Rattle.ring_runtime.specs.Endings.{lists_left};
ghost use Rattle.ring_runtime.specs.Runs.{most_bouts, orders_in};

use crate::bouts::{RingSeats, ring_bout};
use crate::ends::RingRun;
use std::alloc::{AllocError, Global};
use std::thread::Threads;
use trace_law::{
    Input, Setting, events_are_few, keeps_a_lawful_journal, lawful_is_bounded, limits_suffice,
};
use worker_gate::Gate;

/// Runs the seats of this input and setting over rings, bout after bout until the collector is complete, with as many
/// chunks side by side in each bout as there are workers. It waits for nothing but the threads of its own bouts.
/// `bouts` counts the bouts.
pub fn ring_run<R: Threads + Sync, G: Gate + Sync>(
    rt: &R,
    alloc: Global,
    input: &Input,
    setting: &Setting,
    gate: &G,
) -> Result<RingRun, AllocError>
    requires input { IsValidInput input.now }
    requires setting { IsValidSetting setting.now }
    ensures family { IfOk result (λ told. IsFinishedFamily (task_of input.now setting.now)
        told.run.journal (lists_left told.ends)) }
    ensures linked { IfOk result
        (λ told. AgreesOnLinks setting.now (lists_left told.ends)) }
    ensures run { IfOk result (λ told. IsRunOf input.now setting.now
        (first_rest setting.now).line told.run.journal told.run) }
    ensures fallen { IfOk result (λ told. told.fallen ≡ false) }
    ensures bound { IfOk result (λ told. told.run.bouts
        ≤ most_bouts (task_of input.now setting.now) (orders_in (lists_left told.ends))) }
    ensures orders { IfOk result (λ told. orders_in (lists_left told.ends)
        ≡ last_epoch told.run.journal) }
{
    limits_suffice();
    events_are_few();
    keeps_a_lawful_journal();
    lawful_is_bounded();
    let mut seats = RingSeats::start(alloc, input, setting)?;
    let batches = seats.batches_left();
    for bouts in 0..u64::MAX {
        if seats.complete() {
            return seats.finish(bouts);
        }
        ring_bout(rt, &mut seats, setting.workers, gate)?;
        gate.fed(batches.saturating_sub(seats.batches_left()), batches);
    }
    unreachable!()
}
