// A run in threads that puts the lines of its pairs as they come.

ghost use Rattle.std.specs.Prelude.{◌≡◌, ◌≢◌, ◌<◌, ◌≤◌, ◌+◌, ℕ, Err, IfOk, OnOk, OnErr, length};
ghost use Rattle.std.specs.Io.KnownBytes.{append_known};
ghost use Rattle.join_rows.specs.Shelves.{last_fault};
ghost use Rattle.join_rows.specs.Sinks.{AppendsFront, PutsSome};
ghost use Rattle.trace_law.specs.Validity.{IsValidInput, IsValidSetting};
ghost use Rattle.trace_law.specs.Join.{nested_loop};
ghost use Rattle.trace_law.specs.Family.{first_rest};
ghost use Rattle.trace_law.specs.Runs.{IsRunOf};
ghost use Rattle.load_controller.specs.Journal.{last_epoch};
ghost use Rattle.trace_law.specs.MostEvents.{most_events};
ghost use Rattle.actor_core.specs.Players.{AgreesOnLinks, IsFinishedFamily};
ghost use Rattle.actor_core.specs.Tasks.{task_of};
ghost use Rattle.join_report.specs.PairLines.{pair_lines};
ghost use Rattle.join_runtime.specs.declared.early_lines.EarlyFault.TheVariants.{Memory as Memory', Write as Write'};
ghost use Rattle.join_runtime.specs.Endings.{lists_left};
ghost use Rattle.join_runtime.specs.Early.{EndsEarly, WroteEach, WroteSome};

use crate::bouts::{Seats, bout_by};
use crate::ends::Told;
use crate::kept::{Turns, pool_of, same, signals_of};
use crate::seat::Seat;
use crate::turns_side_by_side::work_by;
use epoch_tags::Pair;
use join_report::{pairs_text, put_all};
use join_rows::{Failed, Sink};
use kept_threads::Pool;
use std::alloc::{AllocError, Global};
use std::sync::Wait;
use std::thread;
use std::thread::Threads;
use thiserror::Error;
use trace_law::{
    Input, Setting, answers_in_the_end, events_are_few, limits_suffice, takes_nothing_wrong,
};
use worker_gate::Gate;

/// Why a run that puts its lines early has no answer.
#[derive(Clone, Copy, Debug, PartialEq, Eq, Error)]
pub enum EarlyFault {
    /// A put failed.
    #[error("the pairs couldn't be written")]
    Write,
    #[error("out of memory")]
    Memory,
}

impl From<AllocError> for EarlyFault {
    ghost from_gives = { λ _ fault. fault ≡ Memory' };

    fn from(_: AllocError) -> EarlyFault {
        EarlyFault::Memory
    }
}

// Puts the lines of these pairs.
fn put_lines<K: Sink>(alloc: Global, pairs: &[Pair], sink: &mut K) -> Result<(), EarlyFault>
    requires { K.faults sink.old < last_fault }
    ensures written { OnOk result (K.written sink.new
        ≡ append_known (K.written sink.old) (pair_lines pairs.now)) }
    ensures front { OnErr result
        (AppendsFront (K.written sink.old) (K.written sink.new) (pair_lines pairs.now)) }
    ensures kept { result ≢ Err Write' → K.faults sink.new ≡ K.faults sink.old }
    ensures write { result ≡ Err Write' → K.faults sink.old < K.faults sink.new }
    ensures takes { (more : ℕ) → K.takes sink.old (length (pair_lines pairs.now) + more)
        → (result ≢ Err Write') × OnOk result (K.takes sink.new more) }
    ensures left { PutsSome (K.written sink.old) (K.written sink.new)
        (K.takes sink.old) (K.takes sink.new) }
{
    let text = pairs_text(alloc, pairs)?;
    match put_all(sink, text.as_bytes()) {
        Ok(()) => Ok(()),
        Err(Failed) => Err(EarlyFault::Write),
    }
}

// Bout after bout by these threads, until the collector is complete; after each the lines of its pairs.
fn run_early_by<'a, R: Wait, G: Gate, K: Sink>(
    rt: &R,
    alloc: Global,
    input: &'a Input,
    setting: &Setting,
    gate: &G,
    sink: &mut K,
    pool: &mut Pool<Seat<'a>, Turns<R, G>>,
) -> Result<Told, EarlyFault>
    requires input { IsValidInput input.now }
    requires setting { IsValidSetting setting.now }
    requires sink { K.faults sink.old < last_fault }
    ensures family { IfOk result (λ told. IsFinishedFamily (task_of input.now setting.now)
        told.run.journal (lists_left told.ends)) }
    ensures linked { IfOk result
        (λ told. AgreesOnLinks setting.now (lists_left told.ends)) }
    ensures run { IfOk result (λ told. IsRunOf input.now setting.now
        (first_rest setting.now).line told.run.journal told.run) }
    ensures bound { IfOk result
        (λ told. told.run.bouts ≤ most_events input.now setting.now (last_epoch told.run.journal)) }
    ensures lines { WroteSome input.now (K.written sink.old) (K.written sink.new) }
    ensures whole { IfOk result
        (λ told. WroteEach told.run.pairs (K.written sink.old) (K.written sink.new)) }
    ensures write { result ≡ Err Write' → K.faults sink.old < K.faults sink.new }
    ensures kept { result ≢ Err Write' → K.faults sink.new ≡ K.faults sink.old }
    ensures takes { (more : ℕ)
        → K.takes sink.old (length (pair_lines (nested_loop input.now)) + more)
        → (result ≢ Err Write') × OnOk result (K.takes sink.new more) }
    ensures left { PutsSome (K.written sink.old) (K.written sink.new)
        (K.takes sink.old) (K.takes sink.new) }
{
    limits_suffice();
    events_are_few();
    takes_nothing_wrong();
    answers_in_the_end();
    let mut seats = Seats::start(alloc, input, setting)?;
    let batches = seats.batches_left();
    let mut bouts = 0u64;
    for _ in rt.forever() {
        if seats.complete() {
            break;
        }
        let threads = &mut *pool;
        bout_by(
            rt,
            &mut seats,
            gate,
            move |standing| work_by(rt, standing, threads),
        )?;
        bouts = bouts.saturating_add(1);
        let fresh = seats.fresh()?;
        put_lines(alloc, fresh.as_slice(), sink)?;
        drop(fresh);
        gate.fed(batches.saturating_sub(seats.batches_left()), batches);
    }
    Ok(seats.finish(bouts)?)
}

/// Does what [`run`](crate::run) does, and after each bout puts the lines of the pairs that came in it, in pieces of
/// 4,096 bytes. At any answer a front of the lines of pairs of the nested loop was appended, none of them twice, so the
/// last line may be cut; after `Ok` it is the line of each pair of the run, once and whole, in an order that may differ
/// from run to run. `Write` comes at the first put that fails, and no put follows it. What it promises holds if it
/// returns.
pub fn run_early<R: Threads + Wait + Sync, G: Gate + Sync, K: Sink>(
    rt: &R,
    alloc: Global,
    input: &Input,
    setting: &Setting,
    gate: &G,
    sink: &mut K,
) -> Result<Told, EarlyFault>
    requires input { IsValidInput input.now }
    requires setting { IsValidSetting setting.now }
    requires sink { K.faults sink.old < last_fault }
    ensures family { IfOk result (λ told. IsFinishedFamily (task_of input.now setting.now)
        told.run.journal (lists_left told.ends)) }
    ensures linked { IfOk result
        (λ told. AgreesOnLinks setting.now (lists_left told.ends)) }
    ensures run { IfOk result (λ told. IsRunOf input.now setting.now
        (first_rest setting.now).line told.run.journal told.run) }
    ensures bound { IfOk result
        (λ told. told.run.bouts ≤ most_events input.now setting.now (last_epoch told.run.journal)) }
    ensures lines { WroteSome input.now (K.written sink.old) (K.written sink.new) }
    ensures whole { IfOk result
        (λ told. WroteEach told.run.pairs (K.written sink.old) (K.written sink.new)) }
    ensures write { result ≡ Err Write' → K.faults sink.old < K.faults sink.new }
    ensures kept { result ≢ Err Write' → K.faults sink.new ≡ K.faults sink.old }
    ensures takes { (more : ℕ)
        → K.takes sink.old (length (pair_lines (nested_loop input.now)) + more)
        → (result ≢ Err Write') × OnOk result (K.takes sink.new more) }
    ensures left { PutsSome (K.written sink.old) (K.written sink.new)
        (K.takes sink.old) (K.takes sink.new) }
{
    let signals = signals_of(alloc, setting.workers);
    let signals = signals.as_slice();
    let turns = Turns { rt, gate };
    let turns = &turns;
    let (told, sink) = thread::scope(
        thread::scope_env(),
        rt,
        move |scope|
            requires input { IsValidInput input.now }
            requires setting { IsValidSetting setting.now }
            requires sink { K.faults sink.now < last_fault }
            ensures same_reference { result.1.ghost_name ≡ sink.entry.ghost_name }
            ensures ends { EndsEarly input.entry.now setting.entry.now
                (K.written sink.entry.now) (K.written result.1.now)
                (K.takes sink.entry.now) (K.takes result.1.now)
                (K.faults sink.entry.now) (K.faults result.1.now) result.0 }
        {
            let mut pool = pool_of(rt, alloc, scope, signals, turns);
            let told = run_early_by(rt, alloc, input, setting, gate, sink, &mut pool);
            pool.end();
            (told, sink)
        },
    );
    same(sink);
    told
}
