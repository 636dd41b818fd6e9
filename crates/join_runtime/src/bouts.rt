// A bout: turns of all seats side by side, and then the two ends of each link held together.

ghost use Rattle.std.specs.Prelude.{◌≡◌, ◌<◌, ℕ, true, false, Ok, OnOk, OnErr, length, map, slice_index_or};
ghost use Rattle.row_cells.specs.Lists.{IsPrefix};
ghost use Rattle.theta_pred.specs.Formula.{Meaning};
ghost use Rattle.actor_core.specs.Families.{AreFronts};
ghost use Rattle.actor_core.specs.Players.{AgreesOnLinks, Extends};
ghost use Rattle.actor_core.specs.Tasks.{IsTask, Task};
ghost use Rattle.join_runtime.specs.Views.{SeatView, frame_of};
ghost use Rattle.join_runtime.specs.Turns.{AllStep, IsAlike};
ghost use Rattle.join_runtime.specs.Workers.{AllWorked};
ghost use Rattle.join_runtime.specs.Joins.{ActorsDiffer, AllLead, AreGathered};
ghost use Rattle.join_runtime.specs.Bouts.{AllAdvance, AllJoinBy, AllLive, AllRest, IsStill, NoneSpent, SomeReady, StandsFor, lists_in};
ghost use Rattle.join_runtime.specs.Endings.{is_collected, journal_in};

use crate::ahead::go_ahead;
use crate::gathered::gather_all;
use crate::seat::Seat;
use crate::started::work_started;
use actor_core::Cast;
use std::alloc::{AllocError, Global};
use std::marker::Model;
use std::mem;
use std::sync::Wait;
use std::thread::Threads;
use trace_law::quiet_is_finished;
use worker_gate::Gate;

fn all_rest(seats: &[Seat]) -> bool
    requires { AllLive seats.now }
    ensures rest { result ≡ true → AllRest seats.now }
    ensures ready { result ≡ false → SomeReady seats.now }
{
    for seat in seats {
        if !seat.rests() {
            return false;
        }
    }
    true
}

fn any_spent(seats: &[Seat]) -> bool
    ensures { result ≡ false → NoneSpent seats.now }
{
    for seat in seats {
        if seat.is_spent() {
            return true;
        }
    }
    false
}

// What stands before the turns of all seats: turns ahead of the others. `Ok(false)`: all rest.
fn begin_bout<R: Wait, G: Gate>(rt: &R, seats: &mut [Seat], gate: &G) -> Result<bool, AllocError>
    requires { AllLive seats.old }
    ensures frames { map frame_of seats.new ≡ map frame_of seats.old }
    ensures stepped { result ≡ Ok true → AllStep seats.old seats.new }
    ensures ready { result ≡ Ok true → SomeReady seats.old }
    ensures rest { result ≡ Ok false → AllRest seats.old }
    ensures same { result ≡ Ok false → seats.new ≡ seats.old }
{
    if all_rest(seats) {
        return Ok(false);
    }
    go_ahead(rt, seats, gate)?;
    Ok(true)
}

// What stands behind them: the two ends of each link are held together, where no seat is spent.
fn end_bout<R: Wait>(rt: &R, seats: &mut [Seat]) -> Result<(), AllocError>
    requires leads { AllLead (map frame_of seats.old) }
    requires differ { ActorsDiffer (map frame_of seats.old) }
    ensures frames { map frame_of seats.new ≡ map frame_of seats.old }
    ensures none_spent { OnOk result (NoneSpent seats.old) }
    ensures alike { OnOk result ((n : ℕ) (d : SeatView) → n < length seats.old
        → IsAlike (slice_index_or seats.old n d) (slice_index_or seats.new n d)) }
    ensures gathered { OnOk result (AreGathered seats.new) }
{
    if any_spent(seats) {
        return Err(AllocError);
    }
    gather_all(rt, seats);
    Ok(())
}

// A bout of these seats, by what gives all of them their turns. `Ok(false)`: all rest.
fn bout_of<'a, R: Wait, G: Gate, F: FnOnce(Vec<Seat<'a>>) -> Vec<Seat<'a>>>(
    rt: &R,
    alloc: Global,
    seats: &mut Vec<Seat<'a>>,
    gate: &G,
    work: F,
) -> Result<bool, AllocError>
    requires takes { (standing : _) → F.pre work standing }
    requires works { (standing worked : _) → F.post work standing worked
        → AllWorked standing.items worked.items }
    requires leads { AllLead (map frame_of seats.old.items) }
    requires differ { ActorsDiffer (map frame_of seats.old.items) }
    requires live { AllLive seats.old.items }
    ensures long { length seats.new.items ≡ length seats.old.items }
    ensures frames { map frame_of seats.new.items ≡ map frame_of seats.old.items }
    ensures went { result ≡ Ok true → AllAdvance seats.old.items seats.new.items }
    ensures ready { result ≡ Ok true → SomeReady seats.old.items }
    ensures gathered { result ≡ Ok true → AreGathered seats.new.items }
    ensures rest { result ≡ Ok false → AllRest seats.old.items }
    ensures same { result ≡ Ok false → seats.new.items ≡ seats.old.items }
{
    if !begin_bout(rt, seats.as_mut_slice(), gate)? {
        return Ok(false);
    }
    let standing = mem::replace(seats, Vec::new(alloc));
    *seats = work(standing);
    end_bout(rt, seats.as_mut_slice())?;
    Ok(true)
}

/// The seats of all actors of a run.
#[derive(Drop)]
pub struct Seats<'a> {
    pub(crate) alloc: Global,
    pub(crate) cast: Cast,
    // By the numbers of actors.
    pub(crate) seats: Vec<Seat<'a>>,
    // Whether a bout found no memory.
    pub(crate) spent: bool,
}

impl<'a> Model for Seats<'a> {
    ghost use Rattle.std.specs.Prelude.{◌≡◌, false, map};
    ghost use Rattle.join_runtime.specs.Views.{frame_of};
    ghost use Rattle.join_runtime.specs.Joins.{AreJoined, AreSettled};
    ghost use Rattle.join_runtime.specs.Bouts.{SeatsView};
    ghost use Rattle.std.specs.Coded.{codes};
    ghost use Rattle.theta_pred.specs.FormulaCode.{formula_code};

    ghost Value = { SeatsView };

    ghost coded = { Prim.hlevel (codes, formula_code (Prim.hlevel codes)) };

    ghost view = { λ s. record {
      cast = s.cast;
      seats = s.seats.items;
      spent = s.spent;
    } };

    ghost invariant = { λ s. AreJoined s.cast (map frame_of s.seats.items)
        × (s.spent ≡ false → AreSettled s.seats.items) };
}

// One bout, by what gives all seats their turns.
pub(crate) fn bout_by<'a, R: Wait, G: Gate, F: FnOnce(Vec<Seat<'a>>) -> Vec<Seat<'a>>>(
    rt: &R,
    seats: &mut Seats<'a>,
    gate: &G,
    work: F,
) -> Result<bool, AllocError>
    requires takes { (standing : _) → F.pre work standing }
    requires works { (standing worked : _) → F.post work standing worked
        → AllWorked standing.items worked.items }
    ensures went { result ≡ Ok true → AllAdvance seats.old.seats seats.new.seats }
    ensures same { result ≡ Ok false → seats.new ≡ seats.old }
    ensures still { result ≡ Ok false → IsStill seats.old }
    ensures busy { result ≡ Ok true → ¬ IsStill seats.old }
    ensures ready { result ≡ Ok true → SomeReady seats.old.seats }
    ensures collected { result ≡ Ok false → (task : Task) → IsTask task
        → StandsFor task seats.old → is_collected seats.old ≡ true }
    ensures agrees { OnOk result (AreFronts (lists_in seats.new)) }
    ensures extends { OnOk result (Extends (lists_in seats.old) (lists_in seats.new)) }
    ensures journal { OnOk result (IsPrefix (journal_in seats.old) (journal_in seats.new)) }
    ensures stands { OnOk result
        ((task : Task) → StandsFor task seats.old → StandsFor task seats.new) }
    ensures joins { OnOk result
        ((theta : Meaning) → AllJoinBy theta seats.old → AllJoinBy theta seats.new) }
    ensures linked { OnOk result ((task : Task) → StandsFor task seats.old
        → AgreesOnLinks task.setting (lists_in seats.old)
        → AgreesOnLinks task.setting (lists_in seats.new)) }
    ensures goes_on { OnOk result ((seats.old.spent ≡ false) × (seats.new.spent ≡ false)) }
    ensures fails { OnErr result (seats.new.spent ≡ true) }
    ensures actors { seats.new.cast ≡ seats.old.cast }
{
    quiet_is_finished();
    if seats.spent {
        return Err(AllocError);
    }
    seats.spent = true;
    let alloc = seats.alloc;
    let went = bout_of(rt, alloc, &mut seats.seats, gate, work)?;
    seats.spent = false;
    Ok(went)
}

/// One bout. First the feeders and the controller go ahead, in the calling thread and by 64 turns each at most, unless
/// some seat has had no turn or knows of more messages than it can take. Then each seat has turns until it is idle or
/// has had 256 in this bout, in as many chunks side by side as there are workers; then the two ends of each link are
/// held together.
/// `Ok(false)`: nothing was left on any link, and no feeder would begin; then nothing changed, and of a valid task the
/// collector is complete. After an error the seats are spent.
pub fn bout<R: Threads + Wait + Sync, G: Gate + Sync>(
    rt: &R,
    seats: &mut Seats,
    workers: u32,
    gate: &G,
) -> Result<bool, AllocError>
    requires { 0 < workers }
    ensures went { result ≡ Ok true → AllAdvance seats.old.seats seats.new.seats }
    ensures same { result ≡ Ok false → seats.new ≡ seats.old }
    ensures still { result ≡ Ok false → IsStill seats.old }
    ensures busy { result ≡ Ok true → ¬ IsStill seats.old }
    ensures ready { result ≡ Ok true → SomeReady seats.old.seats }
    ensures collected { result ≡ Ok false → (task : Task) → IsTask task
        → StandsFor task seats.old → is_collected seats.old ≡ true }
    ensures agrees { OnOk result (AreFronts (lists_in seats.new)) }
    ensures extends { OnOk result (Extends (lists_in seats.old) (lists_in seats.new)) }
    ensures journal { OnOk result (IsPrefix (journal_in seats.old) (journal_in seats.new)) }
    ensures stands { OnOk result
        ((task : Task) → StandsFor task seats.old → StandsFor task seats.new) }
    ensures joins { OnOk result
        ((theta : Meaning) → AllJoinBy theta seats.old → AllJoinBy theta seats.new) }
    ensures linked { OnOk result ((task : Task) → StandsFor task seats.old
        → AgreesOnLinks task.setting (lists_in seats.old)
        → AgreesOnLinks task.setting (lists_in seats.new)) }
    ensures goes_on { OnOk result ((seats.old.spent ≡ false) × (seats.new.spent ≡ false)) }
    ensures fails { OnErr result (seats.new.spent ≡ true) }
    ensures actors { seats.new.cast ≡ seats.old.cast }
{
    let alloc = seats.alloc;
    bout_by(rt, seats, gate, move |standing| {
        work_started(rt, alloc, standing, workers, gate)
    })
}
