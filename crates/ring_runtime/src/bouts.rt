// A bout: turns of all seats side by side, and then the two ends of each ring held together.

ghost use Rattle.std.specs.Prelude.{◌≡◌, ◌<◌, ◌⊎◌, ℕ, true, false, Ok, OnOk, OnErr, length, map, slice_index_or};
ghost use Rattle.row_cells.specs.Lists.{IsPrefix};
ghost use Rattle.actor_core.specs.Families.{AreFronts};
ghost use Rattle.actor_core.specs.Players.{AgreesOnLinks, Extends};
ghost use Rattle.actor_core.specs.Tasks.{IsTask, Task};
ghost use Rattle.ring_runtime.specs.Seats.{RingSeatView, frame_of};
ghost use Rattle.ring_runtime.specs.Joins.{AreHeld, AreWired};
ghost use Rattle.ring_runtime.specs.Bouts.{AllAdvance, AllLive, EachSeat, IsAtRest, IsBusy, IsReady, IsStill, NoneSpent, SomeEvent, SomeSeat, StandsFor, is_collected, journal_in, lists_in};

use crate::holding::hold_all;
use crate::seat::RingSeat;
use crate::turns_side_by_side::work;
use actor_core::Cast;
use std::alloc::{AllocError, Global};
use std::marker::Model;
use std::thread::Threads;
use trace_law::quiet_is_finished;
use worker_gate::Gate;

fn all_rest(seats: &[RingSeat]) -> bool
    requires { AllLive seats.now }
    ensures rest { result ≡ true → EachSeat IsAtRest seats.now }
    ensures busy { result ≡ false → SomeSeat IsBusy seats.now }
{
    for seat in seats {
        if !seat.rests() {
            return false;
        }
    }
    true
}

fn any_spent(seats: &[RingSeat]) -> bool
    ensures { result ≡ false → NoneSpent seats.now }
{
    for seat in seats {
        if seat.is_spent() {
            return true;
        }
    }
    false
}

// A bout of these seats. `Ok(false)`: all rest.
fn bout_of<R: Threads + Sync, G: Gate + Sync>(
    rt: &R,
    seats: &mut [RingSeat],
    workers: u32,
    gate: &G,
    cast: Cast,
) -> Result<bool, AllocError>
    requires workers { 0 < workers }
    requires wired { AreWired cast (map frame_of seats.old) }
    requires live { AllLive seats.old }
    ensures frames { map frame_of seats.new ≡ map frame_of seats.old }
    ensures went { result ≡ Ok true → AllAdvance seats.old seats.new }
    ensures busy { result ≡ Ok true → SomeSeat IsBusy seats.old }
    ensures held { result ≡ Ok true → AreHeld seats.new }
    ensures rest { result ≡ Ok false → EachSeat IsAtRest seats.old }
    ensures same { result ≡ Ok false → seats.new ≡ seats.old }
{
    if all_rest(seats) {
        return Ok(false);
    }
    work(rt, seats, workers, gate);
    if any_spent(seats) {
        return Err(AllocError);
    }
    hold_all(seats);
    Ok(true)
}

/// The seats of all actors of a run, joined by rings.
#[derive(Drop)]
pub struct RingSeats<'a> {
    pub(crate) alloc: Global,
    pub(crate) cast: Cast,
    // By the numbers of actors.
    pub(crate) seats: Vec<RingSeat<'a>>,
    // Whether a bout found no memory.
    pub(crate) spent: bool,
}

impl<'a> Model for RingSeats<'a> {
    ghost use Rattle.std.specs.Prelude.{◌≡◌, false, map};
    ghost use Rattle.ring_runtime.specs.Seats.{frame_of};
    ghost use Rattle.ring_runtime.specs.Joins.{AreSettled, AreWired};
    ghost use Rattle.ring_runtime.specs.Bouts.{RingSeatsView, StandsForSome};
    ghost use Rattle.std.specs.Coded.{codes};
    ghost use Rattle.theta_pred.specs.FormulaCode.{formula_code};

    ghost Value = { RingSeatsView };

    ghost coded = { Prim.hlevel (codes, formula_code (Prim.hlevel codes)) };

    ghost view = { λ s. record {
      cast = s.cast;
      seats = s.seats.items;
      spent = s.spent;
    } };

    ghost invariant = { λ s. AreWired s.cast (map frame_of s.seats.items)
        × (s.spent ≡ false → AreSettled s.seats.items)
        × (s.spent ≡ false → ∥ StandsForSome (record {
          cast = s.cast;
          seats = s.seats.items;
          spent = s.spent;
        }) ∥₁) };
}

/// One bout. Each seat has turns until it is idle or has had 256, in as many chunks side by side as there are workers;
/// then the two ends of each ring are held together. No seat waits for another. `Ok(false)`: nothing was left on any
/// link, and no feeder would begin; then nothing changed, and of a task within the limits the collector is complete.
/// After an error the seats are spent.
pub fn ring_bout<R: Threads + Sync, G: Gate + Sync>(
    rt: &R,
    seats: &mut RingSeats,
    workers: u32,
    gate: &G,
) -> Result<bool, AllocError>
    requires { 0 < workers }
    ensures went { result ≡ Ok true → AllAdvance seats.old.seats seats.new.seats }
    ensures event { result ≡ Ok true → SomeSeat IsReady seats.old.seats
        → SomeEvent seats.old.seats seats.new.seats }
    ensures moves { result ≡ Ok true
        → SomeEvent seats.old.seats seats.new.seats ⊎ SomeSeat IsReady seats.new.seats }
    ensures same { result ≡ Ok false → seats.new ≡ seats.old }
    ensures still { result ≡ Ok false → IsStill seats.old }
    ensures busy { result ≡ Ok true → ¬ IsStill seats.old }
    ensures collected { result ≡ Ok false → (task : Task) → IsTask task
        → StandsFor task seats.old → is_collected seats.old ≡ true }
    ensures agrees { OnOk result (AreFronts (lists_in seats.new)) }
    ensures extends { OnOk result (Extends (lists_in seats.old) (lists_in seats.new)) }
    ensures journal { OnOk result (IsPrefix (journal_in seats.old) (journal_in seats.new)) }
    ensures stands { OnOk result ((task : Task)
        → StandsFor task seats.old → StandsFor task seats.new) }
    ensures linked { OnOk result ((task : Task) → StandsFor task seats.old
        → AgreesOnLinks task.setting (lists_in seats.old)
        → AgreesOnLinks task.setting (lists_in seats.new)) }
    ensures goes_on { OnOk result ((seats.old.spent ≡ false) × (seats.new.spent ≡ false)) }
    ensures fails { OnErr result (seats.new.spent ≡ true) }
    ensures actors { seats.new.cast ≡ seats.old.cast }
{
    quiet_is_finished();
    if seats.spent {
        return Err(AllocError);
    }
    seats.spent = true;
    let cast = seats.cast;
    let went = bout_of(rt, seats.seats.as_mut_slice(), workers, gate, cast)?;
    seats.spent = false;
    Ok(went)
}
