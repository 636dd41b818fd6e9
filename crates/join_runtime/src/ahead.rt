// Turns of feeders and controller ahead of a bout.

ghost use Rattle.std.specs.Prelude.{◌≡◌, OnOk, map};
ghost use Rattle.join_runtime.specs.Views.{frame_of};
ghost use Rattle.join_runtime.specs.Turns.{AllStep};

use crate::seat::Seat;
use std::alloc::AllocError;
use std::sync::Wait;
use worker_gate::Gate;

// The most rounds that feeders and controller have ahead of the others in one bout.
const ROUNDS: u32 = 128;

// Turns of each feeder and of the controller, one after another.
fn round_ahead<R: Wait, G: Gate>(rt: &R, seats: &mut [Seat], gate: &G) -> Result<(), AllocError>
    ensures ok { OnOk result (AllStep seats.old seats.new) }
    ensures frames { map frame_of seats.new ≡ map frame_of seats.old }
{
    for place in 0..seats.len() {
        seats[place].turns_ahead(rt, gate)?;
    }
    Ok(())
}

// Whether some seat has had no turn, as before a run's first bout.
fn has_new(seats: &[Seat]) -> bool {
    for seat in seats {
        if seat.is_new() {
            return true;
        }
    }
    false
}

// Whether some seat knows of more messages than it can take in a bout.
fn is_crowded(seats: &[Seat]) -> bool {
    for seat in seats {
        if seat.is_crowded() {
            return true;
        }
    }
    false
}

// Whether some feeder has a batch left.
fn has_batches(seats: &[Seat]) -> bool {
    for seat in seats {
        if seat.batches_left() > 0 {
            return true;
        }
    }
    false
}

// Rounds of feeders and controller ahead of a bout, until some seat has more than it can take, so that the threads of a
// bout have enough to do; none ahead of a run's first bout, so that all seats have their first turns side by side.
pub(crate) fn go_ahead<R: Wait, G: Gate>(
    rt: &R,
    seats: &mut [Seat],
    gate: &G,
) -> Result<(), AllocError>
    ensures ok { OnOk result (AllStep seats.old seats.new) }
    ensures frames { map frame_of seats.new ≡ map frame_of seats.old }
{
    if has_new(seats) {
        return Ok(());
    }
    for _ in 0..ROUNDS {
        if is_crowded(seats) || !has_batches(seats) {
            return Ok(());
        }
        round_ahead(rt, seats, gate)?;
    }
    Ok(())
}
