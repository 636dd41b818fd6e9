// The turns of all seats side by side, in chunks to which the seats are dealt in turn.

ghost use Rattle.std.specs.Prelude.{◌<◌, ◌≤◌, length};
ghost use Rattle.ring_runtime.specs.Bouts.{AllWork};

use crate::seat::RingSeat;
use actor_core::shares_predicates;
use std::thread;
use std::thread::Threads;
use worker_gate::{Gate, standing_at};

// The turns of all seats as they stand, which are cut into as many chunks as there are workers.
fn work_as_they_stand<R: Threads + Sync, G: Gate + Sync>(
    rt: &R,
    seats: &mut [RingSeat],
    workers: u32,
    gate: &G,
)
    requires { 0 < workers }
    ensures { AllWork seats.old seats.new }
{
    shares_predicates();
    thread::for_each_mut(rt, seats, workers as usize, &|_, seat| seat.turns(gate));
}

// The turns of all seats, of which those at so many last places are still to be dealt; each stands in its place again
// behind them.
fn work_dealt<R: Threads + Sync, G: Gate + Sync>(
    rt: &R,
    seats: &mut [RingSeat],
    workers: u32,
    gate: &G,
    left: usize,
)
    requires workers { 0 < workers }
    requires left { left ≤ length seats.old }
    ensures { AllWork seats.old seats.new }
{
    if left == 0 {
        work_as_they_stand(rt, seats, workers, gate);
        return;
    }
    let count = seats.len();
    let place = count - left;
    let size = count.div_ceil(workers as usize).max(1);
    let from = standing_at(place, count, size);
    if from < count {
        seats.swap(place, from);
        work_dealt(rt, seats, workers, gate, left - 1);
        seats.swap(place, from);
    } else {
        work_dealt(rt, seats, workers, gate, left - 1);
    }
}

// The turns of all seats, which are dealt to as many chunks as there are workers: so each has as many joiners as the
// others, or one more or less.
pub(crate) fn work<R: Threads + Sync, G: Gate + Sync>(
    rt: &R,
    seats: &mut [RingSeat],
    workers: u32,
    gate: &G,
)
    requires { 0 < workers }
    ensures { AllWork seats.old seats.new }
{
    let count = seats.len();
    work_dealt(rt, seats, workers, gate, count);
}
