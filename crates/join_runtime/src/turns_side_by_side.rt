// The turns of all seats side by side, in chunks to which the seats are dealt in turn.

ghost use Rattle.std.specs.Prelude.{◌≡◌, ◌<◌, ◌≤◌, length};
ghost use Rattle.std.specs.List.{SwappedAt};
ghost use Rattle.join_runtime.specs.Workers.{AllWorked};

use crate::kept::Turns;
use crate::seat::Seat;
use kept_threads::Pool;
use std::sync::Wait;
use worker_gate::{Gate, standing_at};

// Two seats change places.
fn swap(seats: &mut Vec<Seat>, a: usize, b: usize)
    requires a { a < length seats.old.items }
    requires b { b < length seats.old.items }
    ensures len { length seats.new.items ≡ length seats.old.items }
    ensures swapped { SwappedAt seats.old.items seats.new.items a b }
{
    seats.as_mut_slice().swap(a, b);
}

// The turns of all seats, of which those at so many last places are still to be dealt to chunks of this size; each
// stands in its place again behind them.
fn work_dealt<'a, R: Wait, G: Gate>(
    rt: &R,
    seats: Vec<Seat<'a>>,
    pool: &mut Pool<Seat<'a>, Turns<R, G>>,
    size: usize,
    left: usize,
) -> Vec<Seat<'a>>
    requires size { 0 < size }
    requires left { left ≤ length seats.items }
    ensures { AllWorked seats.entry.items result.items }
{
    if left == 0 {
        return pool.work(rt, seats);
    }
    let count = seats.len();
    let place = count - left;
    let from = standing_at(place, count, size);
    let mut seats = seats;
    if from < count {
        swap(&mut seats, place, from);
        let mut worked = work_dealt(rt, seats, pool, size, left - 1);
        swap(&mut worked, place, from);
        worked
    } else {
        work_dealt(rt, seats, pool, size, left - 1)
    }
}

// The turns of all seats, which are dealt to as many chunks as there are threads: so each has as many joiners as the
// others, or one more or less.
pub(crate) fn work_by<'a, R: Wait, G: Gate>(
    rt: &R,
    seats: Vec<Seat<'a>>,
    pool: &mut Pool<Seat<'a>, Turns<R, G>>,
) -> Vec<Seat<'a>>
    ensures { AllWorked seats.entry.items result.items }
{
    let count = seats.len();
    let size = count.div_ceil(pool.threads()).max(1);
    work_dealt(rt, seats, pool, size, count)
}
