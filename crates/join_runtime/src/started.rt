// The turns of all seats by threads that are started for them.

ghost use Rattle.std.specs.Prelude.{◌≡◌, length};
ghost use Rattle.join_runtime.specs.Workers.{AllWorked};

use crate::kept::{Turns, pool_of, signals_of};
use crate::seat::Seat;
use crate::turns_side_by_side::work_by;
use kept_threads::Pool;
use std::alloc::Global;
use std::sync::Wait;
use std::thread;
use std::thread::Threads;
use worker_gate::Gate;

// The turns of all seats by these threads, which then end.
fn work_and_end<'s, 'a: 's, R: Wait, G: Gate>(
    rt: &R,
    seats: Vec<Seat<'a>>,
    pool: Pool<'s, Seat<'a>, Turns<'s, R, G>>,
) -> Vec<Seat<'a>>
    ensures { AllWorked seats.entry.items result.items }
{
    let mut pool = pool;
    let worked = work_by(rt, seats, &mut pool);
    pool.end();
    worked
}

// The turns of all seats by so many threads, of which all but the calling one are started for them.
pub(crate) fn work_started<'a, R: Threads + Wait + Sync, G: Gate + Sync>(
    rt: &R,
    alloc: Global,
    seats: Vec<Seat<'a>>,
    workers: u32,
    gate: &G,
) -> Vec<Seat<'a>>
    ensures { AllWorked seats.entry.items result.items }
{
    let signals = signals_of(alloc, workers);
    let signals = signals.as_slice();
    let turns = Turns { rt, gate };
    let turns = &turns;
    thread::scope(
        thread::scope_env(),
        rt,
        move |scope| -> Vec<Seat>
            ensures { AllWorked seats.entry.items result.items }
        { work_and_end(rt, seats, pool_of(rt, alloc, scope, signals, turns)) },
    )
}
