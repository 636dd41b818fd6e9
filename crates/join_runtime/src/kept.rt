// The threads of a run, which are kept from bout to bout.

ghost use Rattle.std.specs.Prelude.{◌≡◌};
ghost use Rattle.join_runtime.specs.Turns.{Works};

use crate::seat::Seat;
use actor_core::shares_predicates;
use kept_threads::{Pool, Signals, Task};
use std::alloc::Global;
use std::marker::Sync;
use std::sync::Wait;
use std::thread::Scope;
use worker_gate::Gate;

// The last turns of a seat in a bout.
#[derive(Drop)]
pub(crate) struct Turns<'g, R, G> {
    pub(crate) rt: &'g R,
    pub(crate) gate: &'g G,
}

impl<'g, 'a, R: Wait, G: Gate> Task<Seat<'a>> for Turns<'g, R, G> {
    ghost changes = { Works };

    fn run(&self, seat: &mut Seat<'a>) {
        seat.turns(self.rt, self.gate);
    }
}

// Signals for so many workers, of which the calling thread is one; fewer where there is no memory.
pub(crate) fn signals_of(alloc: Global, workers: u32) -> Vec<Signals> {
    let mut signals = Vec::new(alloc);
    for _ in 1..workers {
        if signals.push(Signals::new()).is_err() {
            break;
        }
    }
    signals
}

// The threads that give seats their turns.
pub(crate) fn pool_of<'s, 'a: 's, E, R: Wait + Sync, G: Gate + Sync>(
    rt: &'s R,
    alloc: Global,
    scope: &'s Scope<'s, E>,
    signals: &'s [Signals],
    turns: &'s Turns<'s, R, G>,
) -> Pool<'s, Seat<'a>, Turns<'s, R, G>> {
    shares_predicates();
    Pool::start(rt, alloc, scope, signals, turns)
}

// Nothing happens to it. What a scope's closure hands back of what it was lent is known by this once the loan has
// ended.
pub(crate) fn same<T>(it: &mut T)
    ensures { it.new ≡ it.old }
{}
