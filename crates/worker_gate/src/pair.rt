// A gate at which two actors look for each other.

use crate::gate::{Gate, Spot};
use epoch_tags::Actor;
use std::sync::atomic::{AtomicBool, Ordering};

// What the gate knows of one of the two.
#[derive(Drop)]
struct Visitor {
    actor: Actor,
    has_come: AtomicBool,
    has_found: AtomicBool,
}

/// A gate at which each of two actors, at its first pass, says that it has come and then looks whether the other has.
/// Where both find the other, both were within their first pass at one time, and so in two threads.
#[derive(Drop)]
pub struct PairGate {
    a: Visitor,
    b: Visitor,
    limit: u64,
}

impl Visitor {
    fn new(actor: Actor) -> Visitor {
        Visitor {
            actor,
            has_come: AtomicBool::new(false),
            has_found: AtomicBool::new(false),
        }
    }

    // Comes, and where it is for the first time looks for the other so many times at most.
    fn meet(&self, other: &Visitor, limit: u64) {
        if self.has_come.swap(true, Ordering::SeqCst) {
            return;
        }
        for _ in 0..limit {
            if other.has_come.load(Ordering::SeqCst) {
                self.has_found.store(true, Ordering::SeqCst);
                return;
            }
        }
    }

    fn has_found(&self) -> bool {
        self.has_found.load(Ordering::SeqCst)
    }
}

impl PairGate {
    /// A gate for two different actors, each of which looks for the other at most `limit` times. It takes no memory.
    pub fn new(a: Actor, b: Actor, limit: u64) -> PairGate {
        PairGate {
            a: Visitor::new(a),
            b: Visitor::new(b),
            limit,
        }
    }

    /// Whether each of the two found the other.
    pub fn met(&self) -> bool {
        self.a.has_found() && self.b.has_found()
    }
}

impl Gate for PairGate {
    fn pass(&self, spot: Spot) {
        if spot.actor == self.a.actor {
            self.a.meet(&self.b, self.limit);
        } else if spot.actor == self.b.actor {
            self.b.meet(&self.a, self.limit);
        }
    }
}
