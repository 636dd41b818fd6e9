// A gate that counts.

use crate::gate::{Gate, Spot};
use std::sync::atomic::{AtomicU64, Ordering};

/// A gate that stands open and counts how often it is passed, by all actors together. The count goes round at 2^64.
#[derive(Drop)]
pub struct CountingGate {
    passes: AtomicU64,
}

impl CountingGate {
    /// A gate that nobody has passed.
    pub fn new() -> CountingGate {
        CountingGate {
            passes: AtomicU64::new(0),
        }
    }

    /// How often it was passed.
    pub fn passes(&self) -> u64 {
        self.passes.load(Ordering::SeqCst)
    }
}

impl Gate for CountingGate {
    fn pass(&self, _spot: Spot) {
        self.passes.fetch_add(1, Ordering::SeqCst);
    }
}
