// Gates that differ in what becomes of memory at the end of a run.

use crate::gate::{Gate, Spot};
use std::mem;

/// The gate of a program's last run. It passes all on to another one, but what is let go stays where it is: the process
/// is about to end, and the system takes its memory back as a whole.
#[derive(Drop)]
pub struct LastGate<G> {
    gate: G,
}

impl<G: Gate> LastGate<G> {
    /// The gate that passes all on to this one.
    pub fn new(gate: G) -> LastGate<G> {
        LastGate { gate }
    }
}

impl<G: Gate> Gate for LastGate<G> {
    fn pass(&self, spot: Spot) {
        self.gate.pass(spot);
    }

    fn fed(&self, sent: u64, batches: u64) {
        self.gate.fed(sent, batches);
    }

    fn let_go<T: Drop>(&self, held: T) {
        mem::forget(held);
    }
}

/// The gate of a run behind which others come. It passes all on to another one, but what is let go is dropped, whatever
/// becomes of it there.
#[derive(Clone, Copy)]
pub struct EarlierGate<'a, G> {
    gate: &'a G,
}

impl<'a, G: Gate> EarlierGate<'a, G> {
    /// The gate that passes all on to this one.
    pub fn new(gate: &'a G) -> EarlierGate<'a, G> {
        EarlierGate { gate }
    }
}

impl<'a, G: Gate> Gate for EarlierGate<'a, G> {
    fn pass(&self, spot: Spot) {
        self.gate.pass(spot);
    }

    fn fed(&self, sent: u64, batches: u64) {
        self.gate.fed(sent, batches);
    }
}
