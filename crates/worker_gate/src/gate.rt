// What is passed at each turn.

use epoch_tags::Actor;

/// Who passes, and in which of its turns, counted from 0. The count stays at 2^64 - 1 once it is there.
#[derive(Clone, Copy, Debug, PartialEq, Eq)]
pub struct Spot {
    pub actor: Actor,
    pub turn: u64,
}

/// What an actor passes as a turn begins. A pass promises nothing, and takes no memory.
pub trait Gate {
    fn pass(&self, spot: Spot);

    /// Is told after each bout how many of the batches of all feeders were sent. It promises nothing, too.
    fn fed(&self, _sent: u64, _batches: u64) {}

    /// Takes what a run needs no more, and drops it, unless a gate gives it a body. It promises nothing, too.
    fn let_go<T: Drop>(&self, held: T) {
        drop(held);
    }
}

/// A gate that stands open.
#[derive(Clone, Copy, Debug, PartialEq, Eq)]
pub struct NoGate;

impl Gate for NoGate {
    fn pass(&self, _spot: Spot) {}
}
