// What a joiner accepts at all: from whom it hears, and which rows fit.

ghost use Rattle.std.specs.Prelude.{◌≡◌, ◌≤◌, ◌<◌, true, false};
ghost use Rattle.epoch_tags.specs.declared.actor.Actor.TheVariants.{Joiner as Joiner'};
ghost use Rattle.epoch_tags.specs.Links.{HasLink};
ghost use Rattle.joiner_core.specs.State.{DifferInOneBit, HasRow, IsRow};

use super::{Epochs, joiners};
use epoch_tags::{Actor, ToJoiner, Tuple};
use row_cells::Side;
use theta_pred::Theta;

// Whether two joiners of 2 ^ k differ in one bit of their ids.
fn differ_in_one_bit(k: u32, from: u32, to: u32) -> bool
    requires { k ≤ 8 }
    ensures up { result ≡ true → DifferInOneBit k from to }
    ensures down { result ≡ false → ¬ DifferInOneBit k from to }
{
    for low in 0..k {
        if from ^ (1u32 << low) == to {
            return true;
        }
    }
    false
}

// Whether this sender has a link to joiner `id` of 2 ^ k, of a run with so many feeders.
fn has_link(k: u32, id: u32, feeders: u32, from: Actor) -> bool
    requires { k ≤ 8 }
    ensures up { result ≡ true → HasLink k feeders from (Joiner' id) }
    ensures down { result ≡ false → ¬ HasLink k feeders from (Joiner' id) }
{
    let count = joiners(k);
    if id >= count {
        return false;
    }
    match from {
        Actor::Feeder(p) => p < feeders,
        Actor::Joiner(q) => q < count && differ_in_one_bit(k, q, id),
        Actor::Controller => false,
        Actor::Collector => false,
    }
}

// Whether the tuple has a cell for each column of its side.
fn is_row(theta: &Theta, tuple: &Tuple) -> bool
    ensures up { result ≡ true → IsRow theta.now tuple.now }
    ensures down { result ≡ false → IsRow theta.now tuple.now → ⊥ }
{
    match tuple.side {
        Side::R => tuple.cells.len() == theta.width_r(),
        Side::S => tuple.cells.len() == theta.width_s(),
    }
}

// So has the tuple that a message carries, if it carries one.
fn has_row(theta: &Theta, m: &ToJoiner) -> bool
    ensures up { result ≡ true → HasRow theta.now m.now }
    ensures down { result ≡ false → HasRow theta.now m.now → ⊥ }
{
    match m {
        ToJoiner::Tup(tuple) => is_row(theta, tuple),
        ToJoiner::Moved { tuple, .. } => is_row(theta, tuple),
        ToJoiner::Turn { .. } => true,
        ToJoiner::MovedEnd { .. } => true,
        ToJoiner::End => true,
    }
}

impl<'a> Epochs<'a> {
    // Whether this sender has a link to this joiner.
    pub(crate) fn hears(&self, from: Actor) -> bool
        requires { self.now.k ≤ 8 }
        ensures up { result ≡ true
            → HasLink self.now.k self.now.feeders from (Joiner' self.now.id) }
        ensures down { result ≡ false
            → ¬ HasLink self.now.k self.now.feeders from (Joiner' self.now.id) }
    {
        has_link(self.k, self.id, self.feeders, from)
    }

    // Whether the row that the message carries, if it carries one, has the predicate's widths.
    pub(crate) fn fits(&self, m: &ToJoiner) -> bool
        ensures up { result ≡ true → HasRow self.now.theta m.now }
        ensures down { result ≡ false → HasRow self.now.theta m.now → ⊥ }
    {
        has_row(self.theta, m)
    }
}
