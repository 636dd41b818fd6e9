// The turns of one seat in one bout.

ghost use Rattle.std.specs.Prelude.{◌≡◌, ◌<◌};
ghost use Rattle.ring_runtime.specs.Turns.{Works};

use crate::seat::{RingSeat, RingStep};
use worker_gate::Gate;

// The most turns of one seat in one bout.
const TURNS: u64 = 256;

impl<'a> RingSeat<'a> {
    // Turns until the seat is idle or has had 256.
    pub(crate) fn turns<G: Gate>(&mut self, gate: &G)
        ensures { Works self.old self.new }
    {
        for round in 0..TURNS {
            match self.turn(gate) {
                Ok(RingStep::Took) => {}
                Ok(RingStep::Moved) => {}
                Ok(RingStep::Idle) => return,
                Err(_) => return,
            }
        }
    }
}
