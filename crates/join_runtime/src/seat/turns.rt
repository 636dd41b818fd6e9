// The turns of a seat in one bout.

ghost use Rattle.std.specs.Prelude.{◌≡◌, ◌<◌, OnOk};
ghost use Rattle.join_runtime.specs.Views.{frame_of};
ghost use Rattle.join_runtime.specs.Turns.{Steps, Works};

use crate::seat::Seat;
use actor_core::{Core, Step};
use std::alloc::AllocError;
use std::sync::Wait;
use worker_gate::Gate;

// The most turns of one seat in one bout, those ahead of the others among them.
const TURNS: u64 = 256;

// The most turns of a feeder or of the controller in one round ahead of the others.
const TURNS_AHEAD: u64 = 16;

impl<'a> Seat<'a> {
    // Turns until the seat is idle or has had so many.
    fn turns_up_to<R: Wait, G: Gate>(&mut self, rt: &R, gate: &G, most: u64)
        requires { 0 < most }
        ensures { Works self.old self.new }
    {
        for round in 0..most {
            match self.turn(rt, gate) {
                Ok(Step::Took) => {}
                Ok(Step::Idle) => return,
                Err(_) => return,
            }
        }
    }

    // How many turns it may still have in this bout.
    fn turns_left(&self) -> u64 {
        TURNS.saturating_sub(self.turns.saturating_sub(self.turns_before))
    }

    // The last turns of one bout: until the seat is idle or has had 256.
    pub(crate) fn turns<R: Wait, G: Gate>(&mut self, rt: &R, gate: &G)
        ensures { Works self.old self.new }
    {
        let most = self.turns_left().max(1);
        self.turns_up_to(rt, gate, most);
        self.turns_before = self.turns;
    }

    // Whether it is a feeder's or the controller's, which have turns ahead of the others.
    fn goes_ahead(&self) -> bool {
        match &self.core {
            Core::Feeder(_) => true,
            Core::Controller(_) => true,
            _ => false,
        }
    }

    // Whether it has had no turn.
    pub(crate) fn is_new(&self) -> bool {
        self.turns == 0
    }

    // Whether more messages are known to be left for it than it can take in one bout.
    pub(crate) fn is_crowded(&self) -> bool {
        self.inbox.known() > TURNS
    }

    // The turns of one round ahead of the others, if it goes ahead: until it is idle or has had 16, and never the last
    // that it may have in this bout.
    pub(crate) fn turns_ahead<R: Wait, G: Gate>(
        &mut self,
        rt: &R,
        gate: &G,
    ) -> Result<(), AllocError>
        ensures ok { OnOk result (Steps self.old self.new) }
        ensures frame { frame_of self.new ≡ frame_of self.old }
    {
        if !self.goes_ahead() {
            return Ok(());
        }
        for round in 0..self.turns_left().saturating_sub(1).min(TURNS_AHEAD) {
            match self.turn(rt, gate) {
                Ok(Step::Took) => {}
                Ok(Step::Idle) => return Ok(()),
                Err(fault) => return Err(fault),
            }
        }
        Ok(())
    }
}
