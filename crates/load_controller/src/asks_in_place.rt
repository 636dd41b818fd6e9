// What becomes of a message: one that is in place is counted, a joiner's may be held until it is, and any other is passed
// over.

ghost use Rattle.std.specs.Prelude.{◌≡◌, ◌+◌, ◌^◌, ◌<◌, ◌≤◌, ◌∷◌, ◌↔◌, IsTrue, List, reverse, true, false, OnOk};
ghost use Rattle.epoch_tags.specs.declared.actor.Actor.TheVariants.{Feeder, Joiner};
ghost use Rattle.load_controller.specs.Law as law;
ghost use Rattle.load_controller.specs.Standing.{IsPassedOver, TakesMessage, PassesOver};
ghost use Rattle.load_controller.specs.Machine.{IsSound, HasPlace, rules_of, state_of};
ghost use Rattle.load_controller.specs.declared.line.TurnLine.{TurnLine};

use crate::ledger::{Ledger, joiners};
use crate::line::Cause;
use epoch_tags::{Actor, Sends, ToController};
use std::alloc::AllocError;

// The most rows that are counted of a side.
const MOST_ROWS: u64 = 4_294_967_296;

// The cause of the line that counts a feeder's message.
fn cause_of(feeder: u32, m: ToController) -> Cause
    ensures { result ≡ law.cause_of feeder m }
{
    match m {
        ToController::Ask { dr, ds } => Cause::Count { feeder, dr, ds },
        ToController::Drained => Cause::Drain { feeder },
        ToController::Settled { .. } => Cause::Start,
    }
}

impl Ledger {
    // Whether the feeder's message is in place.
    fn has_place(&self, feeder: u32, m: ToController) -> bool
        requires { IsSound self.now }
        ensures { IsTrue result ↔ HasPlace self.now feeder m }
    {
        if feeder >= self.feeders || self.drained[feeder as usize] {
            return false;
        }
        match m {
            ToController::Ask { dr, ds } => {
                self.line.rows_r + u64::from(dr) <= MOST_ROWS
                    && self.line.rows_s + u64::from(ds) <= MOST_ROWS
            }
            ToController::Drained => true,
            ToController::Settled { .. } => false,
        }
    }

    // Counts a feeder's message where it is in place.
    fn receive_of_feeder(
        &mut self,
        feeder: u32,
        m: ToController,
        sends: &mut Sends,
    ) -> Result<(), AllocError>
        requires { IsSound self.old }
        ensures sound { IsSound self.new }
        ensures takes { OnOk result (TakesMessage (Feeder feeder) m (state_of self.old false)
            (state_of self.new false) sends.old sends.new) }
        ensures passes { OnOk result ((line : TurnLine) (past : List TurnLine)
            → reverse self.old.journal ≡ line ∷ past
            → IsPassedOver (rules_of self.old) line past (Feeder feeder) m
            → PassesOver (state_of self.old false) (state_of self.new false) sends.old sends.new) }
    {
        if !self.has_place(feeder, m) {
            return Ok(());
        }
        self.count(cause_of(feeder, m), sends)?;
        self.count_held(sends)?;
        Ok(())
    }

    // Holds a joiner's message, and counts what is then in place.
    fn receive_of_joiner(
        &mut self,
        joiner: u32,
        m: ToController,
        sends: &mut Sends,
    ) -> Result<(), AllocError>
        requires { IsSound self.old }
        ensures sound { IsSound self.new }
        ensures takes { OnOk result (TakesMessage (Joiner joiner) m (state_of self.old false)
            (state_of self.new false) sends.old sends.new) }
        ensures passes { OnOk result ((line : TurnLine) (past : List TurnLine)
            → reverse self.old.journal ≡ line ∷ past
            → IsPassedOver (rules_of self.old) line past (Joiner joiner) m
            → PassesOver (state_of self.old false) (state_of self.new false) sends.old sends.new) }
    {
        match m {
            ToController::Ask { .. } => Ok(()),
            ToController::Drained => Ok(()),
            ToController::Settled { epoch } => {
                if joiner >= joiners(self.k) {
                    return Ok(());
                }
                self.held.hold(joiner as usize, epoch)?;
                self.count_held(sends)?;
                Ok(())
            }
        }
    }

    // Counts, holds or passes over a message.
    pub(crate) fn receive(
        &mut self,
        from: Actor,
        m: ToController,
        sends: &mut Sends,
    ) -> Result<(), AllocError>
        requires { IsSound self.old }
        ensures sound { IsSound self.new }
        ensures takes { OnOk result (TakesMessage from m (state_of self.old false)
            (state_of self.new false) sends.old sends.new) }
        ensures passes { OnOk result ((line : TurnLine) (past : List TurnLine)
            → reverse self.old.journal ≡ line ∷ past
            → IsPassedOver (rules_of self.old) line past from m
            → PassesOver (state_of self.old false) (state_of self.new false) sends.old sends.new) }
    {
        match from {
            Actor::Feeder(feeder) => self.receive_of_feeder(feeder, m, sends)?,
            Actor::Joiner(joiner) => self.receive_of_joiner(joiner, m, sends)?,
            Actor::Controller => {}
            Actor::Collector => {}
        }
        Ok(())
    }
}
