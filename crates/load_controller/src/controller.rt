// The controller's machine.

ghost use Rattle.std.specs.Prelude.{◌≡◌, ◌<◌, ◌≤◌, ◌^◌, ◌∷◌, List, All, reverse, length, not, true, false, Err, alloc_error, IfOk, OnOk, OnErr};
ghost use Rattle.load_controller.specs.declared.line.TurnLine.{TurnLine};
ghost use Rattle.std.specs.Option.{ForSome};
ghost use Rattle.grid_map.specs.Load.{AreWeights};
ghost use Rattle.load_controller.specs.Journal.{IsFirst, Fits, start_line};
ghost use Rattle.load_controller.specs.Standing.{IsFresh, IsNearWhereStill, IsPassedOver, PassesOver, TakesMessage, rules_with};

use crate::ledger::Ledger;
use crate::line::{Cause, Journal, TurnLine};
use epoch_tags::{Actor, Sends, ToController};
use grid_map::Weights;
use std::alloc::{AllocError, Global};
use std::marker::Model;

/// It counts the feeders' batches and orders the steps of migrations. It keeps its journal, and no
/// list of messages.
#[derive(Drop)]
pub struct Controller {
    ledger: Ledger,
    spent: bool,
}

impl Model for Controller {
    ghost use Rattle.load_controller.specs.Standing.{ControllerState};

    ghost Value = { ControllerState };

    ghost use Rattle.load_controller.specs.Machine.{IsSound, state_of};

    ghost view = { λ c. state_of c.ledger c.spent };

    ghost invariant = { λ c. IsSound c.ledger };
}

impl Controller {
    /// A controller at the beginning of a run with 2^k joiners, at the shift that is `fixed`, or else
    /// at half of k. Its journal has one line.
    pub fn start(
        alloc: Global,
        k: u32,
        feeders: u32,
        fixed: Option<u32>,
        weights: Weights,
    ) -> Result<Controller, AllocError>
        requires k { k ≤ 8 }
        requires weights { AreWeights weights }
        requires shift { ForSome fixed (λ shift. shift ≤ k) }
        ensures { IfOk result (λ controller.
            IsFresh (rules_with k feeders fixed weights)
            (start_line (rules_with k feeders fixed weights)) controller) }
    {
        let shift = fixed.unwrap_or(k / 2);
        let line = TurnLine {
            cause: Cause::Start,
            rows_r: 0,
            rows_s: 0,
            base_r: 0,
            base_s: 0,
            epoch: 0,
            shift,
            goal: shift,
            moving: false,
        };
        Controller::start_at(alloc, k, feeders, fixed, weights, line)
    }

    /// A controller that goes on from this line's numbers. Its journal has this one line.
    pub fn start_at(
        alloc: Global,
        k: u32,
        feeders: u32,
        fixed: Option<u32>,
        weights: Weights,
        line: TurnLine,
    ) -> Result<Controller, AllocError>
        requires k { k ≤ 8 }
        requires weights { AreWeights weights }
        requires fits { Fits (rules_with k feeders fixed weights) line }
        requires cause { IsFirst line.cause }
        requires epoch { line.epoch ≤ 2 ^ 31 }
        ensures { IfOk result
            (λ controller. IsFresh (rules_with k feeders fixed weights) line controller) }
    {
        Ok(Controller {
            ledger: Ledger::start_at(alloc, k, feeders, fixed, weights, line)?,
            spent: false,
        })
    }

    /// Takes a message of this sender: counts it, holds it or passes it over, and appends what is
    /// sent. A message that isn't in place, or of another sender or kind, is passed over: it adds no
    /// line, and nothing is sent for it. After an error the controller is spent: each later call
    /// answers the error, and changes nothing.
    pub fn on(&mut self, from: Actor, m: ToController, sends: &mut Sends) -> Result<(), AllocError>
        ensures takes { OnOk result (TakesMessage from m self.old self.new sends.old sends.new) }
        ensures passes { OnOk result ((line : TurnLine) (past : List TurnLine)
            → reverse self.old.journal ≡ line ∷ past
            → IsPassedOver self.old.rules line past from m
            → PassesOver self.old self.new sends.old sends.new) }
        ensures goes_on { OnOk result ((self.old.spent ≡ false) × (self.new.spent ≡ false)) }
        ensures fails { OnErr result (self.new.spent ≡ true) }
        ensures spent { self.old.spent ≡ true
            → (result ≡ Err alloc_error) × (self.new ≡ self.old) × (sends.new ≡ sends.old) }
    {
        if self.spent {
            return Err(AllocError);
        }
        match self.ledger.receive(from, m, sends) {
            Ok(()) => Ok(()),
            Err(error) => {
                self.spent = true;
                Err(error)
            }
        }
    }

    /// The lines so far, the first one included.
    pub fn journal(&self) -> &Journal
        ensures value { result.now ≡ self.now.journal }
        ensures begun { 0 < length result.now }
        // where no shift is fixed, four times the grid's copies are at most five times the best's
        ensures near { All (IsNearWhereStill self.now.rules) result.now }
    {
        &self.ledger.journal
    }

    /// Whether no step is under way.
    pub fn idle(&self) -> bool
        ensures { (line : TurnLine) (past : List TurnLine) → reverse self.now.journal ≡ line ∷ past
            → result ≡ not line.moving }
    {
        !self.ledger.line.moving
    }
}
