// An actor's machine with the ends of its rings and its outlets.

mod turns;

ghost use Rattle.std.specs.Prelude.{◌≡◌, ◌<◌, Ok, Some, true, false, OnOk, OnErr, IfOk, [], None, length, map, slice_set, slice_index_or};
ghost use Rattle.actor_core.specs.Lists.{Took};
ghost use Rattle.actor_core.specs.Numbers as numbers;
ghost use Rattle.actor_core.specs.Standing.{IsLive, Waits};
ghost use Rattle.actor_core.specs.Players.{is_complete_core};
ghost use Rattle.ring_runtime.specs.declared.seat.RingStep.TheVariants.{Took as Took', Moved as Moved', Idle as Idle'};
ghost use Rattle.ring_runtime.specs.Seats.{AllStuck, NoneKnown, frame_of, in_address, player_of};
ghost use Rattle.ring_runtime.specs.Bouts.{IsAtRest, IsBusy};
ghost use Rattle.ring_runtime.specs.Joins.{AreEndsOf, HoldsIn};
ghost use Rattle.ring_runtime.specs.Endings.{end_of};
ghost use Rattle.ring_runtime.specs.Turns.{IsIdle, MakesTurn, Moves, Opens, Receives};

use crate::ends::RingEnd;
use crate::inlets::Inlets;
use crate::outlets::Outlets;
use actor_core::{Cast, Core};
use epoch_tags::{Actor, Envelope, Sends};
use ring_links::{Outlet, RingIn};
use std::alloc::{AllocError, Global};
use std::marker::Model;
use worker_gate::{Gate, Spot};

/// What became of a turn.
#[derive(Clone, Copy, Debug, PartialEq, Eq)]
pub enum RingStep {
    /// One event was made.
    Took,
    /// No event was made, and a message left an outlet.
    Moved,
    /// Neither.
    Idle,
}

/// An actor's machine, with the end of a ring from each actor that sends to it, and an outlet to each to which it
/// sends.
#[derive(Drop)]
pub struct RingSeat<'a> {
    cast: Cast,
    actor: Actor,
    core: Core<'a>,
    ins: Inlets,
    outs: Outlets,
    // How many turns it has had.
    turns: u64,
    spent: bool,
    alloc: Global,
}

impl<'a> Model for RingSeat<'a> {
    ghost use Rattle.ring_runtime.specs.Seats.{RingSeatView};
    ghost use Rattle.std.specs.Coded.{codes};
    ghost use Rattle.theta_pred.specs.FormulaCode.{formula_code};

    ghost Value = { RingSeatView };

    ghost coded = { Prim.hlevel (codes, formula_code (Prim.hlevel codes)) };

    ghost view = { λ seat. record {
      cast = seat.cast;
      actor = seat.actor;
      core = seat.core;
      ins = seat.ins;
      outs = seat.outs;
      spent = seat.spent;
    } };
}

// Whether a message that was taken at this place names the actor with that number.
fn is_from(cast: Cast, m: &Envelope, place: usize) -> bool
    ensures { result ≡ true → numbers.number cast m.now.from ≡ Some place }
{
    match cast.number(m.from) {
        Some(sender) => sender == place,
        None => false,
    }
}

// Takes a message, where there is one. An error: it names another sender than that of its ring.
fn receive(ins: &mut Inlets, cast: Cast) -> Result<Option<Envelope>, AllocError>
    ensures received { IfOk result (λ taken. Receives cast taken ins.old ins.new) }
    ensures rings { map in_address ins.new ≡ map in_address ins.old }
{
    match ins.take() {
        Some((place, m)) => {
            if is_from(cast, &m, place) {
                Ok(Some(m))
            } else {
                Err(AllocError)
            }
        }
        None => Ok(None),
    }
}

// Takes a message, or begins where there is none, and calls the machine; false where there was nothing to do.
fn open(
    core: &mut Core,
    ins: &mut Inlets,
    cast: Cast,
    sends: &mut Sends,
) -> Result<bool, AllocError>
    ensures rings { map in_address ins.new ≡ map in_address ins.old }
    ensures opens { IfOk result (λ took. Opens took cast core.old core.new
        ins.old ins.new sends.old sends.new) }
{
    match receive(ins, cast)? {
        Some(Envelope { from, msg }) => {
            core.on(from, msg, sends)?;
            Ok(true)
        }
        None => core.begin(sends),
    }
}

impl<'a> RingSeat<'a> {
    /// A seat that has had no turn, of an actor of a run.
    pub fn new(
        alloc: Global,
        cast: Cast,
        actor: Actor,
        core: Core<'a>,
        ins: Inlets,
        outs: Outlets,
    ) -> RingSeat<'a>
        ensures { result ≡ record {
          cast = cast;
          actor = actor;
          core = core.entry;
          ins = ins;
          outs = outs;
          spent = false;
        } }
    {
        RingSeat {
            cast,
            actor,
            core,
            ins,
            outs,
            turns: 0,
            spent: false,
            alloc,
        }
    }

    /// Gets the end of the ring from the actor of this number: the feeders from 0, then the joiners, the
    /// controller and the collector. AllocError where there is no such place.
    pub fn put_in(&mut self, place: usize, inn: RingIn) -> Result<(), AllocError>
        ensures { OnOk result ((place < length self.old.ins)
            × (self.new ≡ record self.old { ins = slice_set self.old.ins place (Some inn) })) }
    {
        self.ins.put(place, inn)
    }

    /// Gets the outlet to the actor of this number, counted so. AllocError where there is no such place.
    pub fn put_out(&mut self, place: usize, outlet: Outlet) -> Result<(), AllocError>
        ensures { OnOk result ((place < length self.old.outs)
            × (self.new ≡ record self.old { outs = slice_set self.old.outs place (Some outlet) })) }
    {
        self.outs.put(place, outlet)
    }

    // Its outlets, which are no longer there.
    pub(crate) fn take_outs(&mut self) -> Vec<Option<Outlet>>
        ensures outs { result.items ≡ self.old.outs }
        ensures rest { self.new ≡ record self.old { outs = [] } }
    {
        self.outs.take_slots(self.alloc)
    }

    // Its outlets are these.
    pub(crate) fn give_outs(&mut self, outs: Vec<Option<Outlet>>)
        ensures { self.new ≡ record self.old { outs = outs.items } }
    {
        self.outs.give_slots(outs);
    }

    // Holds an outlet of the actor of this number and the end to which it leads together, where there are two.
    pub(crate) fn hold_in(&mut self, sender: usize, out: &mut Option<Outlet>)
        requires { AreEndsOf out.old (slice_index_or self.old.ins sender None) }
        ensures { HoldsIn sender out.old self.old out.new self.new }
    {
        self.ins.hold(sender, out);
    }

    // Whether nothing is known to be left for it, its machine would not begin, and nothing waits in its outlets.
    pub(crate) fn rests(&self) -> bool
        ensures rests { result ≡ true → IsAtRest self.now }
        ensures busy { result ≡ false → IsLive self.now.core → IsBusy self.now }
    {
        !self.ins.any_known() && !self.core.can_begin() && !self.outs.any_waits()
    }

    pub(crate) fn is_spent(&self) -> bool
        ensures { result ≡ self.now.spent }
    {
        self.spent
    }

    // Whether it is a collector that is complete.
    pub(crate) fn is_complete(&self) -> bool
        ensures { result ≡ is_complete_core self.now.core }
    {
        match &self.core {
            Core::Collector(collector) => collector.complete(),
            _ => false,
        }
    }

    // How many batches its feeder hasn't sent, if it is one.
    pub(crate) fn batches_left(&self) -> u64 {
        match &self.core {
            Core::Feeder(feeder) => feeder.batches_left(),
            _ => 0,
        }
    }

    // Its machine, and what else it leaves.
    pub(crate) fn into_parts(self) -> (Core<'a>, RingEnd)
        ensures core { result.0 ≡ self.entry.core }
        ensures end { result.1 ≡ end_of self.entry }
    {
        let RingSeat {
            cast,
            core,
            ins,
            outs,
            ..
        } = self;
        (core, RingEnd { cast, ins, outs })
    }

    // One event, if there is one to make: its posts wait behind the others.
    fn event(&mut self) -> Result<bool, AllocError>
        ensures took { result ≡ Ok true
            → MakesTurn self.old.ins (player_of self.old) (player_of self.new) }
        ensures idle { result ≡ Ok false → self.new ≡ self.old }
        ensures none_known { result ≡ Ok false → NoneKnown self.old.ins }
        ensures waits { result ≡ Ok false → Waits self.old.core }
        ensures frame { frame_of self.new ≡ frame_of self.old }
        ensures spent { self.new.spent ≡ self.old.spent }
    {
        let mut sends = Sends::new(self.alloc);
        let took = open(&mut self.core, &mut self.ins, self.cast, &mut sends)?;
        if took {
            self.outs.post_all(self.cast, sends)?;
        }
        Ok(took)
    }

    /// Passes the gate, puts from its outlets what finds a place, in order, and then makes one event if it can: takes
    /// one message, or where there is none and the machine is a feeder's, begins; what the machine sends waits behind
    /// the others of its outlet. A strange message is answered by the error, and so is one to an actor to which there
    /// is no ring. After an error the seat is spent. It waits for nothing.
    pub fn turn<G: Gate>(&mut self, gate: &G) -> Result<RingStep, AllocError>
        ensures took { result ≡ Ok Took'
            → MakesTurn self.old.ins (player_of self.old) (player_of self.new) }
        ensures moved { result ≡ Ok Moved' → Moves self.old self.new }
        ensures idle { result ≡ Ok Idle' → IsIdle self.old self.new }
        ensures none_known { IfOk result (λ step. ¬ (step ≡ Took') → NoneKnown self.old.ins) }
        ensures waits { IfOk result (λ step. ¬ (step ≡ Took') → Waits self.old.core) }
        ensures stuck { result ≡ Ok Idle' → AllStuck self.old.outs }
        ensures goes_on { OnOk result ((self.old.spent ≡ false) × (self.new.spent ≡ false)) }
        ensures fails { OnErr result (self.new.spent ≡ true) }
        ensures spent { self.old.spent ≡ true → self.new ≡ self.old }
        ensures frame { frame_of self.new ≡ frame_of self.old }
    {
        gate.pass(Spot {
            actor: self.actor,
            turn: self.turns,
        });
        self.turns = self.turns.saturating_add(1);
        if self.spent {
            return Err(AllocError);
        }
        self.spent = true;
        let moved = self.outs.flush();
        let took = self.event()?;
        self.spent = false;
        match (took, moved) {
            (true, _) => Ok(RingStep::Took),
            (false, true) => Ok(RingStep::Moved),
            (false, false) => Ok(RingStep::Idle),
        }
    }
}
