// An actor's machine with its inbox and its mouths.

mod turns;

ghost use Rattle.std.specs.Prelude.{◌≡◌, ◌<◌, ◌+◌, ◌^◌, ℕ, Ok, true, false, None, Some, [], OnOk, OnErr, IfOk, length, slice_set, slice_index_or};
ghost use Rattle.actor_core.specs.declared.step.Step.TheVariants.{Took as Took', Idle as Idle'};
ghost use Rattle.actor_core.specs.Standing.{Waits, IsLive};
ghost use Rattle.actor_core.specs.Players.{is_complete_core};
ghost use Rattle.ruled_links.specs.Inboxes.{IsSameInbox, all_known};
ghost use Rattle.epoch_tags.specs.declared.actor.Actor.TheVariants.{Collector as Collector'};
ghost use Rattle.join_runtime.specs.Kinds.{IsMachineOf};
ghost use Rattle.join_runtime.specs.Views.{frame_of};
ghost use Rattle.join_runtime.specs.Turns.{MakesTurn, Opens, Rests};
ghost use Rattle.join_runtime.specs.Serving.{IsServed};
ghost use Rattle.join_runtime.specs.Joins.{IsSlotOf, Tells};
ghost use Rattle.join_runtime.specs.Bouts.{IsReady};
ghost use Rattle.join_runtime.specs.Endings.{end_of};
ghost use Rattle.join_runtime.specs.Early.{Gives};

use crate::ends::End;
use crate::mouths::put_all;
use actor_core::{Cast, Core, Step};
use epoch_tags::{Actor, Envelope, Pairs, Sends};
use ruled_links::{Inbox, Mouth, gather_mouth};
use std::alloc::{AllocError, Global};
use std::marker::Model;
use std::mem;
use std::sync::Wait;
use worker_gate::{Gate, Spot};

/// An actor's machine with its inbox, and a mouth for each actor to which it sends.
#[derive(Drop)]
pub struct Seat<'a> {
    cast: Cast,
    actor: Actor,
    core: Core<'a>,
    inbox: Inbox,
    // By the numbers of actors.
    mouths: Vec<Option<Mouth>>,
    // How many turns it has had, and how many of them before this bout.
    turns: u64,
    turns_before: u64,
    // While it isn't, there is a mouth for each actor to which the machine may send.
    spent: bool,
    alloc: Global,
}

impl<'a> Model for Seat<'a> {
    ghost use Rattle.std.specs.Prelude.{◌≡◌, false};
    ghost use Rattle.join_runtime.specs.Views.{SeatView};
    ghost use Rattle.join_runtime.specs.Serving.{IsServed};
    ghost use Rattle.std.specs.Coded.{codes};
    ghost use Rattle.theta_pred.specs.FormulaCode.{formula_code};

    ghost Value = { SeatView };

    ghost coded = { Prim.hlevel (codes, formula_code (Prim.hlevel codes)) };

    ghost view = { λ seat. record {
      cast = seat.cast;
      actor = seat.actor;
      core = seat.core;
      inbox = seat.inbox;
      mouths = seat.mouths.items;
      spent = seat.spent;
    } };

    ghost invariant = { λ seat. seat.spent ≡ false
        → IsServed seat.cast seat.mouths.items seat.core };
}

// Takes a message, or begins where there is none, and calls the machine.
fn open<R: Wait>(
    rt: &R,
    core: &mut Core,
    inbox: &mut Inbox,
    sends: &mut Sends,
) -> Result<Step, AllocError>
    ensures inbox { IsSameInbox inbox.old inbox.new }
    ensures opens { IfOk result
        (λ step. Opens step core.old core.new inbox.old inbox.new sends.old sends.new) }
{
    match inbox.take(rt) {
        Some(Envelope { from, msg }) => {
            core.on(from, msg, sends)?;
            Ok(Step::Took)
        }
        None => {
            if core.begin(sends)? {
                Ok(Step::Took)
            } else {
                Ok(Step::Idle)
            }
        }
    }
}

// So many places for mouths.
pub(crate) fn no_mouths(alloc: Global, count: u32) -> Result<Vec<Option<Mouth>>, AllocError>
    ensures many { IfOk result (λ mouths. length mouths.items ≡ count) }
    ensures none { IfOk result (λ mouths. (n : ℕ) → slice_index_or mouths.items n None ≡ None) }
{
    let mut mouths = Vec::new(alloc);
    for _ in 0..count {
        mouths.push(None)?;
    }
    Ok(mouths)
}

impl<'a> Seat<'a> {
    // A seat that has had no turn, and that has none before it is awake.
    pub(crate) fn new(
        alloc: Global,
        cast: Cast,
        actor: Actor,
        core: Core<'a>,
        inbox: Inbox,
        mouths: Vec<Option<Mouth>>,
    ) -> Seat<'a>
        ensures { result ≡ record {
          cast = cast;
          actor = actor;
          core = core.entry;
          inbox = inbox;
          mouths = mouths.items;
          spent = true;
        } }
    {
        Seat {
            cast,
            actor,
            core,
            inbox,
            mouths,
            turns: 0,
            turns_before: 0,
            spent: true,
            alloc,
        }
    }

    // It has its mouths, and may have turns.
    pub(crate) fn wake(&mut self)
        requires { IsServed self.old.cast self.old.mouths self.old.core }
        ensures { self.new ≡ record self.old { spent = false } }
    {
        self.spent = false;
    }

    // Takes a mouth to the actor with this number, for which it has a place.
    pub(crate) fn put_mouth(&mut self, receiver: usize, mouth: Mouth)
        requires { receiver < length self.old.mouths }
        ensures { self.new
            ≡ record self.old { mouths = slice_set self.old.mouths receiver (Some mouth) } }
    {
        self.mouths[receiver] = Some(mouth);
    }

    /// Passes the gate, and makes one event: takes one message, or where there is none and the machine is a feeder's,
    /// begins; then puts what the machine sends, in order. `Idle`: this turn's pop found none, and no feeder began. A
    /// strange message is answered by the error. After an error the seat is spent.
    pub fn turn<R: Wait, G: Gate>(&mut self, rt: &R, gate: &G) -> Result<Step, AllocError>
        ensures took { result ≡ Ok Took' → MakesTurn self.old self.new }
        ensures idle { result ≡ Ok Idle' → self.new ≡ self.old }
        ensures none_known { result ≡ Ok Idle' → all_known self.old.inbox.senders ≡ 0 }
        ensures waits { result ≡ Ok Idle' → Waits self.old.core }
        ensures goes_on { OnOk result ((self.old.spent ≡ false) × (self.new.spent ≡ false)) }
        ensures fails { OnErr result (self.new.spent ≡ true) }
        ensures spent { self.old.spent ≡ true → self.new ≡ self.old }
        ensures frame { frame_of self.new ≡ frame_of self.old }
    {
        gate.pass(Spot {
            actor: self.actor,
            turn: self.turns,
        });
        self.turns = self.turns.saturating_add(1);
        if self.spent {
            return Err(AllocError);
        }
        self.spent = true;
        let step = self.event(rt)?;
        self.spent = false;
        Ok(step)
    }

    // The event of a turn, in which the seat is spent.
    fn event<R: Wait>(&mut self, rt: &R) -> Result<Step, AllocError>
        requires spent { self.old.spent ≡ true }
        requires served { IsServed self.old.cast self.old.mouths self.old.core }
        ensures took { result ≡ Ok Took' → MakesTurn self.old self.new }
        ensures idle { result ≡ Ok Idle' → self.new ≡ self.old }
        ensures none_known { result ≡ Ok Idle' → all_known self.old.inbox.senders ≡ 0 }
        ensures waits { result ≡ Ok Idle' → Waits self.old.core }
        ensures frame { frame_of self.new ≡ frame_of self.old }
        ensures spent { self.new.spent ≡ self.old.spent }
        ensures served { OnOk result
            (IsServed self.new.cast self.new.mouths self.new.core) }
    {
        let mut sends = Sends::new(self.alloc);
        match open(rt, &mut self.core, &mut self.inbox, &mut sends)? {
            Step::Idle => Ok(Step::Idle),
            Step::Took => {
                put_all(rt, &mut self.mouths, self.cast, sends)?;
                Ok(Step::Took)
            }
        }
    }

    // Whether it is a collector that is complete.
    pub(crate) fn is_complete(&self) -> bool
        ensures { result ≡ is_complete_core self.now.core }
    {
        match &self.core {
            Core::Collector(collector) => collector.complete(),
            _ => false,
        }
    }

    // The pairs that its collector took since the last call of this that answered `Ok`.
    pub(crate) fn fresh(&mut self) -> Result<Pairs, AllocError>
        requires { IsMachineOf self.old.core Collector' }
        ensures gives { IfOk result (λ pairs. Gives self.old.core self.new.core pairs) }
        ensures rest { self.new ≡ record self.old { core = self.new.core } }
        ensures fails { OnErr result (self.new ≡ self.old) }
    {
        match &mut self.core {
            Core::Collector(collector) => collector.fresh(),
            _ => unreachable!(),
        }
    }

    // How many batches its feeder hasn't sent, if it is one.
    pub(crate) fn batches_left(&self) -> u64 {
        match &self.core {
            Core::Feeder(feeder) => feeder.batches_left(),
            _ => 0,
        }
    }

    // Its machine, and what else it leaves.
    pub(crate) fn into_parts(self) -> (Core<'a>, End)
        ensures core { result.0 ≡ self.entry.core }
        ensures end { result.1 ≡ end_of self.entry }
    {
        let Seat {
            cast,
            core,
            inbox,
            mouths,
            ..
        } = self;
        (
            core,
            End {
                cast,
                inbox,
                mouths,
            },
        )
    }

    // Whether nothing is known to be left for it, and its machine would not begin.
    pub(crate) fn rests(&self) -> bool
        ensures rests { result ≡ true → Rests self.now.core self.now.inbox }
        ensures ready { result ≡ false → IsLive self.now.core → IsReady self.now }
    {
        self.inbox.known() == 0 && !self.core.can_begin()
    }

    pub(crate) fn is_spent(&self) -> bool
        ensures { result ≡ self.now.spent }
    {
        self.spent
    }

    // As long as its mouths are away it is spent.
    pub(crate) fn take_mouths(&mut self) -> Vec<Option<Mouth>>
        ensures mouths { result.items ≡ self.old.mouths }
        ensures rest { self.new ≡ record self.old { mouths = []; spent = true } }
        ensures served { self.old.spent ≡ false
            → IsServed self.old.cast self.old.mouths self.old.core }
    {
        self.spent = true;
        mem::replace(&mut self.mouths, Vec::new(self.alloc))
    }

    // Takes its mouths back, and isn't spent.
    pub(crate) fn give_mouths(&mut self, mouths: Vec<Option<Mouth>>)
        requires { IsServed self.old.cast mouths.items self.old.core }
        ensures { self.new ≡ record self.old { mouths = mouths.items; spent = false } }
    {
        self.mouths = mouths;
        self.spent = false;
    }

    // Holds its inbox and a mouth that leads there together, where there is one.
    pub(crate) fn gather<R: Wait>(&mut self, rt: &R, slot: &mut Option<Mouth>)
        requires { IsSlotOf slot.old self.old.inbox }
        ensures slot { slot.new ≡ slot.old }
        ensures told { Tells slot.old self.old self.new }
    {
        match slot {
            Some(mouth) => {
                gather_mouth(mouth, &mut self.inbox, rt);
            }
            None => {}
        }
    }
}
