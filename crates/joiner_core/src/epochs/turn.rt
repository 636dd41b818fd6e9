// A feeder's turn to the next epoch.

ghost use Rattle.std.specs.Prelude.{◌≡◌, ◌++◌, ◌<◌, ◌≤◌, ◌^◌, true, false, None, List, OnOk, IfOk};
ghost use Rattle.migration_plan.specs.Steps.{AreNeighbours};
ghost use Rattle.joiner_core.specs.Taking.{IsWithin, IsStepWithin, CanTakeTurn, TookOfFeeder};
ghost use Rattle.epoch_tags.specs.declared.message.ToJoiner.TheVariants.{Turn};
ghost use Rattle.epoch_tags.specs.declared.tuple.Pair.{Pair};
ghost use Rattle.joiner_core.specs.Changes.{HasBegun, begun_posts, posts_opened, HasOpened, HasTurned, AreAllUp, posts_turned};

use super::{Epochs, Opened};
use crate::stock;
use epoch_tags::{Actor, Msg, Post, Sends, ToJoiner, all_down, are_all_up};
use migration_plan::{exchanged_side, partner_in_step};
use std::alloc::AllocError;
use std::mem;

// Whether one of the two shifts is the other and 1.
fn are_neighbours(old: u32, new: u32) -> bool
    ensures up { result ≡ true → AreNeighbours old new }
    ensures down { result ≡ false → AreNeighbours old new → ⊥ }
{
    (old < new && new - old == 1) || (new < old && old - new == 1)
}

impl<'a> Epochs<'a> {
    pub(crate) fn can_take_turn(&self, p: u32, epoch: u32, shift: u32) -> bool
        ensures up { result ≡ true → CanTakeTurn self.now p epoch shift }
        ensures down { result ≡ false → CanTakeTurn self.now p epoch shift → ⊥ }
    {
        if self.has_ended(p) || self.has_turned(p) {
            return false;
        }
        match &self.step {
            Some(open) => epoch == open.epoch && shift == open.shift,
            None => {
                epoch > self.epoch
                    && epoch - self.epoch == 1
                    && shift <= self.k
                    && are_neighbours(self.shift, shift)
            }
        }
    }

    pub(crate) fn take_turn(
        &mut self,
        p: u32,
        epoch: u32,
        shift: u32,
        sends: &mut Sends,
    ) -> Result<(), AllocError>
        requires few { p < self.old.feeders }
        requires within { IsWithin self.old }
        requires can { CanTakeTurn self.old p epoch shift }
        ensures { OnOk result ((waiting : List Pair)
            → TookOfFeeder p (Turn epoch shift) self.old self.new
            waiting waiting sends.old sends.new) }
    {
        self.begin_step(epoch, shift, sends)?;
        self.turn(p, sends)?;
        self.settle(sends)?;
        Ok(())
    }

    // Opens the step, if none is open.
    fn begin_step(&mut self, epoch: u32, shift: u32, sends: &mut Sends) -> Result<(), AllocError>
        requires within { IsWithin self.old }
        requires fits { shift ≤ self.old.k }
        requires next { self.old.step ≡ None → AreNeighbours self.old.shift shift }
        ensures rest { OnOk result (self.new ≡ record self.old { step = self.new.step }) }
        ensures step { OnOk result (HasBegun self.old epoch shift self.old.step self.new.step) }
        ensures posts { OnOk result
            (sends.new ≡ sends.old ++ begun_posts self.old epoch shift self.old.step) }
    {
        if self.step.is_none() {
            self.open_step(epoch, shift, sends)?;
        }
        Ok(())
    }

    // The first turn opens the step.
    fn open_step(&mut self, epoch: u32, shift: u32, sends: &mut Sends) -> Result<(), AllocError>
        requires grid { self.old.k ≤ 8 }
        requires shift { self.old.shift ≤ self.old.k }
        requires within { shift ≤ self.old.k }
        requires next { AreNeighbours self.old.shift shift }
        requires id { self.old.id < 2 ^ self.old.k }
        ensures rest { OnOk result (self.new ≡ record self.old { step = self.new.step }) }
        ensures opened { OnOk result (HasOpened self.old epoch shift self.new.step) }
        ensures posts { OnOk result (sends.new ≡ sends.old ++ posts_opened self.old epoch shift) }
    {
        let to = partner_in_step(self.k, self.shift, shift, self.id);
        stock::send_side(
            &self.store,
            exchanged_side(self.shift, shift),
            to,
            epoch,
            sends,
        )?;
        let turned = all_down(self.alloc, self.feeders)?;
        let store = stock::kept_copy(&self.store, self.k, shift, self.id)?;
        let opened = Opened {
            epoch,
            shift,
            turned,
            store,
            partner_ended: false,
            alloc: self.alloc,
        };
        drop(mem::replace(&mut self.step, Some(opened)));
        Ok(())
    }

    // The last one ends this joiner's part of the step. Answers whether it was the last.
    fn turn(&mut self, p: u32, sends: &mut Sends) -> Result<bool, AllocError>
        requires grid { self.old.k ≤ 8 }
        requires shift { self.old.shift ≤ self.old.k }
        requires id { self.old.id < 2 ^ self.old.k }
        requires step { IsStepWithin self.old.k self.old.shift self.old.step }
        ensures rest { OnOk result (self.new ≡ record self.old { step = self.new.step }) }
        ensures step { OnOk result (HasTurned p self.old.step self.new.step) }
        ensures last { IfOk result (λ last. last ≡ true → AreAllUp self.new.step) }
        ensures not_last { IfOk result (λ last. last ≡ false → AreAllUp self.new.step → ⊥) }
        ensures posts { IfOk result (λ last. sends.new ≡ sends.old ++ posts_turned self.old last) }
    {
        if let Some(open) = &mut self.step {
            open.turn(p);
            if are_all_up(&open.turned) {
                sends.push(Post {
                    to: Actor::Joiner(partner_in_step(self.k, self.shift, open.shift, self.id)),
                    msg: Msg::Joiner(ToJoiner::MovedEnd { epoch: open.epoch }),
                })?;
                return Ok(true);
            }
        }
        Ok(false)
    }
}
