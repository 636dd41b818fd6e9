// The end of a step.

ghost use Rattle.std.specs.Prelude.{◌≡◌, ◌++◌, true, false, IfOk, None, Some};
ghost use Rattle.joiner_core.specs.State.{OpenStep};
ghost use Rattle.joiner_core.specs.Taking.{IsStepWithin};
ghost use Rattle.joiner_core.specs.Changes.{after_settle, posts_settled, IsReady};

use super::{Epochs, Opened};
use crate::stock;
use epoch_tags::{Actor, Msg, Post, Sends, ToController, are_all_up};
use migration_plan::exchanged_side;
use std::alloc::AllocError;
use std::mem;

impl<'a> Epochs<'a> {
    // Whether all feeders have turned and the partner has ended its part.
    fn is_ready(&self) -> bool
        ensures up { result ≡ true → IsReady self.now.step }
        ensures down { result ≡ false → IsReady self.now.step → ⊥ }
    {
        match &self.step {
            Some(open) => open.partner_ended && are_all_up(&open.turned),
            None => false,
        }
    }

    // Settles the open step, if it is ready. Answers whether it was.
    pub(crate) fn settle(&mut self, sends: &mut Sends) -> Result<bool, AllocError>
        requires { IsStepWithin self.old.k self.old.shift self.old.step }
        ensures up { IfOk result (λ ready. ready ≡ true → IsReady self.old.step) }
        ensures down { IfOk result (λ ready. ready ≡ false → IsReady self.old.step → ⊥) }
        ensures state { IfOk result (λ ready. self.new ≡ after_settle ready self.old) }
        ensures posts { IfOk result
            (λ ready. sends.new ≡ sends.old ++ posts_settled ready self.old) }
    {
        if !self.is_ready() {
            return Ok(false);
        }
        if let Some(open) = &self.step {
            sends.push(Post {
                to: Actor::Controller,
                msg: Msg::Controller(ToController::Settled { epoch: open.epoch }),
            })?;
            self.moved.push(stock::count(&self.store, exchanged_side(self.shift, open.shift)))?;
        }
        self.close();
        Ok(true)
    }

    // The open step, if there is one, becomes the settled one.
    fn close(&mut self)
        ensures none { self.old.step ≡ None → self.new ≡ self.old }
        ensures some { (o : OpenStep) → self.old.step ≡ Some o → self.new ≡ record self.old {
          epoch = o.epoch;
          shift = o.shift;
          store = o.store;
          step = None;
        } }
    {
        if let Some(open) = self.step.take() {
            let Opened {
                epoch,
                shift,
                turned,
                store,
                ..
            } = open;
            drop(turned);
            self.epoch = epoch;
            self.shift = shift;
            drop(mem::replace(&mut self.store, store));
        }
    }
}
