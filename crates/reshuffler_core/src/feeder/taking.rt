// The held messages, and what each of them does once it can be taken.

ghost use Rattle.std.specs.Prelude.{◌≡◌, ◌+◌, ◌++◌, ◌∷◌, [], ◌↔◌, ◌<◌, ◌≤◌, ◌^◌, IsTrue, false, length, drop, OnOk, MatchOption};
ghost use Rattle.reshuffler_core.specs.Standing.{next_request, state_after, state_begun, posts_for, posts_of_batch, first_batch, to_controller};
ghost use Rattle.reshuffler_core.specs.Machine.{Takes, IsStuck, IsReady, Advances};

use crate::feeder::Feeder;
use crate::sending::{request_for, send_batch, send_ends, send_turns};
use epoch_tags::{Actor, Msg, Post, Sends, ToController, ToFeeder, Tuple};
use grid_map::Shape;
use std::alloc::AllocError;

impl Feeder {
    // Holds a message behind those held.
    pub(super) fn hold(&mut self, m: ToFeeder) -> Result<(), AllocError>
        ensures spent { self.new.spent ≡ self.old.spent }
        ensures held { OnOk result (self.new ≡ record self.old { held = self.old.held ++ m ∷ [] }) }
    {
        self.held.push_back(m)?;
        Ok(())
    }

    // Takes those of the held messages that can be taken, in their order.
    pub(super) fn take_held(&mut self, sends: &mut Sends) -> Result<(), AllocError>
        ensures spent { self.new.spent ≡ self.old.spent }
        ensures stuck { OnOk result (IsStuck self.new) }
        ensures advances { OnOk result (Advances self.old self.new sends.old sends.new) }
    {
        'held: while let Some(m) = self.ready() {
            self.take_first(m, sends)?;
        }
        Ok(())
    }

    // The first of the held, where it can be taken.
    fn ready(&self) -> Option<ToFeeder>
        ensures { MatchOption result (IsStuck self.now) (λ m. IsReady self.now m) }
    {
        let first = *self.held.front()?;
        if self.can_take(first) {
            Some(first)
        } else {
            None
        }
    }

    fn can_take(&self, m: ToFeeder) -> bool
        ensures { IsTrue result ↔ Takes self.now m }
    {
        match m {
            ToFeeder::Order { epoch, shift } => {
                self.epoch.checked_add(1) == Some(epoch) && shift <= self.k && !self.stopped
            }
            ToFeeder::Grant => self.asked,
            ToFeeder::Stop => self.drained && !self.stopped,
        }
    }

    fn take_first(&mut self, m: ToFeeder, sends: &mut Sends) -> Result<(), AllocError>
        requires { IsReady self.old m }
        ensures spent { self.new.spent ≡ self.old.spent }
        ensures fewer { OnOk result (length self.new.held + 1 ≡ length self.old.held) }
        ensures advances { OnOk result (Advances self.old self.new sends.old sends.new) }
    {
        self.drop_first();
        self.take(m, sends)?;
        Ok(())
    }

    fn drop_first(&mut self)
        ensures { self.new ≡ record self.old { held = drop 1 self.old.held } }
    {
        let _ = self.held.pop_front();
    }

    fn take(&mut self, m: ToFeeder, sends: &mut Sends) -> Result<(), AllocError>
        requires { Takes self.old m }
        ensures spent { self.new.spent ≡ self.old.spent }
        ensures state { OnOk result (self.new ≡ state_after self.old m) }
        ensures posts { OnOk result (sends.new ≡ sends.old ++ posts_for self.old m) }
    {
        match m {
            ToFeeder::Order { epoch, shift } => {
                self.epoch = epoch;
                self.shift = shift;
                send_turns(sends, self.k, epoch, shift)?;
            }
            ToFeeder::Grant => self.grant(sends)?,
            ToFeeder::Stop => {
                self.stopped = true;
                send_ends(sends, self.k)?;
            }
        }
        Ok(())
    }

    // Sends the batch that was asked for.
    fn grant(&mut self, sends: &mut Sends) -> Result<(), AllocError>
        ensures spent { self.new.spent ≡ self.old.spent }
        ensures state { OnOk result
            (self.new ≡ record self.old { to_come = drop 1 self.old.to_come; asked = false }) }
        ensures posts { OnOk result (sends.new ≡ sends.old
            ++ posts_of_batch self.old.start.k self.old.epoch self.old.shift
            (first_batch self.old.to_come)) }
    {
        let shape = Shape {
            k: self.k,
            shift: self.shift,
        };
        let batch = self.next_batch();
        let count = batch.len();
        send_batch(sends, shape, self.epoch, batch)?;
        let left = self.load.as_slice().len() - self.sent;
        prove!(count <= left);
        self.asked = false;
        self.sent += count;
        Ok(())
    }

    // The next batch of the load, or nothing where the load has been sent.
    fn next_batch(&self) -> &[Tuple]
        ensures value { result.now ≡ first_batch self.now.to_come }
        ensures few { length result.now ≤ 4096 }
    {
        let left = self.load.as_slice().len() - self.sent;
        let count = left.min(self.batch);
        &self.load.as_slice()[self.sent..self.sent + count]
    }

    // Asks for the next batch, or says that none is left.
    pub(super) fn request(&mut self, sends: &mut Sends) -> Result<(), AllocError>
        ensures spent { self.new.spent ≡ self.old.spent }
        ensures state { OnOk result (self.new ≡ state_begun self.old self.old.to_come) }
        ensures posts { OnOk result
            (sends.new ≡ sends.old ++ to_controller (next_request self.old.to_come) ∷ []) }
    {
        let request = self.next_request();
        self.mark_begun();
        sends.push(Post {
            to: Actor::Controller,
            msg: Msg::Controller(request),
        })?;
        Ok(())
    }

    fn next_request(&self) -> ToController
        ensures { result ≡ next_request self.now.to_come }
    {
        if self.sent < self.load.as_slice().len() {
            request_for(self.next_batch())
        } else {
            ToController::Drained
        }
    }

    fn mark_begun(&mut self)
        ensures { self.new ≡ state_begun self.old self.old.to_come }
    {
        if self.sent < self.load.as_slice().len() {
            self.asked = true;
        } else {
            self.drained = true;
        }
    }
}
