// A tuple of a feeder: an old one, an old one that comes late, or a new one.

ghost use Rattle.std.specs.Prelude.{◌≡◌, ◌++◌, true, false, OnOk};
ghost use Rattle.epoch_tags.specs.declared.message.ToJoiner.TheVariants.{Tup};
ghost use Rattle.joiner_core.specs.State.{IsRow};
ghost use Rattle.joiner_core.specs.Taking.{IsWithin, CanTakeTup, TookOfFeeder};
ghost use Rattle.joiner_core.specs.Changes.{after_old, found_old, open_old, posts_old, after_new, found_new};

use super::{Epochs, pass_on};
use crate::stock;
use epoch_tags::{Pairs, Sends, Tuple};
use migration_plan::{exchanged_side, partner_in_step};
use std::alloc::AllocError;
use store_parts::Which;

impl<'a> Epochs<'a> {
    pub(crate) fn can_take_tup(&self, p: u32, stamp: u32) -> bool
        ensures up { result ≡ true → CanTakeTup self.now p stamp }
        ensures down { result ≡ false → CanTakeTup self.now p stamp → ⊥ }
    {
        if self.has_ended(p) {
            return false;
        }
        match &self.step {
            Some(open) => {
                if self.has_turned(p) {
                    stamp == open.epoch
                } else {
                    stamp == self.epoch
                }
            }
            None => stamp == self.epoch,
        }
    }

    pub(crate) fn take_tup(
        &mut self,
        p: u32,
        tuple: Tuple,
        found: &mut Pairs,
        sends: &mut Sends,
    ) -> Result<(), AllocError>
        requires within { IsWithin self.old }
        requires can { CanTakeTup self.old p tuple.stamp }
        requires row { IsRow self.old.theta tuple }
        ensures { OnOk result
            (TookOfFeeder p (Tup tuple) self.old self.new
            found.old found.new sends.old sends.new) }
    {
        if self.has_turned(p) {
            self.take_new(tuple, found)?;
        } else {
            self.take_old(tuple, found, sends)?;
        }
        Ok(())
    }

    // What a tuple of the settled epoch meets, before it is stored: the pairs that it makes, and its copies in an open
    // step.
    fn meet_old(
        &mut self,
        tuple: &Tuple,
        found: &mut Pairs,
        sends: &mut Sends,
    ) -> Result<(), AllocError>
        requires within { IsWithin self.old }
        requires row { IsRow self.old.theta tuple.now }
        ensures state { OnOk result (self.new
            ≡ record self.old { step = open_old self.old tuple.now self.old.step }) }
        ensures found { OnOk result (found.new ≡ found.old ++ found_old self.old tuple.now) }
        ensures posts { OnOk result (sends.new ≡ sends.old ++ posts_old self.old tuple.now) }
    {
        stock::probe(&self.store, tuple, self.theta, Which::All, found)?;
        if let Some(open) = &mut self.step {
            let to = partner_in_step(self.k, self.shift, open.shift, self.id);
            pass_on(
                exchanged_side(self.shift, open.shift),
                to,
                open.epoch,
                tuple,
                sends,
            )?;
            open.keep(self.k, self.id, self.theta, tuple, found)?;
        }
        Ok(())
    }

    // A tuple of the settled epoch.
    fn take_old(
        &mut self,
        tuple: Tuple,
        found: &mut Pairs,
        sends: &mut Sends,
    ) -> Result<(), AllocError>
        requires within { IsWithin self.old }
        requires row { IsRow self.old.theta tuple }
        ensures state { OnOk result (self.new ≡ after_old self.old tuple) }
        ensures found { OnOk result (found.new ≡ found.old ++ found_old self.old tuple) }
        ensures posts { OnOk result (sends.new ≡ sends.old ++ posts_old self.old tuple) }
    {
        match self.meet_old(&tuple, found, sends) {
            Ok(()) => stock::add(&mut self.store, self.theta, tuple),
            Err(refused) => {
                drop(tuple);
                Err(refused)
            }
        }
    }

    // A tuple of the open step's epoch.
    fn take_new(&mut self, tuple: Tuple, found: &mut Pairs) -> Result<(), AllocError>
        requires row { IsRow self.old.theta tuple }
        requires within { IsWithin self.old }
        ensures state { OnOk result (self.new ≡ after_new self.old tuple) }
        ensures found { OnOk result (found.new ≡ found.old ++ found_new self.old tuple) }
    {
        if let Some(open) = &mut self.step {
            open.take(self.theta, Which::All, tuple, found)?;
        }
        Ok(())
    }
}
