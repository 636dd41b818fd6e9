// A tuple that the partner moved here, and the end of its part.

ghost use Rattle.std.specs.Prelude.{◌≡◌, true, false, ◌++◌, ◌<◌, OnOk};
ghost use Rattle.joiner_core.specs.State.{IsRow};
ghost use Rattle.joiner_core.specs.Taking.{IsWithin, PartFits};
ghost use Rattle.joiner_core.specs.Changes.{after_moved, found_moved, after_part};

use super::Epochs;
use epoch_tags::{Pairs, Tuple};
use migration_plan::partner_in_step;
use std::alloc::AllocError;
use store_parts::Which;

impl<'a> Epochs<'a> {
    // Whether joiner q has this epoch's step open here, as the partner whose part goes on.
    pub(crate) fn can_take_part(&self, q: u32, epoch: u32) -> bool
        requires { IsWithin self.now }
        ensures up { result ≡ true → PartFits self.now q epoch self.now.step }
        ensures down { result ≡ false → PartFits self.now q epoch self.now.step → ⊥ }
    {
        match &self.step {
            Some(open) => {
                epoch == open.epoch
                    && !open.partner_ended
                    && q == partner_in_step(self.k, self.shift, open.shift, self.id)
            }
            None => false,
        }
    }

    pub(crate) fn take_moved(&mut self, tuple: Tuple, found: &mut Pairs) -> Result<(), AllocError>
        requires row { IsRow self.old.theta tuple }
        requires within { IsWithin self.old }
        ensures state { OnOk result (self.new ≡ after_moved self.old tuple) }
        ensures found { OnOk result (found.new ≡ found.old ++ found_moved self.old tuple) }
    {
        if let Some(open) = &mut self.step {
            let epoch = open.epoch;
            open.take(self.theta, Which::OnlyStamp(epoch), tuple, found)?;
        }
        Ok(())
    }
}

impl<'a> Epochs<'a> {
    pub(crate) fn take_moved_end(&mut self)
        ensures { self.new ≡ after_part self.old }
    {
        if let Some(open) = &mut self.step {
            open.partner_ended = true;
        }
    }
}
