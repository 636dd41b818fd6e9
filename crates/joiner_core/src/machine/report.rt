// What is sent at the end of a call.

ghost use Rattle.std.specs.Prelude.{◌≡◌, ◌++◌, true, false, OnOk};
ghost use Rattle.joiner_core.specs.Machine.{state_of, TellsFin, HasFinished};
ghost use Rattle.joiner_core.specs.Calls.{found_posts};

use super::Machine;
use epoch_tags::{Actor, Msg, Pairs, Post, Sends, ToCollector};
use std::alloc::AllocError;

impl<'a> Machine<'a> {
    // All feeders have ended, no step is open and nothing is held.
    pub(crate) fn finished(&self) -> bool
        ensures up { result ≡ true → HasFinished (state_of self.now) }
        ensures down { result ≡ false → HasFinished (state_of self.now) → ⊥ }
    {
        self.epochs.is_at_rest() && self.of_feeders.is_empty() && self.of_joiners.is_empty()
    }

    // Sends the pairs of one call, if there are any.
    pub(super) fn send_found(&self, found: Pairs, sends: &mut Sends) -> Result<(), AllocError>
        ensures { OnOk result (sends.new ≡ sends.old ++ found_posts found) }
    {
        if found.len() > 0 {
            sends.push(Post {
                to: Actor::Collector,
                msg: Msg::Collector(ToCollector::Found(found)),
            })?;
        }
        Ok(())
    }

    // Sends the last message when it first is finished.
    pub(super) fn send_fin(&mut self, sends: &mut Sends) -> Result<(), AllocError>
        ensures rest { OnOk result
            (state_of self.new ≡ record (state_of self.old) { told = self.new.told }) }
        ensures tells { OnOk result
            (TellsFin (state_of self.old) self.new.told sends.old sends.new) }
    {
        if !self.told && self.finished() {
            sends.push(Post {
                to: Actor::Collector,
                msg: Msg::Collector(self.epochs.last_message()?),
            })?;
            self.told = true;
        }
        Ok(())
    }
}
