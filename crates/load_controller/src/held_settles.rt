// `Settled` messages that are held, and tried again after each line.

ghost use Rattle.std.specs.Prelude.{◌≡◌, ◌<◌, ◌↔◌, ℕ, [], ◌∷◌, drop, IsTrue, true, false, MatchOption, IfOk, OnOk};
ghost use Rattle.epoch_tags.specs.Held.{held_at};
ghost use Rattle.load_controller.specs.Machine.{IsSound, IsReady, IsStuck, Advances, held_in_all};

use crate::ledger::{Ledger, joiners};
use crate::line::Cause;
use epoch_tags::Sends;
use std::alloc::AllocError;

impl Ledger {
    // The epoch held first of a joiner.
    fn first_held(&self, joiner: usize) -> Option<u32>
        ensures { MatchOption result (held_at self.now.held joiner ≡ []) (λ epoch.
            held_at self.now.held joiner ≡ epoch ∷ drop 1 (held_at self.now.held joiner)) }
    {
        match self.held.first(joiner) {
            Some(epoch) => Some(*epoch),
            None => None,
        }
    }

    // Whether the first message held of a joiner is in place.
    fn is_ready(&self, joiner: u32) -> bool
        requires { IsSound self.now }
        ensures { IsTrue result ↔ IsReady self.now joiner }
    {
        let at = joiner as usize;
        if !self.line.moving || at >= self.settled.len() || self.settled[at] {
            return false;
        }
        match self.first_held(at) {
            Some(epoch) => epoch == self.line.epoch,
            None => false,
        }
    }

    // The lowest joiner of whom the first held message is in place.
    fn next_ready(&self) -> Option<u32>
        requires { IsSound self.now }
        ensures { MatchOption result (IsStuck self.now)
            (λ j. IsReady self.now j × ((i : ℕ) → i < j → ¬ IsReady self.now i)) }
    {
        for joiner in 0..joiners(self.k) {
            if self.is_ready(joiner) {
                return Some(joiner);
            }
        }
        None
    }

    // Counts the first message held of a joiner, which is in place.
    fn count_first_held(&mut self, joiner: u32, sends: &mut Sends) -> Result<(), AllocError>
        requires sound { IsSound self.old }
        requires ready { IsReady self.old joiner }
        requires lowest { (i : ℕ) → i < joiner → ¬ IsReady self.old i }
        ensures sound { IsSound self.new }
        ensures took { OnOk result (Advances self.old self.new sends.old sends.new) }
        ensures fewer { OnOk result (held_in_all self.new < held_in_all self.old) }
    {
        let _ = self.held.take_first(joiner as usize);
        self.count(Cause::Settle { joiner }, sends)?;
        Ok(())
    }

    // Counts the held message that comes next, if one is in place.
    fn count_one_held(&mut self, sends: &mut Sends) -> Result<bool, AllocError>
        requires { IsSound self.old }
        ensures sound { IsSound self.new }
        ensures took { OnOk result (Advances self.old self.new sends.old sends.new) }
        ensures fewer { IfOk result (λ more.
            more ≡ true → held_in_all self.new < held_in_all self.old) }
        ensures stuck { IfOk result (λ more. more ≡ false → IsStuck self.new) }
    {
        match self.next_ready() {
            Some(joiner) => {
                self.count_first_held(joiner, sends)?;
                Ok(true)
            }
            None => Ok(false),
        }
    }

    // Counts held messages, joiners rising and from the lowest again after each, until none is in place.
    pub(crate) fn count_held(&mut self, sends: &mut Sends) -> Result<(), AllocError>
        requires { IsSound self.old }
        ensures sound { IsSound self.new }
        ensures took { OnOk result (Advances self.old self.new sends.old sends.new) }
        ensures stuck { OnOk result (IsStuck self.new) }
    {
        'trial: while self.count_one_held(sends)? {}
        Ok(())
    }
}
