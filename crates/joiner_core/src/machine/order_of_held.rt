// The order in which a joiner's held messages are tried again after each one that was taken. (That of the settles which
// the controller holds is in load_controller, held_settles.rt; a feeder takes its grants as they came.)

ghost use Rattle.std.specs.Prelude.{◌≡◌, ◌<◌, ◌^◌, true, false, OnOk, IfOk, IfSome, MatchOption};
ghost use Rattle.joiner_core.specs.Machine.{state_of, Advances, IsSound, IsStuck, AreStuckOfFeeders, AreStuckOfJoiners, IsReadyOfFeeder, IsReadyOfJoiner, TookHeld, HasTakenNext, AreTried, DoesNext};
ghost use Rattle.joiner_core.specs.Outcomes.{Does};
ghost use Rattle.joiner_core.specs.Calls.{held_in_all, takes_all_held};
ghost use Rattle.epoch_tags.specs.declared.actor.Actor.TheVariants.{Feeder, Joiner as Joiner'};

use super::Machine;
use epoch_tags::{Pairs, Sends};
use std::alloc::AllocError;

impl<'a> Machine<'a> {
    // Takes held messages until none can be taken.
    pub(super) fn take_held(
        &mut self,
        found: &mut Pairs,
        sends: &mut Sends,
    ) -> Result<(), AllocError>
        requires { IsSound (state_of self.old) }
        ensures sound { OnOk result (IsSound (state_of self.new)) }
        ensures took { OnOk result
            (Advances (state_of self.old) (state_of self.new)
            found.old found.new sends.old sends.new) }
        ensures tried { OnOk result (AreTried (state_of self.old) (state_of self.new)) }
        ensures stuck { OnOk result (IsStuck (state_of self.new)) }
        ensures does { OnOk result (Does (takes_all_held (state_of self.old)) (state_of self.new)
            found.old found.new sends.old sends.new) }
    {
        'trial: while self.take_one_held(found, sends)? {}
        Ok(())
    }

    // Takes the first held message of the first link whose first can be taken.
    fn take_one_held(&mut self, found: &mut Pairs, sends: &mut Sends) -> Result<bool, AllocError>
        requires { IsSound (state_of self.old) }
        ensures sound { OnOk result (IsSound (state_of self.new)) }
        ensures took { OnOk result
            (Advances (state_of self.old) (state_of self.new)
            found.old found.new sends.old sends.new) }
        ensures fewer { IfOk result (λ more.
            more ≡ true → held_in_all (state_of self.new) < held_in_all (state_of self.old)) }
        ensures next { IfOk result
            (λ more. more ≡ true → HasTakenNext (state_of self.old) (state_of self.new)) }
        ensures none { IfOk result (λ more. more ≡ false → state_of self.new ≡ state_of self.old) }
        ensures stuck { IfOk result (λ more. more ≡ false → IsStuck (state_of self.new)) }
        ensures does { IfOk result (λ more. more ≡ true
            → DoesNext (state_of self.old) (state_of self.new)
            found.old found.new sends.old sends.new) }
        ensures rests { IfOk result (λ more. more ≡ false
            → Does (takes_all_held (state_of self.old)) (state_of self.new)
            found.old found.new sends.old sends.new) }
    {
        match self.ready_feeder() {
            Some(p) => {
                self.take_first_of_feeder(p, found, sends)?;
                Ok(true)
            }
            None => match self.ready_joiner() {
                Some(q) => {
                    self.take_first_of_joiner(q, found, sends)?;
                    Ok(true)
                }
                None => Ok(false),
            },
        }
    }

    // Takes the first message held of a feeder.
    fn take_first_of_feeder(
        &mut self,
        p: u32,
        found: &mut Pairs,
        sends: &mut Sends,
    ) -> Result<(), AllocError>
        requires sound { IsSound (state_of self.old) }
        requires ready { IsReadyOfFeeder (state_of self.old) p }
        ensures { OnOk result
            (TookHeld (Feeder p) (state_of self.old) (state_of self.new)
            found.old found.new sends.old sends.new) }
    {
        if let Some(m) = self.of_feeders.take_first(p as usize) {
            self.take_of_feeder(p, m, found, sends)?;
        }
        Ok(())
    }

    // Takes the first message held of a joiner.
    fn take_first_of_joiner(
        &mut self,
        q: u32,
        found: &mut Pairs,
        sends: &mut Sends,
    ) -> Result<(), AllocError>
        requires sound { IsSound (state_of self.old) }
        requires ready { IsReadyOfJoiner (state_of self.old) q }
        ensures { OnOk result
            (TookHeld (Joiner' q) (state_of self.old) (state_of self.new)
            found.old found.new sends.old sends.new) }
    {
        if let Some(m) = self.of_joiners.take_first(q as usize) {
            self.take_of_joiner(m, found, sends)?;
        }
        Ok(())
    }

    // The first feeder whose first held message can be taken.
    fn ready_feeder(&self) -> Option<u32>
        requires { IsSound (state_of self.now) }
        ensures ready { MatchOption result
            (AreStuckOfFeeders self.now.epochs.feeders (state_of self.now))
            (λ p. IsReadyOfFeeder (state_of self.now) p) }
        ensures first { IfSome result (λ p. AreStuckOfFeeders p (state_of self.now)) }
    {
        for p in 0..self.epochs.feeders() {
            if let Some(m) = self.of_feeders.first(p as usize) {
                if self.can_take_of_feeder(p, m) {
                    return Some(p);
                }
            }
        }
        None
    }

    // The first joiner whose first held message can be taken.
    fn ready_joiner(&self) -> Option<u32>
        requires { IsSound (state_of self.now) }
        ensures ready { MatchOption result
            (AreStuckOfJoiners (2 ^ self.now.epochs.k) (state_of self.now))
            (λ q. IsReadyOfJoiner (state_of self.now) q) }
        ensures first { IfSome result (λ q. AreStuckOfJoiners q (state_of self.now)) }
    {
        for q in 0..self.epochs.joiners() {
            if let Some(m) = self.of_joiners.first(q as usize) {
                if self.can_take_of_joiner(q, m) {
                    return Some(q);
                }
            }
        }
        None
    }
}
