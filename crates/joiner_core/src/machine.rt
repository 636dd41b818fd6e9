// A joiner's machine: what it has of its epochs, the messages that it holds, and the taking of each kind of message.

ghost use Rattle.std.specs.Prelude.{◌≡◌, ◌<◌, ◌≤◌, ◌^◌, ◌-◌, [], true, false, OnOk, IfOk, ℕ, length, min};
ghost use Rattle.epoch_tags.specs.Flags.{flag_at};
ghost use Rattle.epoch_tags.specs.Held.{held_at};
ghost use Rattle.joiner_core.specs.State.{HasRow, stocked_of};
ghost use Rattle.epoch_tags.specs.Links.{HasLink};
ghost use Rattle.joiner_core.specs.Machine.{state_of, held_messages, IsMade, IsSound, Accepts, IsOfGrid, Receives};
ghost use Rattle.epoch_tags.specs.declared.actor.Actor.TheVariants.{Feeder, Joiner as Joiner'};
ghost use Rattle.joiner_core.specs.Taking.{IsWithin, TookOfFeeder, TookOfJoiner, TakesOfFeeder, TakesOfJoiner};

mod order_of_held;
mod report;

use crate::epochs::{Epochs, joiners};
use epoch_tags::{Actor, Held, Pairs, Sends, ToJoiner, all_down};
use std::alloc::{AllocError, Global};
use store_parts::Store;
use theta_pred::Theta;

#[derive(Drop)]
pub(crate) struct Machine<'a> {
    epochs: Epochs<'a>,
    of_feeders: Held<ToJoiner>,
    of_joiners: Held<ToJoiner>,
    told: bool,
    alloc: Global,
}

// What a joiner knows of its senders at its beginning: that no feeder has ended, and of each sender no message is held.
fn nothing_heard(
    alloc: Global,
    k: u32,
    feeders: u32,
) -> Result<(Vec<bool>, Held<ToJoiner>, Held<ToJoiner>), AllocError>
    requires { k ≤ 8 }
    ensures ended { IfOk result (λ heard. length heard.0.items ≡ feeders) }
    ensures down { IfOk result (λ heard. (p : ℕ) → flag_at heard.0.items p ≡ false) }
    ensures of_feeders { IfOk result (λ heard. length heard.1 ≡ feeders) }
    ensures no_feeders { IfOk result (λ heard. (p : ℕ) → held_at heard.1 p ≡ []) }
    ensures of_joiners { IfOk result (λ heard. length heard.2 ≡ 2 ^ k) }
    ensures no_joiners { IfOk result (λ heard. (q : ℕ) → held_at heard.2 q ≡ []) }
{
    let ended = all_down(alloc, feeders)?;
    let of_feeders = Held::start(alloc, feeders)?;
    let of_joiners = Held::start(alloc, joiners(k))?;
    Ok((ended, of_feeders, of_joiners))
}

impl<'a> Machine<'a> {
    pub(crate) fn start_at(
        alloc: Global,
        k: u32,
        id: u32,
        shift: u32,
        epoch: u32,
        feeders: u32,
        theta: &'a Theta,
        base: Store,
    ) -> Result<Machine<'a>, AllocError>
        requires { k ≤ 8 }
        ensures { IfOk result
            (λ machine. IsMade k id shift epoch feeders theta.now (stocked_of base)
            (state_of machine)) }
    {
        match nothing_heard(alloc, k, feeders) {
            Ok((ended, of_feeders, of_joiners)) => Ok(Machine {
                epochs: Epochs::settled_at(alloc, k, id, shift, epoch, feeders, theta, base, ended),
                of_feeders,
                of_joiners,
                told: false,
                alloc,
            }),
            Err(refused) => {
                drop(base);
                Err(refused)
            }
        }
    }

    // Takes or holds a message, tries the held ones again and reports.
    pub(crate) fn receive(
        &mut self,
        from: Actor,
        m: ToJoiner,
        sends: &mut Sends,
    ) -> Result<(), AllocError>
        requires sound { IsSound (state_of self.old) }
        requires grid { IsOfGrid from self.old.epochs }
        requires row { HasRow self.old.epochs.theta m }
        ensures { OnOk result
            (Receives from m (state_of self.old) (state_of self.new) sends.old sends.new) }
    {
        let mut found = Pairs::new(self.alloc);
        self.accept(from, m, &mut found, sends)?;
        self.take_held(&mut found, sends)?;
        self.send_found(found, sends)?;
        self.send_fin(sends)?;
        Ok(())
    }

    // Takes or holds a message.
    fn accept(
        &mut self,
        from: Actor,
        m: ToJoiner,
        found: &mut Pairs,
        sends: &mut Sends,
    ) -> Result<(), AllocError>
        requires sound { IsSound (state_of self.old) }
        requires grid { IsOfGrid from self.old.epochs }
        requires row { HasRow self.old.epochs.theta m }
        ensures { OnOk result
            (Accepts from m (state_of self.old) (state_of self.new)
            found.old found.new sends.old sends.new) }
    {
        match from {
            Actor::Feeder(p) => self.accept_of_feeder(p, m, found, sends)?,
            Actor::Joiner(q) => self.accept_of_joiner(q, m, found, sends)?,
            Actor::Controller => {}
            Actor::Collector => {}
        }
        Ok(())
    }

    fn accept_of_feeder(
        &mut self,
        p: u32,
        m: ToJoiner,
        found: &mut Pairs,
        sends: &mut Sends,
    ) -> Result<(), AllocError>
        requires sound { IsSound (state_of self.old) }
        requires few { p < self.old.epochs.feeders }
        requires row { HasRow self.old.epochs.theta m }
        ensures { OnOk result
            (Accepts (Feeder p) m (state_of self.old) (state_of self.new)
            found.old found.new sends.old sends.new) }
    {
        if self.of_feeders.is_clear(p as usize) && self.can_take_of_feeder(p, &m) {
            self.take_of_feeder(p, m, found, sends)?;
        } else {
            self.of_feeders.hold(p as usize, m)?;
        }
        Ok(())
    }

    fn accept_of_joiner(
        &mut self,
        q: u32,
        m: ToJoiner,
        found: &mut Pairs,
        sends: &mut Sends,
    ) -> Result<(), AllocError>
        requires sound { IsSound (state_of self.old) }
        requires few { q < 2 ^ self.old.epochs.k }
        requires row { HasRow self.old.epochs.theta m }
        ensures { OnOk result
            (Accepts (Joiner' q) m (state_of self.old) (state_of self.new)
            found.old found.new sends.old sends.new) }
    {
        if self.of_joiners.is_clear(q as usize) && self.can_take_of_joiner(q, &m) {
            self.take_of_joiner(m, found, sends)?;
        } else {
            self.of_joiners.hold(q as usize, m)?;
        }
        Ok(())
    }
}

impl<'a> Machine<'a> {
    fn can_take_of_feeder(&self, p: u32, m: &ToJoiner) -> bool
        ensures up { result ≡ true → TakesOfFeeder self.now.epochs p m.now }
        ensures down { result ≡ false → TakesOfFeeder self.now.epochs p m.now → ⊥ }
    {
        match m {
            ToJoiner::Tup(tuple) => self.epochs.can_take_tup(p, tuple.stamp),
            ToJoiner::Turn { epoch, shift } => self.epochs.can_take_turn(p, *epoch, *shift),
            ToJoiner::End => self.epochs.can_take_end(p),
            ToJoiner::Moved { .. } | ToJoiner::MovedEnd { .. } => false,
        }
    }

    fn can_take_of_joiner(&self, q: u32, m: &ToJoiner) -> bool
        requires { IsWithin self.now.epochs }
        ensures up { result ≡ true → TakesOfJoiner self.now.epochs q m.now }
        ensures down { result ≡ false → TakesOfJoiner self.now.epochs q m.now → ⊥ }
    {
        match m {
            ToJoiner::Moved { epoch, .. } => self.epochs.can_take_part(q, *epoch),
            ToJoiner::MovedEnd { epoch } => self.epochs.can_take_part(q, *epoch),
            ToJoiner::Tup(_) | ToJoiner::Turn { .. } | ToJoiner::End => false,
        }
    }

    fn take_of_feeder(
        &mut self,
        p: u32,
        m: ToJoiner,
        found: &mut Pairs,
        sends: &mut Sends,
    ) -> Result<(), AllocError>
        requires few { p < self.old.epochs.feeders }
        requires within { IsWithin self.old.epochs }
        requires can { TakesOfFeeder self.old.epochs p m }
        requires row { HasRow self.old.epochs.theta m }
        ensures rest { OnOk result
            (state_of self.new ≡ record (state_of self.old) { epochs = self.new.epochs }) }
        ensures took { OnOk result
            (TookOfFeeder p m self.old.epochs self.new.epochs
            found.old found.new sends.old sends.new) }
    {
        match m {
            ToJoiner::Tup(tuple) => self.epochs.take_tup(p, tuple, found, sends),
            ToJoiner::Turn { epoch, shift } => self.epochs.take_turn(p, epoch, shift, sends),
            ToJoiner::End => {
                self.epochs.take_end(p);
                Ok(())
            }
            ToJoiner::Moved { .. } | ToJoiner::MovedEnd { .. } => Ok(()),
        }
    }

    fn take_of_joiner(
        &mut self,
        m: ToJoiner,
        found: &mut Pairs,
        sends: &mut Sends,
    ) -> Result<(), AllocError>
        requires within { IsWithin self.old.epochs }
        requires row { HasRow self.old.epochs.theta m }
        ensures rest { OnOk result
            (state_of self.new ≡ record (state_of self.old) { epochs = self.new.epochs }) }
        ensures took { OnOk result ((q : ℕ) → TakesOfJoiner self.old.epochs q m
            → TookOfJoiner q m self.old.epochs self.new.epochs
            found.old found.new sends.old sends.new) }
    {
        match m {
            ToJoiner::Moved { tuple, .. } => {
                self.epochs.take_moved(tuple, found)?;
                Ok(())
            }
            ToJoiner::MovedEnd { .. } => {
                self.epochs.take_moved_end();
                self.epochs.settle(sends)?;
                Ok(())
            }
            ToJoiner::Tup(_) | ToJoiner::Turn { .. } | ToJoiner::End => Ok(()),
        }
    }
}

impl<'a> Machine<'a> {
    // The epoch of the last step that is settled.
    pub(crate) fn settled(&self) -> u32
        ensures { result ≡ self.now.epochs.epoch }
    {
        self.epochs.settled()
    }

    // The store of that epoch.
    pub(crate) fn settled_store(&self) -> &Store
        ensures { stocked_of result.now ≡ self.now.epochs.store }
    {
        self.epochs.settled_store()
    }

    // The store of that epoch, for good.
    pub(crate) fn into_store(self) -> Store
        ensures { stocked_of result ≡ self.entry.epochs.store }
    {
        let Machine { epochs, .. } = self;
        epochs.into_store()
    }

    // How many messages are held, or 2 ^ 64 - 1 where there are more.
    pub(crate) fn held_count(&self) -> u64
        ensures { result ≡ min (held_messages (state_of self.now)) (2 ^ 64 - 1) }
    {
        self.of_feeders
            .count()
            .saturating_add(self.of_joiners.count())
    }

    // Whether this sender has a link to this joiner.
    pub(crate) fn hears(&self, from: Actor) -> bool
        requires { self.now.epochs.k ≤ 8 }
        ensures up { result ≡ true → HasLink self.now.epochs.k self.now.epochs.feeders
            from (Joiner' self.now.epochs.id) }
        ensures down { result ≡ false → ¬ HasLink self.now.epochs.k self.now.epochs.feeders
            from (Joiner' self.now.epochs.id) }
    {
        self.epochs.hears(from)
    }

    // Whether the row that the message carries, if it carries one, has the predicate's widths.
    pub(crate) fn fits(&self, m: &ToJoiner) -> bool
        ensures up { result ≡ true → HasRow self.now.epochs.theta m.now }
        ensures down { result ≡ false → HasRow self.now.epochs.theta m.now → ⊥ }
    {
        self.epochs.fits(m)
    }
}
