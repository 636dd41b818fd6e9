// The machine as its callers see it.

mod taking;

ghost use Rattle.std.specs.Prelude.{◌≡◌, ◌+◌, ◌<◌, ◌≤◌, ◌++◌, ◌∷◌, [], ◌↔◌, ◌⊎◌, IsTrue, true, false, OnOk, OnErr, alloc_error, length};
ghost use Rattle.epoch_tags.specs.Messages.{grants, stops, asks, draineds};
ghost use Rattle.reshuffler_core.specs.Batches.{cut};
ghost use Rattle.reshuffler_core.specs.Law.{FeederLists, FeederStart};
ghost use Rattle.reshuffler_core.specs.Standing.{StandsFor, TakesMessage, Begins, IsWaiting, just_begun, nothing_yet};

use epoch_tags::{Sends, ToFeeder, Tuples};
use std::alloc::{AllocError, Global};
use std::collections::VecDeque;
use std::marker::Model;

/// A feeder's machine. It keeps no message that it has taken or sent.
#[derive(Drop)]
pub struct Feeder {
    k: u32,
    first_epoch: u32,
    first_shift: u32,
    epoch: u32,
    shift: u32,
    load: Tuples,
    // How many tuples of the load were sent, and how many go into a batch.
    sent: usize,
    batch: usize,
    asked: bool,
    drained: bool,
    stopped: bool,
    held: VecDeque<ToFeeder>,
    spent: bool,
}

impl Model for Feeder {
    ghost use Rattle.std.specs.Prelude.{drop, length};
    ghost use Rattle.reshuffler_core.specs.Batches.{cut};
    ghost use Rattle.reshuffler_core.specs.Law.{FeederStart};
    ghost use Rattle.reshuffler_core.specs.Standing.{FeederState};
    ghost use Rattle.reshuffler_core.specs.Machine.{IsWithin};

    ghost Value = { FeederState };

    ghost view = { λ f. record {
      start = record {
        k = f.k;
        epoch = f.first_epoch;
        shift = f.first_shift;
        batches = cut f.batch f.load;
      };
      epoch = f.epoch;
      shift = f.shift;
      to_come = cut f.batch (drop f.sent f.load);
      asked = f.asked;
      drained = f.drained;
      stopped = f.stopped;
      held = f.held.items;
      spent = f.spent;
    } };

    ghost invariant = { λ f. IsWithin f.k f.shift f.batch f.sent (length f.load) };
}

impl Feeder {
    /// Feeder `id` of a grid of 2^k joiners, in epoch 0. See [`Feeder::start_at`].
    pub fn start(alloc: Global, k: u32, shift: u32, id: u32, load: Tuples, batch: u32) -> Feeder
        requires grid { k ≤ 8 }
        requires shape { shift ≤ k }
        requires some { 0 < batch }
        requires few { batch ≤ 4096 }
        ensures start { result.start ≡ record {
          k = k;
          epoch = 0;
          shift = shift;
          batches = cut batch load;
        } }
        ensures fresh { StandsFor result.start nothing_yet result }
        ensures to_come { result.to_come ≡ cut batch load }
        ensures at_work { result.spent ≡ false }
        ensures begun { result ≡ just_begun result.start }
    {
        Feeder::start_at(alloc, k, shift, 0, id, load, batch)
    }

    /// Feeder `id` of a grid of 2^k joiners, which begins at this epoch and shift. The load is its
    /// share of the rows in order, and goes out in batches of `batch` rows, the last one with what
    /// is left. What a feeder does is the same for every id. It takes no memory.
    pub fn start_at(
        alloc: Global,
        k: u32,
        shift: u32,
        epoch: u32,
        id: u32,
        load: Tuples,
        batch: u32,
    ) -> Feeder
        requires grid { k ≤ 8 }
        requires shape { shift ≤ k }
        requires some { 0 < batch }
        requires few { batch ≤ 4096 }
        ensures start { result.start ≡ record {
          k = k;
          epoch = epoch;
          shift = shift;
          batches = cut batch load;
        } }
        ensures fresh { StandsFor result.start nothing_yet result }
        ensures to_come { result.to_come ≡ cut batch load }
        ensures at_work { result.spent ≡ false }
        ensures begun { result ≡ just_begun result.start }
    {
        let _ = id;
        Feeder {
            k,
            first_epoch: epoch,
            first_shift: shift,
            epoch,
            shift,
            load,
            sent: 0,
            batch: batch as usize,
            asked: false,
            drained: false,
            stopped: false,
            held: VecDeque::new(alloc),
            spent: false,
        }
    }

    /// Asks for the next batch, or says that none is left, and tries the held messages again.
    /// `Ok(false)`: nothing was done, since the last batch isn't granted yet or none is left. After
    /// an error the feeder is spent: each later call answers the error, and changes nothing.
    pub fn begin(&mut self, sends: &mut Sends) -> Result<bool, AllocError>
        ensures waits { result ≡ Ok false → IsWaiting self.old }
        ensures waits_still { result ≡ Ok false → (self.new ≡ self.old) × (sends.new ≡ sends.old) }
        ensures is_free { result ≡ Ok true → ¬ (IsWaiting self.old) }
        ensures begins { result ≡ Ok true → Begins self.old self.new sends.old sends.new }
        ensures goes_on { OnOk result ((self.old.spent ≡ false) × (self.new.spent ≡ false)) }
        ensures fails { OnErr result (self.new.spent ≡ true) }
        ensures spent { self.old.spent ≡ true
            → (result ≡ Err alloc_error) × (self.new ≡ self.old) × (sends.new ≡ sends.old) }
    {
        if self.spent {
            return Err(AllocError);
        }
        if self.is_waiting() {
            return Ok(false);
        }
        self.spent = true;
        self.request(sends)?;
        self.take_held(sends)?;
        self.spent = false;
        Ok(true)
    }

    /// Whether [`Feeder::begin`] would not answer `Ok(false)`. It takes no memory.
    pub fn can_begin(&self) -> bool
        ensures { result ≡ false ↔ ((self.now.spent ≡ false) × IsWaiting self.now) }
    {
        self.spent || !self.is_waiting()
    }

    fn is_waiting(&self) -> bool
        ensures { IsTrue result ↔ IsWaiting self.now }
    {
        self.asked || self.drained
    }

    /// Takes a message, or holds it where its cause hasn't come or it comes behind a held one. After
    /// an error the feeder is spent: each later call answers the error, and changes nothing.
    pub fn on(&mut self, m: ToFeeder, sends: &mut Sends) -> Result<(), AllocError>
        ensures takes { OnOk result (TakesMessage m self.old self.new sends.old sends.new) }
        ensures goes_on { OnOk result ((self.old.spent ≡ false) × (self.new.spent ≡ false)) }
        ensures fails { OnErr result (self.new.spent ≡ true) }
        ensures spent { self.old.spent ≡ true
            → (result ≡ Err alloc_error) × (self.new ≡ self.old) × (sends.new ≡ sends.old) }
    {
        if self.spent {
            return Err(AllocError);
        }
        self.spent = true;
        self.hold(m)?;
        self.take_held(sends)?;
        self.spent = false;
        Ok(())
    }

    /// Whether the last message, `Stop`, was taken. It takes no memory.
    pub fn stopped(&self) -> bool
        ensures value { result ≡ self.now.stopped }
        ensures stands { (start : FeederStart) (lists : FeederLists)
            → (stands : StandsFor start lists self.now) → IsTrue result ↔ (0 < stops stands.taken) }
    {
        self.stopped
    }

    /// How many batches it hasn't sent yet. It takes no memory.
    pub fn batches_left(&self) -> u64
        ensures { result ≡ length self.now.to_come }
    {
        let left = self.load.len() - self.sent as u64;
        if left == 0 {
            0
        } else {
            (left - 1) / self.batch as u64 + 1
        }
    }
}
