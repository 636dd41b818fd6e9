// The collector.

ghost use Rattle.std.specs.Prelude.{◌≡◌, ◌↔◌, IsTrue, true, false, ℕ, Err, IfOk, OnOk, OnErr, length, is_some, alloc_error, IsPermutation};
ghost use Rattle.std.specs.List.{list_all};
ghost use Rattle.pair_collector.specs.Law.{CollectorLists, IsComplete};
ghost use Rattle.pair_collector.specs.Standing.{StandsFor, TakesMessage, IsPassedOver, is_complete, just_begun, nothing_yet, state_after};
ghost use Rattle.pair_collector.specs.Fresh.{HasGiven, pairs_since};
ghost use Rattle.pair_collector.specs.Order.{InOrder};
ghost use Rattle.pair_collector.specs.Answer.{Collects};

use crate::answer::{all_pairs, fresh_pairs, loads, made, moved};
use crate::collected::Collected;
use crate::order::in_order;
use crate::part::Part;
use epoch_tags::{Actor, Counts, Pairs, ToCollector};
use std::alloc::{AllocError, Global};
use std::marker::Model;

/// Keeps the pairs of so many joiners, numbered from 0, until each of them has ended.
#[derive(Debug, Drop)]
pub struct Collector {
    alloc: Global,
    parts: Vec<Part>,
    // How many pairs of each joiner `fresh` gave, and 0 past its end.
    given: Counts,
    spent: bool,
}

impl Model for Collector {
    ghost use Rattle.pair_collector.specs.Standing.{CollectorState};

    ghost Value = { CollectorState };

    ghost view = { λ c. record { joiners = c.parts.items; given = c.given; spent = c.spent } };
}

// Whether each joiner has ended.
fn all_ended(parts: &[Part]) -> bool
    ensures { result ≡ list_all (λ kept. is_some kept.last) parts.now }
{
    parts.iter().all(|part| part.ended())
}

impl Collector {
    /// A collector of so many joiners, none of which has sent anything.
    pub fn start(alloc: Global, joiners: u32) -> Result<Collector, AllocError>
        ensures start { IfOk result (λ c. length c.joiners ≡ joiners) }
        ensures fresh { IfOk result (λ c. StandsFor joiners nothing_yet c) }
        ensures given { IfOk result (λ c. HasGiven joiners nothing_yet c) }
        ensures at_work { IfOk result (λ c. c.spent ≡ false) }
        ensures begun { IfOk result (λ c. c ≡ just_begun joiners) }
    {
        let mut parts = Vec::with_capacity(alloc, joiners as usize)?;
        for _ in 0..joiners {
            parts.push(Part::new(alloc))?;
        }
        Ok(Collector {
            alloc,
            parts,
            given: Counts::new(alloc),
            spent: false,
        })
    }

    /// Takes a message. `Found` counts until its joiner's first `Fin`; every other message is passed
    /// over. After `AllocError` the collector is spent, and every later call of this answers the same.
    pub fn on(&mut self, from: Actor, m: ToCollector) -> Result<(), AllocError>
        ensures takes { OnOk result (TakesMessage from m self.old self.new) }
        ensures state { OnOk result (self.new ≡ state_after from m self.old) }
        ensures passes { OnOk result (IsPassedOver self.old from → self.new ≡ self.old) }
        ensures given { self.new.given ≡ self.old.given }
        ensures goes_on { OnOk result ((self.old.spent ≡ false) × (self.new.spent ≡ false)) }
        ensures fails { OnErr result (self.new ≡ record self.old { spent = true }) }
        ensures spent { self.old.spent ≡ true → (result ≡ Err alloc_error) × (self.new ≡ self.old) }
    {
        if self.spent {
            return Err(AllocError);
        }
        let Actor::Joiner(joiner) = from else {
            return Ok(());
        };
        if joiner as usize >= self.parts.len() {
            return Ok(());
        }
        let taken = self.parts[joiner as usize].take(m);
        self.spent = taken.is_err();
        taken
    }

    /// The pairs that were taken since the last call of this that answered `Ok`, by the row of R and
    /// then by the row of S. After `AllocError` nothing counts as given.
    pub fn fresh(&mut self) -> Result<Pairs, AllocError>
        ensures gives { IfOk result (λ pairs. (joiners : ℕ) (earlier lists : CollectorLists)
            → StandsFor joiners lists self.old → HasGiven joiners earlier self.old
            → IsPermutation (pairs_since joiners earlier lists) pairs) }
        ensures order { IfOk result InOrder }
        ensures given { OnOk result ((joiners : ℕ) (lists : CollectorLists)
            → StandsFor joiners lists self.old → HasGiven joiners lists self.new) }
        ensures stands { (joiners : ℕ) (lists : CollectorLists)
            → StandsFor joiners lists self.old → StandsFor joiners lists self.new }
        ensures keeps { self.new ≡ record self.old { given = self.new.given } }
        ensures fails { OnErr result (self.new ≡ self.old) }
    {
        let given = made(self.alloc, &self.parts)?;
        let pairs = fresh_pairs(self.alloc, &self.parts, &self.given)?;
        self.given = given;
        Ok(in_order(pairs))
    }

    /// Whether each joiner has ended. It takes no memory.
    pub fn complete(&self) -> bool
        ensures value { result ≡ is_complete self.now }
        ensures stands { (joiners : ℕ) (lists : CollectorLists) → StandsFor joiners lists self.now
            → IsTrue result ↔ IsComplete joiners lists }
    {
        all_ended(&self.parts)
    }

    /// The answer of all that was taken. After `AllocError` the collector is gone.
    pub fn finish(self) -> Result<Collected, AllocError>
        requires { is_complete self ≡ true }
        ensures { IfOk result (λ collected. (joiners : ℕ) (lists : CollectorLists)
            → StandsFor joiners lists self → Collects joiners lists collected) }
    {
        let alloc = self.alloc;
        let made = made(alloc, &self.parts)?;
        let loads = loads(alloc, &self.parts)?;
        let moved = moved(alloc, &self.parts)?;
        let pairs = all_pairs(alloc, self.parts)?;
        Ok(Collected {
            pairs: in_order(pairs),
            made,
            loads,
            moved,
        })
    }
}
