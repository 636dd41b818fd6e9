// A joiner as its callers see it.

ghost use Rattle.std.specs.Prelude.{◌≡◌, ◌+◌, ◌-◌, ◌<◌, ◌^◌, ◌≤◌, ◌↔◌, min, IsTrue, [], OnOk, OnErr, IfOk, Err, alloc_error, true, false};
ghost use Rattle.std.specs.List.{AllByRecursion};
ghost use Rattle.row_cells.specs.Lists.{SameBag};
ghost use Rattle.epoch_tags.specs.declared.actor.Actor.TheVariants.{Joiner as Joiner'};
ghost use Rattle.epoch_tags.specs.declared.tuple.Tuple.{Tuple};
ghost use Rattle.epoch_tags.specs.Links.{HasLink};
ghost use Rattle.joiner_law.specs.Law.{JoinerStart, JoinerLists, IsFinished, store};
ghost use Rattle.theta_pred.specs.Accesses.{IsOverRows};
ghost use Rattle.joiner_core.specs.Beginnings.{HasBegun, BeginningsAreOne};
ghost use Rattle.joiner_core.specs.Machine.{start_of, nothing_yet};
ghost use Rattle.joiner_core.specs.State.{tuples_of, IsAccessOf, IsKeyOf, AreRows, HasRow};
ghost use Rattle.joiner_core.specs.Standing.{IsSpent, IsJoiner, theta_of, StandsFor, held_number, k_of, id_of, feeders_of, TakesMessage};

use crate::machine::Machine;
use epoch_tags::{Actor, Sends, ToJoiner};
use std::alloc::{AllocError, Global};
use std::marker::Model;
use store_parts::Store;
use theta_pred::Theta;

/// A joiner of the grid. It stores rows of both sides, finds the pairs that match, and exchanges rows with its partner
/// in each step. It borrows the predicate.
#[derive(Drop)]
pub struct Joiner<'a> {
    machine: Machine<'a>,
    spent: bool,
}

impl<'a> Model for Joiner<'a> {
    ghost use Rattle.std.specs.Prelude.{◌≡◌, false};
    ghost use Rattle.std.specs.Coded.{codes};
    ghost use Rattle.theta_pred.specs.FormulaCode.{formula_code};
    ghost use Rattle.joiner_core.specs.Standing.{JoinerState};
    ghost use Rattle.joiner_core.specs.Machine.{IsSound, state_of};

    ghost Value = { JoinerState };

    ghost coded = { Prim.hlevel (codes, formula_code (Prim.hlevel codes)) };

    ghost view = { λ joiner. record { machine = state_of joiner.machine; spent = joiner.spent } };

    // In the midst of a call, and after one that found no memory, it is spent.
    ghost invariant = { λ joiner. joiner.spent ≡ false → IsSound (state_of joiner.machine) };
}

// A store with no tuples and the predicate's key atom.
fn empty_store(alloc: Global, theta: &Theta) -> Result<Store, AllocError>
    ensures empty { IfOk result (λ store. tuples_of store ≡ []) }
    ensures key { IfOk result (λ store. IsKeyOf theta.now store.key) }
{
    Ok(Store::new(alloc, theta.key_atom()?))
}

// The store, with its tuples found by the predicate's access.
fn accessed(theta: &Theta, base: Store) -> Result<Store, AllocError>
    ensures tuples { IfOk result (λ store. tuples_of store ≡ tuples_of base) }
    ensures key { IfOk result (λ store. store.key ≡ base.key) }
    ensures access { IfOk result (λ store. IsAccessOf theta.now store.access) }
    ensures widths { IfOk result (λ store. IsOverRows theta.now store.access) }
{
    match theta.access() {
        Ok(access) => base.with_access(access),
        Err(refused) => {
            drop(base);
            Err(refused)
        }
    }
}

/// A store with no tuples, the predicate's key atom and its access, as a joiner of that predicate has at the beginning
/// of a run.
pub fn first_store(alloc: Global, theta: &Theta) -> Result<Store, AllocError>
    ensures empty { IfOk result (λ store. tuples_of store ≡ []) }
    ensures key { IfOk result (λ store. IsKeyOf theta.now store.key) }
    ensures access { IfOk result (λ store. IsAccessOf theta.now store.access) }
{
    let store = empty_store(alloc, theta)?;
    accessed(theta, store)
}

impl<'a> Joiner<'a> {
    /// Joiner `id` of `2^k`, at epoch 0 and with an empty store. Each feeder has a link to it.
    pub fn start(
        alloc: Global,
        k: u32,
        id: u32,
        shift: u32,
        feeders: u32,
        theta: &'a Theta,
    ) -> Result<Joiner<'a>, AllocError>
        requires k { k ≤ 8 }
        requires shift { shift ≤ k }
        requires id { id < 2 ^ k }
        requires feeders { 0 < feeders }
        ensures seat { IfOk result (λ joiner. IsJoiner k id feeders theta.now joiner) }
        ensures at_work { IfOk result (λ joiner. ¬ IsSpent joiner) }
        ensures fresh { IfOk result (λ joiner.
            StandsFor (start_of k id shift 0 feeders theta.now []) nothing_yet joiner) }
        // all that it holds is determined by these words
        ensures begun { IfOk result (λ joiner. HasBegun k id shift 0 feeders theta.now [] joiner) }
    {
        Joiner::start_at(
            alloc,
            k,
            id,
            shift,
            0,
            feeders,
            theta,
            empty_store(alloc, theta)?,
        )
    }

    /// Joiner `id` of `2^k`, settled at this epoch and shift and with this store. Its last message counts the moves of
    /// later epochs alone. After want of memory the store is dropped.
    pub fn start_at(
        alloc: Global,
        k: u32,
        id: u32,
        shift: u32,
        epoch: u32,
        feeders: u32,
        theta: &'a Theta,
        base: Store,
    ) -> Result<Joiner<'a>, AllocError>
        requires k { k ≤ 8 }
        requires shift { shift ≤ k }
        requires id { id < 2 ^ k }
        requires feeders { 0 < feeders }
        requires base { AllByRecursion (λ (x : Tuple). x.stamp ≤ epoch) (tuples_of base) }
        requires rows { AreRows theta.now (tuples_of base) }
        requires key { IsKeyOf theta.now base.key }
        ensures seat { IfOk result (λ joiner. IsJoiner k id feeders theta.now joiner) }
        ensures at_work { IfOk result (λ joiner. ¬ IsSpent joiner) }
        ensures fresh { IfOk result (λ joiner. StandsFor
            (start_of k id shift epoch feeders theta.now (tuples_of base)) nothing_yet joiner) }
        ensures begun { IfOk result (λ joiner.
            HasBegun k id shift epoch feeders theta.now (tuples_of base) joiner) }
    {
        let store = accessed(theta, base)?;
        let machine = Machine::start_at(alloc, k, id, shift, epoch, feeders, theta, store)?;
        Ok(Joiner {
            machine,
            spent: false,
        })
    }

    /// The epoch of the last step that is settled.
    pub fn settled_epoch(&self) -> u32
        ensures { (start : JoinerStart) (lists : JoinerLists)
            (stands : StandsFor start lists self.now)
            → result ≡ start.epoch + stands.law.done }
    {
        self.machine.settled()
    }

    /// How many messages are held, or `2^64 - 1` where there are more.
    pub fn held_count(&self) -> u64
        ensures { (start : JoinerStart) (lists : JoinerLists)
            (stands : StandsFor start lists self.now)
            → result ≡ min (held_number start lists stands.taken) (2 ^ 64 - 1) }
    {
        self.machine.held_count()
    }

    /// Whether all feeders have ended, no step is open and nothing is held.
    pub fn finished(&self) -> bool
        ensures { (start : JoinerStart) (lists : JoinerLists)
            (stands : StandsFor start lists self.now)
            → IsTrue result ↔ IsFinished start lists stands.taken }
    {
        self.machine.finished()
    }

    /// The rows that it holds in its settled epoch.
    pub fn store(&self) -> &Store
        ensures key { ¬ IsSpent self.now → IsKeyOf (theta_of self.now) result.now.key }
        ensures access { ¬ IsSpent self.now → IsAccessOf (theta_of self.now) result.now.access }
        ensures tuples { (start : JoinerStart) (lists : JoinerLists)
            (stands : StandsFor start lists self.now)
            → SameBag (tuples_of result.now) (store start stands.taken stands.law.done) }
    {
        self.machine.settled_store()
    }

    /// The rows that it holds in its settled epoch, for good: once it is finished, those of its last store.
    pub fn into_store(self) -> Store
        ensures key { ¬ IsSpent self.entry → IsKeyOf (theta_of self.entry) result.key }
        ensures access { ¬ IsSpent self.entry → IsAccessOf (theta_of self.entry) result.access }
        ensures tuples { (start : JoinerStart) (lists : JoinerLists)
            (stands : StandsFor start lists self.entry)
            → SameBag (tuples_of result) (store start stands.taken stands.law.done) }
    {
        let Joiner { machine, .. } = self;
        machine.into_store()
    }

    /// Whether want of memory has stopped it.
    pub fn is_spent(&self) -> bool
        ensures { IsTrue result ↔ IsSpent self.now }
    {
        self.spent
    }

    /// Whether this sender has a link to this joiner: a feeder of the run, or a joiner whose id differs in one bit.
    pub fn hears(&self, from: Actor) -> bool
        requires { ¬ IsSpent self.now }
        ensures { IsTrue result
            ↔ HasLink (k_of self.now) (feeders_of self.now) from (Joiner' (id_of self.now)) }
    {
        self.machine.hears(from)
    }

    /// Whether the row that the message carries, if it carries one, has a cell for each column of its side.
    pub fn fits(&self, m: &ToJoiner) -> bool
        ensures { IsTrue result ↔ HasRow (theta_of self.now) m.now }
    {
        self.machine.fits(m)
    }

    /// Takes a message, or holds it behind its link, and appends what it sends. After want of memory it is spent, and
    /// every later call answers the same and changes nothing.
    pub fn on(&mut self, from: Actor, m: ToJoiner, sends: &mut Sends) -> Result<(), AllocError>
        requires link { ¬ IsSpent self.old
            → HasLink (k_of self.old) (feeders_of self.old) from (Joiner' (id_of self.old)) }
        requires row { ¬ IsSpent self.old → HasRow (theta_of self.old) m }
        ensures takes { OnOk result (TakesMessage from m self.old self.new sends.old sends.new) }
        ensures goes_on { OnOk result ((¬ IsSpent self.old) × (¬ IsSpent self.new)) }
        ensures fails { OnErr result (IsSpent self.new) }
        ensures spent { IsSpent self.old
            → (result ≡ Err alloc_error) × (self.new ≡ self.old) × (sends.new ≡ sends.old) }
    {
        if self.spent {
            return Err(AllocError);
        }
        self.spent = true;
        self.machine.receive(from, m, sends)?;
        self.spent = false;
        Ok(())
    }
}

/// Two joiners that have begun alike, with the same tuples, are one. It has no code.
pub fn beginnings_are_one()
    ensures { BeginningsAreOne }
{}
