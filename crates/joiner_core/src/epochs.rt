// What a joiner has of its epochs: the settled one, and the open step.

ghost use Rattle.std.specs.Prelude.{◌≡◌, ℕ, false, true, None, ◌++◌, ◌∷◌, [], ◌<◌, ◌≤◌, ◌^◌, slice_set, OnOk};
ghost use Rattle.epoch_tags.specs.Flags.{flag_at, IsEachUp};
ghost use Rattle.joiner_core.specs.Changes.{turned_in, found_late, posts_late, opened_late};
ghost use Rattle.migration_plan.specs.Steps.{is_of};
ghost use Rattle.joiner_law.specs.History.{probed};
ghost use Rattle.joiner_core.specs.State.{stocked_of, named_by, does_hold, with_placed, IsRow, IsStock};
ghost use Rattle.joiner_law.specs.Posting.{moved_post};

mod accepts;
mod end;
mod fin;
mod moved;
mod settle;
mod tup;
mod turn;

use crate::stock::{self, move_to};
use epoch_tags::{Counts, Pairs, Sends, Tuple, are_all_up, is_up};
use grid_map::Shape;
use migration_plan::kept;
use row_cells::Side;
use std::alloc::{AllocError, Global};
use std::marker::Model;
use store_parts::{Store, Which};
use theta_pred::Theta;

#[derive(Drop)]
pub(crate) struct Epochs<'a> {
    k: u32,
    id: u32,
    feeders: u32,
    theta: &'a Theta,
    epoch: u32,
    shift: u32,
    store: Store,
    ended: Vec<bool>,
    step: Option<Opened>,
    moved: Counts,
    alloc: Global,
}

impl<'a> Model for Epochs<'a> {
    ghost use Rattle.std.specs.Coded.{codes};
    ghost use Rattle.theta_pred.specs.FormulaCode.{formula_code};
    ghost use Rattle.joiner_core.specs.State.{EpochState, stocked_of};

    ghost Value = { EpochState };

    ghost coded = { Prim.hlevel (codes, formula_code (Prim.hlevel codes)) };

    ghost view = { λ e. record {
      k = e.k;
      id = e.id;
      feeders = e.feeders;
      theta = e.theta.now;
      epoch = e.epoch;
      shift = e.shift;
      store = stocked_of e.store;
      ended = e.ended.items;
      step = e.step;
      moved = e.moved;
    } };
}

// How many joiners there are.
pub(crate) fn joiners(k: u32) -> u32
    requires { k ≤ 8 }
    ensures { result ≡ 2 ^ k }
{
    1 << k
}

impl<'a> Epochs<'a> {
    // The epochs of a joiner that is settled there with this store, before any message.
    pub(crate) fn settled_at(
        alloc: Global,
        k: u32,
        id: u32,
        shift: u32,
        epoch: u32,
        feeders: u32,
        theta: &'a Theta,
        store: Store,
        ended: Vec<bool>,
    ) -> Epochs<'a>
        ensures { result ≡ record {
          k = k;
          id = id;
          feeders = feeders;
          theta = theta.now;
          epoch = epoch;
          shift = shift;
          store = stocked_of store;
          ended = ended.items;
          step = None;
          moved = [];
        } }
    {
        Epochs {
            k,
            id,
            feeders,
            theta,
            epoch,
            shift,
            store,
            ended,
            step: None,
            moved: Counts::new(alloc),
            alloc,
        }
    }

    // The epoch of the last step that is settled.
    pub(crate) fn settled(&self) -> u32
        ensures { result ≡ self.now.epoch }
    {
        self.epoch
    }

    // The store of that epoch.
    pub(crate) fn settled_store(&self) -> &Store
        ensures { stocked_of result.now ≡ self.now.store }
    {
        &self.store
    }

    // The store of that epoch, for good.
    pub(crate) fn into_store(self) -> Store
        ensures { stocked_of result ≡ self.entry.store }
    {
        let Epochs {
            store,
            ended,
            step,
            moved,
            ..
        } = self;
        drop(ended);
        drop(step);
        drop(moved);
        store
    }

    pub(crate) fn feeders(&self) -> u32
        ensures { result ≡ self.now.feeders }
    {
        self.feeders
    }

    // How many joiners the grid has.
    pub(crate) fn joiners(&self) -> u32
        requires { self.now.k ≤ 8 }
        ensures { result ≡ 2 ^ self.now.k }
    {
        joiners(self.k)
    }

    // Whether feeder p has turned in the open step.
    fn has_turned(&self, p: u32) -> bool
        ensures { result ≡ turned_in self.now.step p }
    {
        match &self.step {
            Some(open) => is_up(&open.turned, p),
            None => false,
        }
    }

    fn has_ended(&self, p: u32) -> bool
        ensures { result ≡ flag_at self.now.ended p }
    {
        is_up(&self.ended, p)
    }

    // All feeders have ended, and no step is open.
    pub(crate) fn is_at_rest(&self) -> bool
        ensures up { result ≡ true → (self.now.step ≡ None) × IsEachUp self.now.ended }
        ensures down { result ≡ false → self.now.step ≡ None → IsEachUp self.now.ended → ⊥ }
    {
        self.step.is_none() && are_all_up(&self.ended)
    }
}

#[derive(Drop)]
struct Opened {
    epoch: u32,
    shift: u32,
    turned: Vec<bool>,
    store: Store,
    partner_ended: bool,
    alloc: Global,
}

impl Model for Opened {
    ghost use Rattle.std.specs.Coded.{codes};
    ghost use Rattle.theta_pred.specs.FormulaCode.{formula_code};
    ghost use Rattle.joiner_core.specs.State.{OpenStep, stocked_of};

    ghost Value = { OpenStep };

    ghost coded = { Prim.hlevel (codes, formula_code (Prim.hlevel codes)) };

    ghost view = { λ o. record {
      epoch = o.epoch;
      shift = o.shift;
      turned = o.turned.items;
      store = stocked_of o.store;
      partner_ended = o.partner_ended;
    } };
}

// Whether the tuple is of that side.
fn is_of(side: Side, tuple: &Tuple) -> bool
    ensures { result ≡ is_of side tuple.now }
{
    match (side, tuple.side) {
        (Side::R, Side::R) => true,
        (Side::S, Side::S) => true,
        (Side::R, Side::S) => false,
        (Side::S, Side::R) => false,
    }
}

// Sends a copy of a tuple to a joiner, if it is of that side.
fn pass_on(
    side: Side,
    to: u32,
    epoch: u32,
    tuple: &Tuple,
    sends: &mut Sends,
) -> Result<(), AllocError>
    ensures { OnOk result (sends.new ≡ sends.old ++ posts_late side to epoch tuple.now) }
{
    if is_of(side, tuple) {
        move_to(to, epoch, tuple, sends)?;
    }
    Ok(())
}

impl Opened {
    // Feeder p has turned.
    fn turn(&mut self, p: u32)
        ensures rest { self.new ≡ record self.old { turned = self.new.turned } }
        ensures turned { self.new.turned ≡ slice_set self.old.turned p true }
    {
        if (p as usize) < self.turned.len() {
            self.turned[p as usize] = true;
        }
    }

    // A tuple from before the step joins with the new ones, if it is kept.
    fn keep(
        &mut self,
        k: u32,
        id: u32,
        theta: &Theta,
        tuple: &Tuple,
        found: &mut Pairs,
    ) -> Result<(), AllocError>
        requires grid { k ≤ 8 }
        requires within { self.old.shift ≤ k }
        requires id { id < 2 ^ k }
        requires row { IsRow theta.now tuple.now }
        requires stock { IsStock theta.now self.old.store }
        ensures stored { OnOk result (self.new ≡ opened_late k id self.old tuple.now) }
        ensures found { OnOk result
            (found.new ≡ found.old ++ found_late (does_hold theta.now) k id self.old tuple.now) }
    {
        let shape = Shape {
            k,
            shift: self.shift,
        };
        if kept(shape, id, tuple) {
            stock::probe(
                &self.store,
                tuple,
                theta,
                Which::OnlyStamp(self.epoch),
                found,
            )?;
            let copy = tuple.copy()?;
            stock::add(&mut self.store, theta, copy)?;
        }
        Ok(())
    }

    // A tuple of the step's own epoch.
    fn take(
        &mut self,
        theta: &Theta,
        which: Which,
        tuple: Tuple,
        found: &mut Pairs,
    ) -> Result<(), AllocError>
        requires row { IsRow theta.now tuple }
        requires stock { IsStock theta.now self.old.store }
        ensures stored { OnOk result
            (self.new ≡ record self.old { store = with_placed tuple self.old.store }) }
        ensures found { OnOk result
            (found.new ≡ found.old
            ++ probed (does_hold theta.now) (named_by which) tuple self.old.store.tuples) }
    {
        stock::probe(&self.store, &tuple, theta, which, found)?;
        stock::add(&mut self.store, theta, tuple)
    }
}
