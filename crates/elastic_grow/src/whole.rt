// One store with the rows of all.

ghost use Rattle.std.specs.Prelude.{◌≡◌, ◌≤◌, ◌^◌, ◌*◌, ◌++◌, IsPermutation, true, filter, IfOk, OnOk};
ghost use Rattle.std.specs.List.Sorted.{IsNonDecreasingBy};
ghost use Rattle.row_cells.specs.Lists.{gather};
ghost use Rattle.epoch_tags.specs.declared.tuple.Tuple.{Tuple as Tuple'};
ghost use Rattle.migration_plan.specs.Steps.{is_of};
ghost use Rattle.store_parts.specs.Matches.{HasWidth};
ghost use Rattle.store_parts.specs.Stored.{AreSided};
ghost use Rattle.joiner_core.specs.State.{tuples_of, IsKeyOf};
ghost use Rattle.elastic_grow.specs.Stores.{all_of, side_at, with_all, IsWhole};

use crate::split::power;
use epoch_tags::{Tuple, Tuples};
use joiner_core::first_store;
use row_cells::Side;
use std::alloc::{AllocError, Global};
use store_parts::Store;
use theta_pred::Theta;

// That each tuple of a store stands among those of its side.
fn are_sided(store: &Store)
    ensures { AreSided store.now.r store.now.s }
{
    let _ = store.side(Side::R);
    let _ = store.side(Side::S);
}

// Appends copies of a list of tuples.
fn add_copies(all: &mut Tuples, tuples: &[Tuple]) -> Result<(), AllocError>
    ensures { OnOk result (all.new ≡ all.old ++ tuples.now) }
{
    for tuple in tuples {
        all.push(tuple.copy()?)?;
    }
    Ok(())
}

// Appends copies of a store's tuples of one side.
fn add_side(all: &mut Tuples, store: &Store, side: Side) -> Result<(), AllocError>
    ensures { OnOk result (all.new ≡ all.old ++ filter (is_of side) (tuples_of store.now)) }
{
    are_sided(store);
    add_copies(all, store.side(side).as_slice())
}

// The same of the store at this place, if there is one.
fn add_at(all: &mut Tuples, stores: &[Store], side: Side, place: u32) -> Result<(), AllocError>
    ensures { OnOk result (all.new ≡ all.old ++ side_at stores.now side place) }
{
    match stores.get(place as usize) {
        Some(store) => add_side(all, store, side),
        None => Ok(()),
    }
}

// The same of so many stores, each at `step` places behind the one before.
fn gathered(
    alloc: Global,
    stores: &[Store],
    side: Side,
    count: u32,
    step: u32,
) -> Result<Tuples, AllocError>
    requires count { count ≤ 2 ^ 8 }
    requires step { step ≤ 2 ^ 8 }
    ensures { IfOk result (λ tuples.
        tuples ≡ gather count (λ i. side_at stores.now side (i * step))) }
{
    let mut all = Tuples::new(alloc);
    for i in 0..count {
        add_at(&mut all, stores, side, i * step)?;
    }
    Ok(all)
}

// Sorts tuples by the numbers of their rows.
fn sort_tuples(tuples: &mut [Tuple])
    ensures permutation { IsPermutation tuples.old tuples.new }
    ensures order { IsNonDecreasingBy (λ (t : Tuple'). t.index) tuples.new }
{
    tuples.sort_unstable_by_key(|tuple| tuple.index);
}

// The tuples by the numbers of their rows.
fn by_index(tuples: Tuples) -> Vec<Tuple>
    ensures permutation { IsPermutation tuples result.items }
    ensures order { IsNonDecreasingBy (λ (t : Tuple'). t.index) result.items }
{
    let mut held = tuples.into_vec();
    sort_tuples(&mut held);
    held
}

// Whether a tuple has a cell for each column of its side.
fn has_width(theta: &Theta, tuple: &Tuple) -> bool
    ensures { result ≡ true → HasWidth theta.now tuple.now.side tuple.now }
{
    match tuple.side {
        Side::R => tuple.cells.len() == theta.width_r(),
        Side::S => tuple.cells.len() == theta.width_s(),
    }
}

// Adds tuples, if each has a cell for each column of its side.
pub(crate) fn add_all(
    store: &mut Store,
    theta: &Theta,
    tuples: Vec<Tuple>,
) -> Result<(), AllocError>
    requires { IsKeyOf theta.now store.old.key }
    ensures { OnOk result (store.new ≡ with_all store.old tuples.items) }
{
    for tuple in tuples {
        if !has_width(theta, &tuple) {
            return Err(AllocError);
        }
        store.fits_key(theta, &tuple);
        store.add(tuple)?;
    }
    Ok(())
}

// The tuples of the stores of a grid of this shape, each once: those of R in its first column, and those of S in its
// first row behind them.
fn all_tuples(alloc: Global, k: u32, shift: u32, stores: &[Store]) -> Result<Tuples, AllocError>
    requires k { k ≤ 6 }
    requires shift { shift ≤ k }
    ensures { IfOk result (λ all. all ≡ all_of k shift stores.now) }
{
    let mut all = gathered(alloc, stores, Side::R, power(k - shift), power(shift))?;
    let more = gathered(alloc, stores, Side::S, power(shift), 1)?;
    add_copies(&mut all, more.as_slice())?;
    Ok(all)
}

// A store with all rows of the stores of a grid of this shape.
pub(crate) fn whole(
    alloc: Global,
    theta: &Theta,
    k: u32,
    shift: u32,
    stores: &[Store],
) -> Result<Store, AllocError>
    requires k { k ≤ 6 }
    requires shift { shift ≤ k }
    ensures { IfOk result (λ whole. IsWhole theta.now k shift stores.now whole) }
{
    let all = all_tuples(alloc, k, shift, stores)?;
    let mut store = first_store(alloc, theta)?;
    match add_all(&mut store, theta, by_index(all)) {
        Ok(()) => Ok(store),
        Err(refused) => {
            drop(store);
            Err(refused)
        }
    }
}
