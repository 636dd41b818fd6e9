// Stores of made tuples, and probes of them.

ghost use Rattle.std.specs.Prelude.{◌≡◌, ◌<◌, length, IfOk};
ghost use Rattle.store_parts.specs.Accessed.{IsOwnAccess};
ghost use Rattle.store_parts.specs.Keyed.{IsOwn};
ghost use Rattle.store_parts.specs.Stored.{HaveWidths};

use super::{BAND, COUNT, predicate, row};
use epoch_tags::{Pairs, Tuple};
use row_cells::Side;
use std::alloc::{AllocError, Global};
use store_parts::{Store, Which};
use theta_pred::Theta;

fn tuple(alloc: Global, side: Side, number: u32) -> Result<Tuple, AllocError>
    ensures side { IfOk result (λ tuple. tuple.side ≡ side) }
    ensures width { IfOk result (λ tuple. length tuple.cells ≡ 1) }
{
    Ok(Tuple {
        side,
        index: number,
        ticket: 0,
        stamp: 0,
        cells: row(alloc, number)?,
    })
}

fn add(alloc: Global, store: &mut Store, theta: &Theta, number: u32) -> Result<(), AllocError>
    requires s { theta.now.width_s ≡ 1 }
    requires widths { HaveWidths theta.now store.old }
    requires own { IsOwn theta.now store.old.key }
    requires access { IsOwnAccess theta.now store.old.access }
    ensures widths { HaveWidths theta.now store.new }
    ensures own { IsOwn theta.now store.new.key }
    ensures access { IsOwnAccess theta.now store.new.access }
{
    let tuple = tuple(alloc, Side::S, number)?;
    store.fits_key(theta, &tuple);
    store.add(tuple)
}

// A store without tuples, as a joiner's.
fn empty(alloc: Global, theta: &Theta) -> Result<Store, AllocError>
    ensures widths { IfOk result (λ store. HaveWidths theta.now store) }
    ensures own { IfOk result (λ store. IsOwn theta.now store.key) }
    ensures access { IfOk result (λ store. IsOwnAccess theta.now store.access) }
{
    let key = theta.key_atom()?;
    match theta.access() {
        Ok(access) => Store::new(alloc, key).with_access(access),
        Err(refused) => {
            drop(key);
            Err(refused)
        }
    }
}

// Adds this many tuples of S.
fn fill(alloc: Global, store: &mut Store, theta: &Theta, count: u32) -> Result<(), AllocError>
    requires s { theta.now.width_s ≡ 1 }
    requires widths { HaveWidths theta.now store.old }
    requires own { IsOwn theta.now store.old.key }
    requires access { IsOwnAccess theta.now store.old.access }
    ensures widths { HaveWidths theta.now store.new }
    ensures own { IsOwn theta.now store.new.key }
    ensures access { IsOwnAccess theta.now store.new.access }
{
    for number in 0..count {
        add(alloc, store, theta, number)?;
    }
    Ok(())
}

// A store of this many tuples of S, as a joiner's.
fn filled(alloc: Global, theta: &Theta, count: u32) -> Result<Store, AllocError>
    requires s { theta.now.width_s ≡ 1 }
    ensures widths { IfOk result (λ store. HaveWidths theta.now store) }
    ensures own { IfOk result (λ store. IsOwn theta.now store.key) }
    ensures access { IfOk result (λ store. IsOwnAccess theta.now store.access) }
{
    let mut store = empty(alloc, theta)?;
    match fill(alloc, &mut store, theta, count) {
        Ok(()) => Ok(store),
        Err(refused) => {
            drop(store);
            Err(refused)
        }
    }
}

// The store alone.
pub fn adds(alloc: Global) -> Result<u64, AllocError> {
    let theta = predicate(alloc, BAND)?;
    let store = filled(alloc, &theta, COUNT);
    drop(theta);
    let store = store?;
    let count = store.side(Side::S).len();
    drop(store);
    Ok(count)
}

fn probe(
    alloc: Global,
    theta: &Theta,
    store: &Store,
    number: u32,
    found: &mut Pairs,
) -> Result<(), AllocError>
    requires r { theta.now.width_r ≡ 1 }
    requires widths { HaveWidths theta.now store.now }
    requires own { IsOwn theta.now store.now.key }
    requires access { IsOwnAccess theta.now store.now.access }
{
    let tuple = tuple(alloc, Side::R, number)?;
    store.find_uncounted(&tuple, theta, Which::All, found)
}

fn probe_all(alloc: Global, theta: &Theta, store: &Store, modulus: u32) -> Result<u64, AllocError>
    requires modulus { 0 < modulus }
    requires r { theta.now.width_r ≡ 1 }
    requires widths { HaveWidths theta.now store.now }
    requires own { IsOwn theta.now store.now.key }
    requires access { IsOwnAccess theta.now store.now.access }
{
    let mut found = Pairs::new(alloc);
    for number in 0..COUNT {
        probe(alloc, theta, store, number % modulus, &mut found)?;
    }
    Ok(found.len())
}

// How many pairs the probes of a store of its own find.
fn pairs_of(alloc: Global, theta: &Theta, modulus: u32) -> Result<u64, AllocError>
    requires modulus { 0 < modulus }
    requires r { theta.now.width_r ≡ 1 }
    requires s { theta.now.width_s ≡ 1 }
{
    let store = filled(alloc, theta, COUNT)?;
    let found = probe_all(alloc, theta, &store, modulus);
    drop(store);
    found
}

// How many pairs the probes find, the numbers of the probing rows being taken by this modulus.
pub fn probes(alloc: Global, text: &str, modulus: u32) -> Result<u64, AllocError>
    requires { 0 < modulus }
{
    let theta = predicate(alloc, text)?;
    let found = pairs_of(alloc, &theta, modulus);
    drop(theta);
    found
}
