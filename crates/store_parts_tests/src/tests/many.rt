// A store of many tuples.

ghost use Rattle.std.specs.Prelude.{◌≡◌, length, IfOk};
ghost use Rattle.store_parts.specs.Accessed.{IsOwnAccess};
ghost use Rattle.store_parts.specs.Keyed.{IsOwn};
ghost use Rattle.store_parts.specs.Stored.{HaveWidths};

use super::probes::{Probe, finds};
use super::rows::{add, cell, row};
use super::{accessed, key, no_key, over_x_and_a};
use epoch_tags::Tuple;
use row_cells::{Cell, Side};
use std::alloc::{AllocError, Global};
use std::process::Abort;
use std::test::*;
use store_parts::{Store, Which};
use theta_pred::Theta;

// A row of S whose number repeats after a thousand rows.
fn one_of_many(alloc: Global, index: u32) -> Result<Tuple, AllocError>
    ensures { IfOk result (λ tuple. length tuple.cells ≡ 2) }
{
    let empty = cell(alloc, "-")?;
    let first = Cell::decimal(alloc, u64::from(index % 1000))?;
    row(alloc, Side::S, index, 0, first, empty)
}

fn add_one_of_many(
    alloc: Global,
    theta: &Theta,
    store: &mut Store,
    index: u32,
) -> Result<(), AllocError>
    requires r { theta.now.width_r ≡ 2 }
    requires s { theta.now.width_s ≡ 2 }
    requires widths { HaveWidths theta.now store.old }
    requires own { IsOwn theta.now store.old.key }
    requires access { IsOwnAccess theta.now store.old.access }
    ensures widths { HaveWidths theta.now store.new }
    ensures own { IsOwn theta.now store.new.key }
    ensures access { IsOwnAccess theta.now store.new.access }
{
    add(store, theta, one_of_many(alloc, index)?)
}

// Adds 5,000 tuples of S.
fn add_many(alloc: Global, theta: &Theta, store: &mut Store) -> Result<(), AllocError>
    requires r { theta.now.width_r ≡ 2 }
    requires s { theta.now.width_s ≡ 2 }
    requires widths { HaveWidths theta.now store.old }
    requires own { IsOwn theta.now store.old.key }
    requires access { IsOwnAccess theta.now store.old.access }
    ensures widths { HaveWidths theta.now store.new }
    ensures own { IsOwn theta.now store.new.key }
    ensures access { IsOwnAccess theta.now store.new.access }
{
    for index in 0..5000 {
        add_one_of_many(alloc, theta, store, index)?;
    }
    Ok(())
}

// What two rows find among them.
fn find_two(rt: &impl Abort, alloc: Global, theta: &Theta, store: &Store) -> Result<(), AllocError>
    requires r { theta.now.width_r ≡ 2 }
    requires s { theta.now.width_s ≡ 2 }
    requires widths { HaveWidths theta.now store.now }
    requires own { IsOwn theta.now store.now.key }
    requires access { IsOwnAccess theta.now store.now.access }
{
    assert_eq!(rt; store.side(Side::S).len(), 5000);
    let five = Probe {
        line: "R 9 0 999 -",
        which: Which::All,
        wanted: "[9 999][9 1999][9 2999][9 3999][9 4999]",
    };
    finds(rt, alloc, store, theta, five)?;
    let none = Probe {
        line: "R 9 0 1000 -",
        which: Which::All,
        wanted: "",
    };
    finds(rt, alloc, store, theta, none)
}

fn fill_and_find(
    rt: &impl Abort,
    alloc: Global,
    theta: &Theta,
    store: &mut Store,
) -> Result<(), AllocError>
    requires r { theta.now.width_r ≡ 2 }
    requires s { theta.now.width_s ≡ 2 }
    requires widths { HaveWidths theta.now store.old }
    requires own { IsOwn theta.now store.old.key }
    requires access { IsOwnAccess theta.now store.old.access }
{
    add_many(alloc, theta, store)?;
    find_two(rt, alloc, theta, store)
}

fn find_among_many(
    rt: &impl Abort,
    alloc: Global,
    theta: &Theta,
    mut store: Store,
) -> Result<(), AllocError>
    requires r { theta.now.width_r ≡ 2 }
    requires s { theta.now.width_s ≡ 2 }
    requires widths { HaveWidths theta.now store }
    requires own { IsOwn theta.now store.key }
    requires access { IsOwnAccess theta.now store.access }
{
    let outcome = fill_and_find(rt, alloc, theta, &mut store);
    drop(store);
    outcome
}

// Among many in a store with no key, with the predicate's, and with its access.
fn find_among_many_by_each(rt: &impl Abort, alloc: Global, theta: &Theta) -> Result<(), AllocError>
    requires r { theta.now.width_r ≡ 2 }
    requires s { theta.now.width_s ≡ 2 }
{
    find_among_many(rt, alloc, theta, Store::new(alloc, no_key(theta)))?;
    find_among_many(rt, alloc, theta, Store::new(alloc, key(theta)?))?;
    find_among_many(rt, alloc, theta, accessed(alloc, theta)?)
}

fn find_among_many_over(rt: &impl Abort, alloc: Global, predicate: &str) -> Result<(), AllocError> {
    let theta = over_x_and_a(rt, alloc, predicate)?;
    let outcome = find_among_many_by_each(rt, alloc, &theta);
    drop(theta);
    outcome
}

#[test]
fn a_store_of_5000_tuples_is_probed(rt: HostRuntime) -> Result<(), Fail> {
    find_among_many_over(&rt, rt.alloc(), "r.x = s.x")?;
    Ok(())
}
