ghost use Rattle.std.specs.Prelude.{◌≡◌, ◌≤◌, ◌^◌, IfOk, OnOk, true};
ghost use Rattle.joiner_core.specs.State.{IsKeyOf};
ghost use Rattle.store_parts.specs.Matches.{HasWidth};

use actor_core::{Rest, Stores};
use elastic_grow::{children, grow};
use epoch_tags::{Tuple, Tuples};
use grid_map::Weights;
use joiner_core::first_store;
use load_controller::{Cause, TurnLine};
use row_cells::{Bytes, Cell, Cells, Names, Side};
use std::alloc::{AllocError, Global};
use std::fmt::Debug;
use std::process::Abort;
use std::test::*;
use store_parts::Store;
use theta_pred::{Theta, resolve};
use theta_text::parse;

// That these are equal: one call, where an assertion in its place is dear to prove.
fn is<T: Copy + Debug + PartialEq>(rt: &impl Abort, seen: T, wanted: T, what: &str) {
    assert!(rt; seen == wanted, "{what}");
}

// What each function here makes, it lets go by a call where it can't go on: what a way out drops by itself is dear to
// prove.

fn header(alloc: Global, name: &[u8]) -> Result<Names, AllocError> {
    let name = Bytes::from_slice(alloc, name)?;
    let mut names = Names::new(alloc);
    match names.push(name) {
        Ok(()) => Ok(names),
        Err(refused) => {
            drop(names);
            Err(refused)
        }
    }
}

fn predicate(alloc: Global, text: &str, names: &Names) -> Result<Theta, AllocError> {
    let Ok(pred) = parse(alloc, text) else {
        return Err(AllocError);
    };
    let theta = match resolve(alloc, &pred, names, names) {
        Ok(theta) => Ok(theta),
        Err(fault) => {
            drop(fault);
            Err(AllocError)
        }
    };
    drop(pred);
    theta
}

// An equality over two tables with the column x.
fn equality(alloc: Global) -> Result<Theta, AllocError> {
    let names = header(alloc, b"x")?;
    let theta = predicate(alloc, "r.x = s.x", &names);
    drop(names);
    theta
}

fn one_cell(alloc: Global) -> Result<Cells, AllocError> {
    let text = Bytes::from_slice(alloc, b"5")?;
    let mut cells = Cells::new(alloc);
    match cells.push(Cell::new(text)) {
        Ok(()) => Ok(cells),
        Err(refused) => {
            drop(cells);
            Err(refused)
        }
    }
}

fn row(alloc: Global, side: Side, index: u32, ticket: u8) -> Result<Tuple, AllocError> {
    Ok(Tuple {
        side,
        index,
        ticket,
        stamp: 0,
        cells: one_cell(alloc)?,
    })
}

// Whether a tuple has a cell for each column of its side.
fn has_width(theta: &Theta, tuple: &Tuple) -> bool
    ensures { result ≡ true → HasWidth theta.now tuple.now.side tuple.now }
{
    match tuple.side {
        Side::R => tuple.cells.len() == theta.width_r(),
        Side::S => tuple.cells.len() == theta.width_s(),
    }
}

// Adds one row to a store.
fn add_row(
    alloc: Global,
    theta: &Theta,
    store: &mut Store,
    told: (Side, u32, u8),
) -> Result<(), AllocError>
    requires { IsKeyOf theta.now store.old.key }
    ensures { OnOk result (IsKeyOf theta.now store.new.key) }
{
    let (side, index, ticket) = told;
    let tuple = row(alloc, side, index, ticket)?;
    if !has_width(theta, &tuple) {
        drop(tuple);
        return Err(AllocError);
    }
    store.fits_key(theta, &tuple);
    store.add(tuple)
}

fn add_rows(
    alloc: Global,
    theta: &Theta,
    store: &mut Store,
    told: &[(Side, u32, u8); 4],
) -> Result<(), AllocError>
    requires { IsKeyOf theta.now store.old.key }
    ensures { OnOk result (IsKeyOf theta.now store.new.key) }
{
    add_row(alloc, theta, store, told[0])?;
    add_row(alloc, theta, store, told[1])?;
    add_row(alloc, theta, store, told[2])?;
    add_row(alloc, theta, store, told[3])
}

fn store(alloc: Global, theta: &Theta, told: &[(Side, u32, u8); 4]) -> Result<Store, AllocError>
    ensures { IfOk result (λ store. IsKeyOf theta.now store.key) }
{
    let mut store = first_store(alloc, theta)?;
    match add_rows(alloc, theta, &mut store, told) {
        Ok(()) => Ok(store),
        Err(refused) => {
            drop(store);
            Err(refused)
        }
    }
}

// What a single joiner with these rows grows to.
fn grown(
    alloc: Global,
    theta: &Theta,
    told: &[(Side, u32, u8); 4],
    rows_r: u64,
    rows_s: u64,
) -> Result<Rest, AllocError>
    requires rows_r { rows_r ≤ 2 ^ 32 }
    requires rows_s { rows_s ≤ 2 ^ 32 }
{
    let store = store(alloc, theta, told)?;
    let mut stores = Stores::new(alloc);
    if let Err(refused) = stores.push(store) {
        drop(stores);
        return Err(refused);
    }
    let line = TurnLine {
        cause: Cause::Start,
        rows_r,
        rows_s,
        base_r: 0,
        base_s: 0,
        epoch: 0,
        shift: 0,
        goal: 0,
        moving: false,
    };
    let rest = Rest { k: 0, line, stores };
    grow(alloc, rest, Weights { r: 1, s: 1 }, theta)
}

fn indices(alloc: Global, tuples: &Tuples) -> Result<Vec<u32>, AllocError> {
    let mut indices = Vec::new(alloc);
    for tuple in tuples.as_slice() {
        indices.push(tuple.index)?;
    }
    Ok(indices)
}

// That the tuples of a side are the rows of these numbers.
fn has_side(
    rt: &impl Abort,
    alloc: Global,
    tuples: &Tuples,
    wanted: &[u32],
    what: &str,
) -> Result<(), AllocError> {
    let seen = indices(alloc, tuples)?;
    is(rt, seen.as_slice(), wanted, what);
    drop(seen);
    Ok(())
}

// That a store has the rows of these numbers.
fn has(
    rt: &impl Abort,
    alloc: Global,
    store: &Store,
    wanted: &(&[u32], &[u32]),
) -> Result<(), AllocError> {
    has_side(rt, alloc, store.side(Side::R), wanted.0, "rows of R")?;
    has_side(rt, alloc, store.side(Side::S), wanted.1, "rows of S")
}

// That four stores have the rows of these numbers.
fn each_has(
    rt: &impl Abort,
    alloc: Global,
    rest: &Rest,
    wanted: &[(&[u32], &[u32])],
) -> Result<(), AllocError> {
    is(rt, rest.stores.len(), 4, "stores");
    for (store, wanted) in rest.stores.as_slice().iter().zip(wanted) {
        has(rt, alloc, store, wanted)?;
    }
    Ok(())
}

#[test]
fn a_joiner_has_four_children(rt: HostRuntime) {
    assert!(rt; children(2, 1, 3) == [9, 11, 13, 15], "shift 1");
    assert!(rt; children(0, 0, 0) == [0, 1, 2, 3], "one joiner");
}

fn grows_by_keeping(rt: &impl Abort, alloc: Global, theta: &Theta) -> Result<(), AllocError> {
    let told = [
        (Side::R, 0, 0),
        (Side::R, 1, 128),
        (Side::S, 0, 0),
        (Side::S, 1, 1),
    ];
    let wanted: [(&[u32], &[u32]); 4] = [(&[0], &[0]), (&[0], &[1]), (&[1], &[0]), (&[1], &[1])];
    let rest = grown(alloc, theta, &told, 2, 2)?;
    is(rt, (rest.k, rest.line.shift), (2, 1), "k and shift");
    let held = each_has(rt, alloc, &rest, &wanted);
    drop(rest);
    held
}

#[test]
fn each_child_keeps_what_it_holds(rt: HostRuntime) -> Result<(), Fail> {
    let theta = equality(rt.alloc())?;
    let held = grows_by_keeping(&rt, rt.alloc(), &theta);
    drop(theta);
    Ok(held?)
}

fn grows_by_placing(rt: &impl Abort, alloc: Global, theta: &Theta) -> Result<(), AllocError> {
    let told = [
        (Side::R, 3, 192),
        (Side::R, 0, 0),
        (Side::R, 1, 64),
        (Side::R, 2, 128),
    ];
    let wanted: [(&[u32], &[u32]); 4] = [(&[0], &[]), (&[1], &[]), (&[2], &[]), (&[3], &[])];
    let rest = grown(alloc, theta, &told, 4, 0)?;
    is(rt, (rest.k, rest.line.shift), (2, 0), "k and shift");
    let held = each_has(rt, alloc, &rest, &wanted);
    drop(rest);
    held
}

#[test]
fn an_empty_side_has_the_stores_placed_anew(rt: HostRuntime) -> Result<(), Fail> {
    let theta = equality(rt.alloc())?;
    let held = grows_by_placing(&rt, rt.alloc(), &theta);
    drop(theta);
    Ok(held?)
}
