// What a joiner keeps of a store.

ghost use Rattle.std.specs.Prelude.{◌≡◌, None};

use epoch_tags::{Tuple, Tuples};
use grid_map::Shape;
use row_cells::{Cells, Side};
use std::alloc::{AllocError, Global};
use std::process::Abort;
use std::test::*;
use store_parts::Store;

fn indices(alloc: Global, tuples: &Tuples) -> Result<Vec<u32>, AllocError> {
    let mut indices = Vec::new(alloc);
    for tuple in tuples.as_slice() {
        indices.push(tuple.index)?;
    }
    Ok(indices)
}

fn add_without_key(store: &mut Store, tuple: Tuple) -> Result<(), AllocError>
    requires { store.old.key ≡ None }
    ensures { store.new.key ≡ None }
{
    store.add(tuple)
}

// A row without cells.
fn of_ticket(alloc: Global, side: Side, index: u32, ticket: u8) -> Tuple {
    Tuple {
        side,
        index,
        ticket,
        stamp: 0,
        cells: Cells::new(alloc),
    }
}

fn add_all(alloc: Global, store: &mut Store, rows: &[(Side, u32, u8)]) -> Result<(), AllocError>
    requires { store.old.key ≡ None }
    ensures { store.new.key ≡ None }
{
    for (side, index, ticket) in rows {
        add_without_key(store, of_ticket(alloc, *side, *index, *ticket))?;
    }
    Ok(())
}

fn of_tickets(alloc: Global, rows: &[(Side, u32, u8)]) -> Result<Store, AllocError> {
    let mut store = Store::new(alloc, None);
    match add_all(alloc, &mut store, rows) {
        Ok(()) => Ok(store),
        Err(refused) => {
            drop(store);
            Err(refused)
        }
    }
}

// The indices of the tuples of a side that a joiner of two keeps.
fn kept_indices(
    rt: &impl Abort,
    alloc: Global,
    store: &Store,
    shift: u32,
    id: u32,
    side: Side,
) -> Result<Vec<u32>, AllocError> {
    assert!(rt; shift <= 1);
    assert!(rt; id <= 1);
    let kept = store.kept_copy(Shape { k: 1, shift }, id)?;
    let indices = indices(alloc, kept.side(side));
    drop(kept);
    indices
}

// That they are these.
fn keeps(
    rt: &impl Abort,
    alloc: Global,
    store: &Store,
    shift: u32,
    id: u32,
    side: Side,
    wanted: &[u32],
) -> Result<(), AllocError> {
    let kept = kept_indices(rt, alloc, store, shift, id, side)?;
    assert!(rt; kept.as_slice() == wanted, "joiner {id} at shift {shift}");
    Ok(())
}

// Two rows and one column, then one row and two columns.
fn keep(rt: &impl Abort, alloc: Global, store: &Store) -> Result<(), AllocError> {
    let cases: [(u32, u32, Side, &[u32]); 8] = [
        (0, 0, Side::R, &[0, 2]),
        (0, 0, Side::S, &[0, 1, 2]),
        (0, 1, Side::R, &[1]),
        (0, 1, Side::S, &[0, 1, 2]),
        (1, 0, Side::R, &[0, 1, 2]),
        (1, 0, Side::S, &[1]),
        (1, 1, Side::R, &[0, 1, 2]),
        (1, 1, Side::S, &[0, 2]),
    ];
    for (shift, id, side, wanted) in cases {
        keeps(rt, alloc, store, shift, id, side, wanted)?;
    }
    Ok(())
}

// The same of a store of these rows.
fn keep_of(rt: &impl Abort, alloc: Global, rows: &[(Side, u32, u8)]) -> Result<(), AllocError> {
    let store = of_tickets(alloc, rows)?;
    let outcome = keep(rt, alloc, &store);
    drop(store);
    outcome
}

#[test]
fn a_joiner_keeps_what_it_holds(rt: HostRuntime) -> Result<(), Fail> {
    let rows = [
        (Side::R, 0, 0),
        (Side::S, 0, 5),
        (Side::R, 1, 200),
        (Side::S, 1, 6),
        (Side::R, 2, 127),
        (Side::S, 2, 255),
    ];
    keep_of(&rt, rt.alloc(), &rows)?;
    Ok(())
}
