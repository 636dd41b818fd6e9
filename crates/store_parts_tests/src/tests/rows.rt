// Rows of two cells as lines, and stores of them.

ghost use Rattle.std.specs.Prelude.{◌≡◌, length, IfOk};
ghost use Rattle.store_parts.specs.Accessed.{IsOwnAccess};
ghost use Rattle.store_parts.specs.Keyed.{IsOwn};
ghost use Rattle.store_parts.specs.Stored.{HaveWidths};

use epoch_tags::Tuple;
use row_cells::{Bytes, Cell, Cells, Side};
use std::alloc::{AllocError, Global};
use store_parts::Store;
use theta_pred::Theta;

fn number(word: &str) -> u32 {
    word.parse::<u32>().unwrap_or(0)
}

fn side(word: &str) -> Side {
    if word == "R" { Side::R } else { Side::S }
}

// The cell of a text.
pub(super) fn cell(alloc: Global, text: &str) -> Result<Cell, AllocError> {
    Ok(Cell::new(Bytes::from_slice(alloc, text.as_bytes())?))
}

pub(super) fn row(
    alloc: Global,
    side: Side,
    index: u32,
    stamp: u32,
    first: Cell,
    second: Cell,
) -> Result<Tuple, AllocError>
    ensures { IfOk result (λ tuple. length tuple.cells ≡ 2) }
{
    let mut cells = Cells::new(alloc);
    cells.push(first)?;
    cells.push(second)?;
    Ok(Tuple {
        side,
        index,
        ticket: 0,
        stamp,
        cells,
    })
}

// The row of a line: its side, index, stamp and two cells.
pub(super) fn tuple(alloc: Global, line: &str) -> Result<Tuple, AllocError>
    ensures { IfOk result (λ tuple. length tuple.cells ≡ 2) }
{
    let words: Vec<&str> = line.split_whitespace().collect(alloc)?;
    let tuple = tuple_of(alloc, words.as_slice());
    drop(words);
    tuple
}

// The row of such words.
fn tuple_of(alloc: Global, words: &[&str]) -> Result<Tuple, AllocError>
    ensures { IfOk result (λ tuple. length tuple.cells ≡ 2) }
{
    let [of, index, stamp, first, second] = *words else {
        return Err(AllocError);
    };
    row(
        alloc,
        side(of),
        number(index),
        number(stamp),
        cell(alloc, first)?,
        cell(alloc, second)?,
    )
}

pub(super) fn add(store: &mut Store, theta: &Theta, tuple: Tuple) -> Result<(), AllocError>
    requires r { theta.now.width_r ≡ 2 }
    requires s { theta.now.width_s ≡ 2 }
    requires width { length tuple.cells ≡ 2 }
    requires widths { HaveWidths theta.now store.old }
    requires own { IsOwn theta.now store.old.key }
    requires access { IsOwnAccess theta.now store.old.access }
    ensures widths { HaveWidths theta.now store.new }
    ensures own { IsOwn theta.now store.new.key }
    ensures access { IsOwnAccess theta.now store.new.access }
{
    store.fits_key(theta, &tuple);
    store.add(tuple)
}

// Adds the row of a line.
fn add_line(alloc: Global, theta: &Theta, store: &mut Store, line: &str) -> Result<(), AllocError>
    requires r { theta.now.width_r ≡ 2 }
    requires s { theta.now.width_s ≡ 2 }
    requires widths { HaveWidths theta.now store.old }
    requires own { IsOwn theta.now store.old.key }
    requires access { IsOwnAccess theta.now store.old.access }
    ensures widths { HaveWidths theta.now store.new }
    ensures own { IsOwn theta.now store.new.key }
    ensures access { IsOwnAccess theta.now store.new.access }
{
    add(store, theta, tuple(alloc, line)?)
}

// Adds the rows of these lines.
fn fill(alloc: Global, theta: &Theta, store: &mut Store, lines: &[&str]) -> Result<(), AllocError>
    requires r { theta.now.width_r ≡ 2 }
    requires s { theta.now.width_s ≡ 2 }
    requires widths { HaveWidths theta.now store.old }
    requires own { IsOwn theta.now store.old.key }
    requires access { IsOwnAccess theta.now store.old.access }
    ensures widths { HaveWidths theta.now store.new }
    ensures own { IsOwn theta.now store.new.key }
    ensures access { IsOwnAccess theta.now store.new.access }
{
    for line in lines {
        add_line(alloc, theta, store, line)?;
    }
    Ok(())
}

// That store, with the tuples of these lines.
pub(super) fn filled(
    alloc: Global,
    theta: &Theta,
    mut store: Store,
    lines: &[&str],
) -> Result<Store, AllocError>
    requires r { theta.now.width_r ≡ 2 }
    requires s { theta.now.width_s ≡ 2 }
    requires widths { HaveWidths theta.now store }
    requires own { IsOwn theta.now store.key }
    requires access { IsOwnAccess theta.now store.access }
    ensures widths { IfOk result (λ store. HaveWidths theta.now store) }
    ensures own { IfOk result (λ store. IsOwn theta.now store.key) }
    ensures access { IfOk result (λ store. IsOwnAccess theta.now store.access) }
{
    match fill(alloc, theta, &mut store, lines) {
        Ok(()) => Ok(store),
        Err(refused) => {
            drop(store);
            Err(refused)
        }
    }
}
