//! Inputs of one column a side, for the tests of runs. No contract says what they hold; each test sees it by its run.
#![tactic(auto)]

use row_cells::{Bytes, Cell, Cells, Names, Rows, Table};
use std::alloc::{AllocError, Global};
use theta_pred::{Theta, resolve};
use theta_text::parse;
use trace_law::Input;

// What each function here makes, it lets go by a call where it can't go on: what a way out drops by itself is dear to
// prove.

fn row(alloc: Global, number: u8) -> Result<Cells, AllocError> {
    let cell = Cell::decimal(alloc, u64::from(number))?;
    let mut row = Cells::new(alloc);
    match row.push(cell) {
        Ok(()) => Ok(row),
        Err(refused) => {
            drop(row);
            Err(refused)
        }
    }
}

fn add_rows(alloc: Global, rows: &mut Rows, numbers: &[u8]) -> Result<(), AllocError> {
    for number in numbers {
        rows.push(row(alloc, *number)?)?;
    }
    Ok(())
}

fn rows(alloc: Global, numbers: &[u8]) -> Result<Rows, AllocError> {
    let mut rows = Rows::new(alloc);
    match add_rows(alloc, &mut rows, numbers) {
        Ok(()) => Ok(rows),
        Err(refused) => {
            drop(rows);
            Err(refused)
        }
    }
}

// The header of one column.
fn header(alloc: Global, name: &[u8]) -> Result<Names, AllocError> {
    let name = Bytes::from_slice(alloc, name)?;
    let mut names = Names::new(alloc);
    match names.push(name) {
        Ok(()) => Ok(names),
        Err(refused) => {
            drop(names);
            Err(refused)
        }
    }
}

// A table with one column.
fn table(alloc: Global, name: &[u8], numbers: &[u8]) -> Result<Table, AllocError> {
    let names = header(alloc, name)?;
    match rows(alloc, numbers) {
        Ok(rows) => Ok(Table { names, rows }),
        Err(refused) => {
            drop(names);
            Err(refused)
        }
    }
}

fn predicate(alloc: Global, text: &str, r: &Table, s: &Table) -> Result<Theta, AllocError> {
    let Ok(pred) = parse(alloc, text) else {
        return Err(AllocError);
    };
    let theta = match resolve(alloc, &pred, &r.names, &s.names) {
        Ok(theta) => Ok(theta),
        Err(fault) => {
            drop(fault);
            Err(AllocError)
        }
    };
    drop(pred);
    theta
}

// A table and the tickets of its rows.
#[derive(Drop)]
struct Ticketed {
    table: Table,
    tickets: Bytes,
}

fn with_tickets(
    alloc: Global,
    name: &[u8],
    numbers: &[u8],
    tickets: &[u8],
) -> Result<Ticketed, AllocError> {
    let tickets = Bytes::from_slice(alloc, tickets)?;
    match table(alloc, name, numbers) {
        Ok(table) => Ok(Ticketed { table, tickets }),
        Err(refused) => {
            drop(tickets);
            Err(refused)
        }
    }
}

fn over(alloc: Global, text: &str, r: Ticketed, s: Ticketed) -> Result<Input, AllocError> {
    match predicate(alloc, text, &r.table, &s.table) {
        Ok(theta) => Ok(Input {
            table_r: r.table,
            table_s: s.table,
            theta,
            tickets_r: r.tickets,
            tickets_s: s.tickets,
        }),
        Err(refused) => {
            drop(r);
            drop(s);
            Err(refused)
        }
    }
}

/// R has a column `x`, and S a column `y`, with these numbers and tickets. A text that is no predicate over them is
/// answered like want of memory.
pub fn input(
    alloc: Global,
    text: &str,
    r: (&[u8], &[u8]),
    s: (&[u8], &[u8]),
) -> Result<Input, AllocError> {
    let of_r = with_tickets(alloc, b"x", r.0, r.1)?;
    match with_tickets(alloc, b"y", s.0, s.1) {
        Ok(of_s) => over(alloc, text, of_r, of_s),
        Err(refused) => {
            drop(of_r);
            Err(refused)
        }
    }
}

/// Three rows a side, of which equal ones match: two rows of S with one of R, one with another.
pub fn three_rows_a_side(alloc: Global, tickets: [u8; 3]) -> Result<Input, AllocError> {
    input(
        alloc,
        "r.x = s.y",
        (&[10, 20, 30], &tickets),
        (&[20, 30, 20], &tickets),
    )
}
