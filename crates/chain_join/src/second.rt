// What the second run joins.

ghost use Rattle.std.specs.Prelude.{◌≡◌, ◌≤◌, ◌<◌, ◌+◌, ◌^◌, All, IfOk, length};
ghost use Rattle.trace_law.specs.Validity.{IsValidInput};
ghost use Rattle.trace_law.specs.Join.{nested_loop};
ghost use Rattle.joined_rows.specs.Joined.{joined_names as joined_names'};
ghost use Rattle.chain_join.specs.Chains.{IsWide, joined_rows as joined_rows', second_input as second_input', tickets_of};

use epoch_tags::Pair;
use joined_rows::{joined_names, joined_rows};
use row_cells::{Bytes, Rows, Side, Table};
use row_tickets::tickets;
use std::alloc::{AllocError, Global};
use theta_pred::Theta;
use trace_law::Input;

/// The third table, and the predicate by which the joined rows, its side R, are joined with that table, its side S.
#[derive(Drop)]
pub struct Third {
    pub table: Table,
    pub theta: Theta,
}

// What is in a list of bytes is below 256.
fn are_bytes(tickets: &[u8])
    ensures { All (λ ticket. ticket < 2 ^ 8) tickets.now }
{
    let _count = tickets.len();
}

// The tickets of a side's rows.
fn drawn(alloc: Global, seed: u64, side: Side, rows: &Rows) -> Result<Bytes, AllocError>
    ensures is { IfOk result (λ drawn. drawn ≡ tickets_of seed side rows.now) }
    ensures bytes { IfOk result (λ drawn. All (λ ticket. ticket < 2 ^ 8) drawn) }
{
    let drawn = tickets(alloc, seed, side, rows.len())?;
    are_bytes(drawn.as_slice());
    Ok(drawn)
}

// The table of the joined rows of these pairs.
fn joined_table(alloc: Global, first: &Input, pairs: &[Pair]) -> Result<Table, AllocError>
    requires { pairs.now ≡ nested_loop first.now }
    ensures names { IfOk result (λ table. table.names
        ≡ joined_names' first.now.table_r.names first.now.table_s.names) }
    ensures rows { IfOk result (λ table. table.rows ≡ joined_rows' first.now) }
{
    let names = joined_names(alloc, &first.table_r.names, &first.table_s.names)?;
    let rows = joined_rows(alloc, &first.table_r.rows, &first.table_s.rows, pairs)?;
    Ok(Table { names, rows })
}

// The joined rows' side: their table, and its tickets.
fn joined_side(
    alloc: Global,
    first: &Input,
    pairs: &[Pair],
    seed: u64,
) -> Result<(Table, Bytes), AllocError>
    requires { pairs.now ≡ nested_loop first.now }
    ensures names { IfOk result (λ side. side.0.names
        ≡ joined_names' first.now.table_r.names first.now.table_s.names) }
    ensures rows { IfOk result (λ side. side.0.rows ≡ joined_rows' first.now) }
    ensures tickets { IfOk result (λ side. side.1 ≡ tickets_of seed Side.R side.0.rows) }
    ensures bytes { IfOk result (λ side. All (λ ticket. ticket < 2 ^ 8) side.1) }
{
    let table = joined_table(alloc, first, pairs)?;
    let tickets = drawn(alloc, seed, Side::R, &table.rows)?;
    Ok((table, tickets))
}

// The joined rows' side, and the tickets of the third table's rows.
fn sides(
    alloc: Global,
    first: &Input,
    pairs: &[Pair],
    rows: &Rows,
    seed: u64,
) -> Result<(Table, Bytes, Bytes), AllocError>
    requires { pairs.now ≡ nested_loop first.now }
    ensures names { IfOk result (λ sides. sides.0.names
        ≡ joined_names' first.now.table_r.names first.now.table_s.names) }
    ensures rows { IfOk result (λ sides. sides.0.rows ≡ joined_rows' first.now) }
    ensures tickets_r { IfOk result (λ sides. sides.1 ≡ tickets_of seed Side.R sides.0.rows) }
    ensures tickets_s { IfOk result (λ sides. sides.2 ≡ tickets_of seed Side.S rows.now) }
    ensures bytes_r { IfOk result (λ sides. All (λ ticket. ticket < 2 ^ 8) sides.1) }
    ensures bytes_s { IfOk result (λ sides. All (λ ticket. ticket < 2 ^ 8) sides.2) }
{
    let tickets_s = drawn(alloc, seed, Side::S, rows)?;
    let (table_r, tickets_r) = joined_side(alloc, first, pairs, seed)?;
    Ok((table_r, tickets_r, tickets_s))
}

/// What the second run joins: the joined rows of the first run's pairs, with the third table.
pub(crate) fn second_input(
    alloc: Global,
    first: &Input,
    pairs: &[Pair],
    third: Third,
    seed: u64,
) -> Result<Input, AllocError>
    requires input { IsValidInput first.now }
    requires pairs { pairs.now ≡ nested_loop first.now }
    requires few { length (nested_loop first.now) ≤ 2 ^ 18 }
    requires rows { length third.table.rows ≤ 2 ^ 18 }
    requires width_r { third.theta.width_r
        ≡ length first.now.table_r.names + length first.now.table_s.names }
    requires width_s { IsWide third.table third.theta.width_s }
    ensures is { IfOk result (λ input. input ≡ second_input' first.now third seed) }
    ensures valid { IfOk result IsValidInput }
{
    match sides(alloc, first, pairs, &third.table.rows, seed) {
        Ok((table_r, tickets_r, tickets_s)) => Ok(Input {
            table_r,
            table_s: third.table,
            theta: third.theta,
            tickets_r,
            tickets_s,
        }),
        Err(refused) => {
            drop(third);
            Err(refused)
        }
    }
}
