// Chains of three small relations.

ghost use Rattle.std.specs.Prelude.{◌≡◌, ◌≤◌, ◌+◌, ◌^◌, All, IsTrue, length};
ghost use Rattle.chain_join.specs.Chains.{IsWide};

use chain_join::{ChainFault, ChainRun, Third, Triple, joined_names, run_chain};
use grid_map::Weights;
use row_cells::{Bytes, Cell, Cells, Names, Rows, Table};
use row_tickets::Feed;
use std::alloc::{AllocError, Global};
use std::sync::Wait;
use std::test::Fail;
use std::thread::Threads;
use theta_pred::{Theta, resolve};
use theta_text::parse;
use trace_law::{Input, Setting};
use worker_gate::NoGate;

fn row(alloc: Global, id: u64, number: u64) -> Result<Cells, AllocError> {
    let mut row = Cells::new(alloc);
    row.push(Cell::decimal(alloc, id)?)?;
    row.push(Cell::decimal(alloc, number)?)?;
    Ok(row)
}

// The header `id` and another name.
fn names(alloc: Global, name: &[u8]) -> Result<Names, AllocError> {
    let mut names = Names::new(alloc);
    names.push(Bytes::from_slice(alloc, b"id")?)?;
    names.push(Bytes::from_slice(alloc, name)?)?;
    Ok(names)
}

// Rows with these numbers, under the ids 1, 2 and so on.
fn rows(alloc: Global, numbers: &[u64]) -> Result<Rows, AllocError> {
    let mut rows = Rows::new(alloc);
    let mut id = 0u64;
    for number in numbers {
        id = id.wrapping_add(1);
        rows.push(row(alloc, id, *number)?)?;
    }
    Ok(rows)
}

fn table(alloc: Global, name: &[u8], numbers: &[u64]) -> Result<Table, AllocError> {
    let names = names(alloc, name)?;
    let rows = rows(alloc, numbers)?;
    Ok(Table { names, rows })
}

fn theta(alloc: Global, text: &str, names_r: &Names, names_s: &Names) -> Result<Theta, AllocError> {
    let Ok(pred) = parse(alloc, text) else {
        return Err(AllocError);
    };
    match resolve(alloc, &pred, names_r, names_s) {
        Ok(theta) => Ok(theta),
        Err(_) => Err(AllocError),
    }
}

// Tickets for so many rows.
fn tickets(alloc: Global, numbers: &[u64]) -> Result<Bytes, AllocError> {
    let mut tickets = Bytes::new(alloc);
    for number in numbers {
        tickets.push((number.wrapping_mul(77) & 0xff) as u8)?;
    }
    Ok(tickets)
}

// R with these numbers as `x`, S with these as `y`, and a predicate.
fn first(alloc: Global, text: &str, xs: &[u64], ys: &[u64]) -> Result<Input, AllocError> {
    let table_r = table(alloc, b"x", xs)?;
    let table_s = table(alloc, b"y", ys)?;
    let tickets_r = tickets(alloc, xs)?;
    let tickets_s = tickets(alloc, ys)?;
    let theta = theta(alloc, text, &table_r.names, &table_s.names)?;
    Ok(Input {
        table_r,
        table_s,
        theta,
        tickets_r,
        tickets_s,
    })
}

// Q with these numbers as `z`, and the predicate by which S's ids are these numbers.
fn third(alloc: Global, first: &Input, zs: &[u64]) -> Result<Third, AllocError> {
    let names = joined_names(alloc, &first.table_r.names, &first.table_s.names)?;
    let table = table(alloc, b"z", zs)?;
    let theta = theta(alloc, "r.s_id = s.z", &names, &table.names)?;
    Ok(Third { table, theta })
}

// Four joiners, two feeders and two workers.
fn setting() -> Setting {
    Setting {
        k: 2,
        feeders: 2,
        workers: 2,
        batch: 1,
        feed: Feed::Alternate,
        fixed: None,
        weights: Weights { r: 1, s: 1 },
    }
}

fn all_are_wide(rows: &Rows, width: u64) -> bool
    ensures { IsTrue result → All (λ row. length row ≡ width) rows.now }
{
    rows.as_slice().iter().all(|row| row.len() == width)
}

// Whether a table has few rows and this width.
fn is_wide(table: &Table, width: u64) -> bool
    ensures few { IsTrue result → length table.now.rows ≤ 2 ^ 18 }
    ensures wide { IsTrue result → IsWide table.now width }
{
    table.rows.len() <= 1 << 18 && table.names.len() == width && all_are_wide(&table.rows, width)
}

// Whether the predicate has the width of the joined rows on its side R.
fn joins(first: &Input, theta: &Theta) -> bool
    ensures { IsTrue result → theta.now.width_r
        ≡ length first.now.table_r.names + length first.now.table_s.names }
{
    let width_r = first.table_r.names.len();
    width_r.checked_add(first.table_s.names.len()) == Some(theta.width_r())
}

fn run_checked<R: Threads + Wait + Sync>(
    rt: &R,
    alloc: Global,
    first: &Input,
    third: Third,
) -> Result<ChainRun, ChainFault> {
    let setting = setting();
    let width_s = third.theta.width_s();
    if first.valid()
        && setting.valid()
        && is_wide(&third.table, width_s)
        && joins(first, &third.theta)
    {
        run_chain(rt, alloc, first, third, &setting, 42, &NoGate)
    } else {
        Err(ChainFault::Memory)
    }
}

// The triples as digits.
fn triples_number(triples: &[Triple]) -> u64 {
    let mut number = 0u64;
    for triple in triples {
        let first = (triple.i as u64).wrapping_mul(100);
        let second = (triple.j as u64).wrapping_mul(10);
        let digits = first.wrapping_add(second).wrapping_add(triple.l as u64);
        number = number.wrapping_mul(1000).wrapping_add(digits);
    }
    number
}

// What is seen of a chain: its triples, and how many pairs each run found.
#[derive(Clone, Copy, Debug, PartialEq, Eq)]
struct Found {
    triples: u64,
    first: u64,
    second: u64,
}

fn found_in(run: &ChainRun) -> Found {
    Found {
        triples: triples_number(run.triples.as_slice()),
        first: run.first.run.pairs.len(),
        second: run.second.run.pairs.len(),
    }
}

fn seen<R: Threads + Wait + Sync>(
    rt: &R,
    alloc: Global,
    first: &Input,
    third: Third,
) -> Result<Found, ChainFault> {
    let run = run_checked(rt, alloc, first, third)?;
    Ok(found_in(&run))
}

// With two rows z of Q, which are ids of S.
fn seen_with_two<R: Threads + Wait + Sync>(
    rt: &R,
    alloc: Global,
    first: &Input,
) -> Result<Found, ChainFault> {
    let third = third(alloc, first, &[1, 3])?;
    seen(rt, alloc, first, third)
}

// Of these rows x and y by a predicate, with the same two of Q.
fn seen_of<R: Threads + Wait + Sync>(
    rt: &R,
    alloc: Global,
    text: &str,
    xs: &[u64],
    ys: &[u64],
) -> Result<Found, ChainFault> {
    let first = first(alloc, text, xs, ys)?;
    seen_with_two(rt, alloc, &first)
}

#[test]
fn rows_of_three_tables_are_joined(rt: HostRuntime) -> Result<(), Fail> {
    let seen = seen_of(&rt, rt.alloc(), "r.x = s.y", &[10, 20, 30], &[20, 30, 20]);
    let wanted = Found {
        triples: 100_121,
        first: 3,
        second: 2,
    };
    assert_eq!(rt; seen, Ok(wanted));
    Ok(())
}

#[test]
fn where_no_row_of_r_matches_there_is_no_triple(rt: HostRuntime) -> Result<(), Fail> {
    let seen = seen_of(&rt, rt.alloc(), "r.x = s.y", &[10, 20, 30], &[21, 31, 21]);
    let wanted = Found {
        triples: 0,
        first: 0,
        second: 0,
    };
    assert_eq!(rt; seen, Ok(wanted));
    Ok(())
}

// So many rows a side, all of whose pairs match.
fn seen_of_all<R: Threads + Wait + Sync>(
    rt: &R,
    alloc: Global,
    count: usize,
) -> Result<Found, ChainFault> {
    let numbers = vec![in alloc; 7u64; count]?;
    seen_of(rt, alloc, "1 = 1", numbers.as_slice(), numbers.as_slice())
}

#[test]
fn too_many_pairs_are_between(rt: HostRuntime) -> Result<(), Fail> {
    let seen = seen_of_all(&rt, rt.alloc(), 513);
    assert_eq!(rt; seen, Err(ChainFault::Between { pairs: 263_169 }));
    Ok(())
}

#[test]
fn names_are_joined_behind_their_sides(rt: HostRuntime) -> Result<(), Fail> {
    let alloc = rt.alloc();
    let names = joined_names(alloc, &names(alloc, b"x")?, &names(alloc, b"y")?)?;
    let wanted: [&[u8]; 4] = [b"r_id", b"r_x", b"s_id", b"s_y"];
    assert_eq!(rt; names.len(), 4);
    for (name, wanted) in names.as_slice().iter().zip(wanted) {
        assert_eq!(rt; name.as_slice(), wanted);
    }
    Ok(())
}
