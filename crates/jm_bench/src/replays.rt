// Replays of made tables.

ghost use Rattle.std.specs.Prelude.{◌≤◌, ◌^◌};

use grid_map::Weights;
use join_rows::make_table;
use link_trace::{Input, Setting, replay};
use row_cells::{Bytes, Side, Table};
use row_tickets::{Feed, tickets};
use std::alloc::{AllocError, Global};
use std::sync::Wait;
use theta_pred::{Theta, resolve};
use theta_text::parse;

// That the rows have the same number.
fn same_number(alloc: Global, table_r: &Table, table_s: &Table) -> Result<Theta, AllocError> {
    let Ok(pred) = parse(alloc, "r.id = s.id") else {
        return Err(AllocError);
    };
    let theta = resolve(alloc, &pred, &table_r.names, &table_s.names);
    drop(pred);
    match theta {
        Ok(theta) => Ok(theta),
        Err(fault) => {
            drop(fault);
            Err(AllocError)
        }
    }
}

// The tickets of so many rows of each side.
fn drawn(alloc: Global, count: u64) -> Result<(Bytes, Bytes), AllocError>
    requires few { count ≤ 2 ^ 16 }
{
    let tickets_r = tickets(alloc, 1, Side::R, count)?;
    let tickets_s = tickets(alloc, 1, Side::S, count)?;
    Ok((tickets_r, tickets_s))
}

// A made table of S with so many rows, and the predicate by which it is joined.
fn made_beside(alloc: Global, table_r: &Table, count: u64) -> Result<(Table, Theta), AllocError>
    requires some { 1 ≤ count }
    requires few { count ≤ 2 ^ 16 }
{
    let table_s = make_table(alloc, Side::S, count)?;
    match same_number(alloc, table_r, &table_s) {
        Ok(theta) => Ok((table_s, theta)),
        Err(refused) => {
            drop(table_s);
            Err(refused)
        }
    }
}

// Two made tables of so many rows.
fn made(alloc: Global, count: u64) -> Result<Input, AllocError>
    requires some { 1 ≤ count }
    requires few { count ≤ 2 ^ 16 }
{
    let (tickets_r, tickets_s) = drawn(alloc, count)?;
    let table_r = make_table(alloc, Side::R, count)?;
    match made_beside(alloc, &table_r, count) {
        Ok((table_s, theta)) => Ok(Input {
            table_r,
            table_s,
            theta,
            tickets_r,
            tickets_s,
        }),
        Err(refused) => {
            drop(table_r);
            Err(refused)
        }
    }
}

// How many events the replay of number 0 has.
fn events_of<R: Wait>(
    rt: &R,
    alloc: Global,
    input: &Input,
    setting: &Setting,
) -> Result<u64, AllocError> {
    if input.valid() && setting.valid() {
        Ok(replay(rt, alloc, input, setting, 0)?.bouts)
    } else {
        Err(AllocError)
    }
}

/// How many events the replay of number 0 has, of two made tables of `count` rows with 2^k joiners and so many feeders.
pub fn events<R: Wait>(
    rt: &R,
    alloc: Global,
    count: u64,
    k: u32,
    feeders: u32,
) -> Result<u64, AllocError>
    requires some { 1 ≤ count }
    requires few { count ≤ 2 ^ 16 }
{
    let input = made(alloc, count)?;
    let setting = Setting {
        k,
        feeders,
        workers: 1,
        batch: 64,
        feed: Feed::Alternate,
        fixed: None,
        weights: Weights { r: 1, s: 1 },
    };
    let events = events_of(rt, alloc, &input, &setting);
    drop(input);
    events
}
