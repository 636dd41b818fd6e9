// The input and the setting of a run.

ghost use Rattle.std.specs.Prelude.{◌≡◌, ◌<◌, ◌^◌, All, IfOk};
ghost use Rattle.trace_law.specs.Validity.{IsValidInput, IsValidSetting};
ghost use Rattle.join_words.specs.Words.{asked};
ghost use Rattle.chain_join.specs.Chains.{tickets_of};
ghost use Rattle.row_cells.specs.declared.table.Side.TheVariants.{R as R', S as S'};
ghost use Rattle.join_cli.specs.Plan.{FitTables, input_with, setting_of};

use join_plan::Tables;
use join_words::Options;
use link_trace::{Input, Setting};
use row_cells::{Bytes, Side, Table};
use row_tickets::tickets;
use std::alloc::{AllocError, Global};
use theta_pred::Theta;

/// The setting that the options ask for.
pub(crate) fn setting(options: &Options<'_>) -> Setting
    ensures is { result ≡ setting_of (asked options.now) }
    ensures valid { IsValidSetting result }
{
    let grid = options.kind.grid();
    Setting {
        k: grid.k,
        feeders: options.feeders,
        workers: options.workers,
        batch: options.batch,
        feed: options.feed,
        fixed: grid.fixed,
        weights: options.weights,
    }
}

/// What is in a list of bytes is below 256.
fn are_bytes(tickets: &[u8])
    ensures { All (λ ticket. ticket < 2 ^ 8) tickets.now }
{
    let _count = tickets.len();
}

/// The tickets of a table's rows.
fn drawn(alloc: Global, seed: u64, side: Side, table: &Table) -> Result<Bytes, AllocError>
    ensures is { IfOk result (λ drawn. drawn ≡ tickets_of seed side table.now.rows) }
    ensures bytes { IfOk result (λ drawn. All (λ ticket. ticket < 2 ^ 8) drawn) }
{
    let drawn = tickets(alloc, seed, side, table.rows.len())?;
    are_bytes(drawn.as_slice());
    Ok(drawn)
}

/// The tickets of the rows of R and of S.
fn both_drawn(alloc: Global, seed: u64, tables: &Tables) -> Result<(Bytes, Bytes), AllocError>
    ensures r { IfOk result (λ drawn. drawn.0 ≡ tickets_of seed R' tables.now.of_r.rows) }
    ensures s { IfOk result (λ drawn. drawn.1 ≡ tickets_of seed S' tables.now.of_s.rows) }
    ensures bytes_r { IfOk result (λ drawn. All (λ ticket. ticket < 2 ^ 8) drawn.0) }
    ensures bytes_s { IfOk result (λ drawn. All (λ ticket. ticket < 2 ^ 8) drawn.1) }
{
    let of_r = drawn(alloc, seed, Side::R, &tables.of_r)?;
    match drawn(alloc, seed, Side::S, &tables.of_s) {
        Ok(of_s) => Ok((of_r, of_s)),
        Err(refused) => {
            drop(of_r);
            Err(refused)
        }
    }
}

/// Tables and a predicate, with the tickets of a seed.
pub(crate) fn input(
    alloc: Global,
    seed: u64,
    tables: Tables,
    theta: Theta,
) -> Result<Input, AllocError>
    requires { FitTables tables theta }
    ensures is { IfOk result (λ input. input ≡ input_with seed tables theta) }
    ensures valid { IfOk result IsValidInput }
{
    match both_drawn(alloc, seed, &tables) {
        Ok((tickets_r, tickets_s)) => Ok(Input {
            table_r: tables.of_r,
            table_s: tables.of_s,
            theta,
            tickets_r,
            tickets_s,
        }),
        Err(refused) => {
            drop(tables);
            drop(theta);
            Err(refused)
        }
    }
}
