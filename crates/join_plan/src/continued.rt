// The rows of a later file behind those of its side.

ghost use Rattle.std.specs.Prelude.{◌≡◌, ◌⊎◌, ◌++◌, ◌∷◌, ◌+◌, ◌≤◌, ℕ, [], true, Ok, Err, IfErr, IfOk, length};
ghost use Rattle.std.specs.Prelude.{nat_lt};
ghost use Rattle.join_rows.specs.Records.{IsTable, most_rows};
ghost use Rattle.join_rows.specs.Shelves.{Spot, Told};
ghost use Rattle.join_words.specs.Words.{Asked};
ghost use Rattle.join_plan.specs.Causes.{Refuses};
ghost use Rattle.join_plan.specs.Files.{source_of};
ghost use Rattle.join_plan.specs.Headers.{same_names as same_names'};
ghost use Rattle.join_plan.specs.Later;
ghost use Rattle.join_plan.specs.Later.{ended as ended', with_more as with_more', with_rows as with_rows'};
ghost use Rattle.join_plan.specs.Waves.{AreWithin, IsUpTo, end_of as end_of'};

use crate::fault::{InputFault, LimitFault, Refusal};
use crate::files::Tables;
use crate::headers::same_names;
use crate::reading::File;
use crate::rows::appended;
use crate::waves::{InWaves, WaveEnds, end_of};
use row_cells::{Side, Table};
use std::alloc::AllocError;

// How many rows a side may have in all.
const MOST_ROWS: u64 = 1 << 18;

/// The rows of two tables with one header, under it.
fn joined(first: Table, more: Table) -> Result<Table, AllocError>
    requires first { IsTable first }
    requires more { IsTable more }
    requires same { same_names' first.names more.names ≡ true }
    requires few { length first.rows + length more.rows ≤ 262144 }
    ensures is { IfOk result (λ table.
        table ≡ record { names = first.names; rows = first.rows ++ more.rows }) }
    ensures whole { IfOk result IsTable }
{
    let rows = appended(first.rows, more.rows)?;
    Ok(Table {
        names: first.names,
        rows,
    })
}

/// The same, unless there are too many rows in all.
fn unless_past(file: &File<'_>, first: Table, more: Table) -> Result<Table, Refusal>
    requires first { IsTable first }
    requires more { IsTable more }
    requires same { same_names' first.names more.names ≡ true }
    ensures answer { (result ≡ Err Refusal.Memory)
        ⊎ (result ≡ Later.unless_past file.now.side file.now.wave first
        (nat_lt most_rows (length first.rows + length more.rows)) more) }
    ensures found { IfOk result (λ table. Later.unless_past file.now.side file.now.wave first
        (nat_lt most_rows (length first.rows + length more.rows)) more ≡ Ok table) }
    ensures whole { IfOk result IsTable }
    ensures grows { IfOk result (λ table. length first.rows ≤ length table.rows) }
    ensures refused { (old new : ℕ) (told : Told) (spot : Spot) (asked : Asked)
        → IfErr result (Refuses old new told spot asked) }
    ensures reads { result ≡ Err Refusal.Read → ⊥ }
{
    let rows = first.rows.len() + more.rows.len();
    if rows > MOST_ROWS {
        return Err(Refusal::Limit(LimitFault::Total {
            side: file.side,
            wave: file.wave,
            rows,
        }));
    }
    match joined(first, more) {
        Ok(table) => Ok(table),
        Err(AllocError) => Err(Refusal::Memory),
    }
}

/// A side's table with the rows of a later file, or why they can't stand there.
fn continued(file: &File<'_>, first: Table, more: Table) -> Result<Table, Refusal>
    requires first { IsTable first }
    requires more { IsTable more }
    ensures answer { (result ≡ Err Refusal.Memory)
        ⊎ (result ≡ Later.continued file.now.side file.now.wave first more) }
    ensures found { IfOk result
        (λ table. Later.continued file.now.side file.now.wave first more ≡ Ok table) }
    ensures whole { IfOk result IsTable }
    ensures grows { IfOk result (λ table. length first.rows ≤ length table.rows) }
    ensures refused { (old new : ℕ) (told : Told) (spot : Spot) (asked : Asked)
        → IfErr result (Refuses old new told spot asked) }
    ensures reads { result ≡ Err Refusal.Read → ⊥ }
{
    if !same_names(first.names.as_slice(), more.names.as_slice()) {
        return Err(Refusal::Input(InputFault::Header {
            side: file.side,
            wave: file.wave,
        }));
    }
    unless_past(file, first, more)
}

/// The same of the tables of both sides.
fn with_rows(file: &File<'_>, tables: Tables, more: Table) -> Result<Tables, Refusal>
    requires table_r { IsTable tables.of_r }
    requires table_s { IsTable tables.of_s }
    requires more { IsTable more }
    ensures answer { (result ≡ Err Refusal.Memory)
        ⊎ (result ≡ with_rows' (source_of file.now) tables more) }
    ensures found { IfOk result (λ all. with_rows' (source_of file.now) tables more ≡ Ok all) }
    ensures whole_r { IfOk result (λ all. IsTable all.of_r) }
    ensures whole_s { IfOk result (λ all. IsTable all.of_s) }
    ensures grows { IfOk result (λ all. IsUpTo (end_of' tables) (end_of' all)) }
    ensures refused { (old new : ℕ) (told : Told) (spot : Spot) (asked : Asked)
        → IfErr result (Refuses old new told spot asked) }
    ensures reads { result ≡ Err Refusal.Read → ⊥ }
{
    let Tables { of_r, of_s } = tables;
    match file.side {
        Side::R => match continued(file, of_r, more) {
            Ok(of_r) => Ok(Tables { of_r, of_s }),
            Err(refusal) => Err(refusal),
        },
        Side::S => match continued(file, of_s, more) {
            Ok(of_s) => Ok(Tables { of_r, of_s }),
            Err(refusal) => Err(refusal),
        },
    }
}

/// The wave has ended, where this was its file of S.
fn ended(side: Side, tables: Tables, ends: WaveEnds) -> Result<InWaves, AllocError>
    ensures { IfOk result (λ waves. waves ≡ ended' side tables ends) }
{
    let mut ends = ends;
    match side {
        Side::R => {}
        Side::S => ends.push(end_of(&tables))?,
    }
    Ok(InWaves { tables, ends })
}

/// The waves with the rows of a later file, or why they can't stand there.
pub(crate) fn with_more(file: &File<'_>, waves: InWaves, more: Table) -> Result<InWaves, Refusal>
    requires table_r { IsTable waves.tables.of_r }
    requires table_s { IsTable waves.tables.of_s }
    requires more { IsTable more }
    requires ends { AreWithin waves.tables waves.ends }
    ensures answer { (result ≡ Err Refusal.Memory)
        ⊎ (result ≡ with_more' (source_of file.now) waves more) }
    ensures found { IfOk result (λ all. with_more' (source_of file.now) waves more ≡ Ok all) }
    ensures whole_r { IfOk result (λ all. IsTable all.tables.of_r) }
    ensures whole_s { IfOk result (λ all. IsTable all.tables.of_s) }
    ensures within { IfOk result (λ all. AreWithin all.tables all.ends) }
    ensures begun { file.now.side ≡ Side.R → IfOk result (λ all. all.ends ≡ waves.ends) }
    ensures ended { file.now.side ≡ Side.S
        → IfOk result (λ all. all.ends ≡ waves.ends ++ end_of' all.tables ∷ []) }
    ensures refused { (old new : ℕ) (told : Told) (spot : Spot) (asked : Asked)
        → IfErr result (Refuses old new told spot asked) }
    ensures reads { result ≡ Err Refusal.Read → ⊥ }
{
    let InWaves { tables, ends } = waves;
    match with_rows(file, tables, more) {
        Ok(tables) => match ended(file.side, tables, ends) {
            Ok(waves) => Ok(waves),
            Err(AllocError) => Err(Refusal::Memory),
        },
        Err(refusal) => Err(refusal),
    }
}
