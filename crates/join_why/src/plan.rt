// What a join that nothing is wrong with would be.

ghost use Rattle.std.specs.Prelude.{◌≤◌};
ghost use Rattle.grid_map.specs.Load.{AreWeights};

use crate::lookup::{Headers, push_lookup};
use crate::source::{label_of, name_of};
use grid_map::{Shape, Weights, best_shift, copies};
use join_plan::{Planned, Tables, Third, WaveEnd};
use join_words::{Grid, Kind, Options};
use joined_rows::joined_names;
use row_cells::{Side, Table};
use std::alloc::{AllocError, Global};

/// What a run takes beside its rows, in bytes.
const BESIDE: u64 = 8_000_000;
/// What a cell, a row and a copy of a row in a joiner's store take, in bytes, as measured.
const PER_CELL: u64 = 60;

const PER_ROW: u64 = 60;

const PER_COPY: u64 = 160;

/// More rows than any file may have, within which the sums below stay.
const MOST_ROWS: u64 = 1 << 20;
/// And more columns.
const MOST_COLUMNS: u64 = 1 << 24;

/// How many rows a table has.
fn rows_in(table: &Table) -> u64
    ensures { result ≤ 1048576 }
{
    table.rows.len().min(MOST_ROWS)
}

/// What the cells and rows of a table take, in bytes.
fn bytes_of(table: &Table) -> u64
    ensures { result ≤ 1125899906842624 }
{
    let columns = table.names.len().min(MOST_COLUMNS);
    let rows = rows_in(table);
    (rows * PER_ROW + rows * columns * PER_CELL).min(1 << 50)
}

/// Appends how many of a table's rows are of a file, and its columns.
fn push_table(
    text: &mut String,
    label: &str,
    name: &str,
    rows: u64,
    table: &Table,
) -> Result<(), AllocError> {
    let columns = table.names.len();
    let name = if name.is_empty() { "made" } else { name };
    write!(text, "{label}, {name}: rows {rows}, columns {columns}\n")
}

/// Appends the two files of a wave, which lies between these ends.
fn push_wave(
    text: &mut String,
    options: &Options<'_>,
    tables: &Tables,
    wave: u32,
    between: (WaveEnd, WaveEnd),
) -> Result<(), AllocError> {
    let (before, end) = between;
    for side in [Side::R, Side::S] {
        let (rows, table) = match side {
            Side::R => (end.rows_r.saturating_sub(before.rows_r), &tables.of_r),
            Side::S => (end.rows_s.saturating_sub(before.rows_s), &tables.of_s),
        };
        let name = name_of(options, side, wave);
        push_table(text, label_of(side, wave), name, rows, table)?;
    }
    Ok(())
}

/// Appends the files of each wave.
fn push_waves(
    text: &mut String,
    options: &Options<'_>,
    planned: &Planned,
) -> Result<(), AllocError> {
    let mut before = WaveEnd {
        rows_r: 0,
        rows_s: 0,
    };
    let mut wave: u32 = 1;
    for end in planned.ends.as_slice() {
        push_wave(text, options, &planned.tables, wave, (before, *end))?;
        before = *end;
        wave = wave.saturating_add(1);
    }
    Ok(())
}

/// Appends the shape of a grid.
fn push_shape(text: &mut String, shape: Shape) -> Result<(), AllocError>
    requires k { shape.k ≤ 6 }
    requires shift { shape.shift ≤ shape.k }
{
    let rows = 1u64 << (shape.k - shape.shift);
    let columns = 1u64 << shape.shift;
    write!(text, "{rows} × {columns}")
}

/// The grid with which a run begins.
fn first_shape(grid: Grid) -> Shape
    requires { grid.k ≤ 6 }
    ensures k { result.k ≤ 6 }
    ensures shift { result.shift ≤ result.k }
{
    let k = grid.k;
    let shift = grid.fixed.unwrap_or(k / 2).min(k);
    Shape { k, shift }
}

/// The grid with the fewest copies of all rows, or the one that stays.
fn last_shape(grid: Grid, weights: Weights, x: u64, y: u64) -> Shape
    requires k { grid.k ≤ 6 }
    requires weights { AreWeights weights }
    requires x { x ≤ 1048576 }
    requires y { y ≤ 1048576 }
    ensures k { result.k ≤ 6 }
    ensures shift { result.shift ≤ result.k }
{
    let first = first_shape(grid);
    if grid.fixed.is_some() {
        return first;
    }
    let shift = best_shift(first, weights, x, y).min(first.k);
    Shape { k: first.k, shift }
}

/// Appends the grid, and what it takes with all rows.
fn push_grid(
    text: &mut String,
    options: &Options<'_>,
    planned: &Planned,
) -> Result<(), AllocError> {
    let x = rows_in(&planned.tables.of_r);
    let y = rows_in(&planned.tables.of_s);
    let grid = options.kind.grid();
    let last = last_shape(grid, options.weights, x, y);
    let held = copies(last, Weights { r: 1, s: 1 }, x, y).min(1 << 40);
    text.push_str("grid: begins as ")?;
    push_shape(text, first_shape(grid))?;
    text.push_str(", and the best for all rows is ")?;
    push_shape(text, last)?;
    let tables = bytes_of(&planned.tables.of_r) + bytes_of(&planned.tables.of_s);
    let bytes = BESIDE + tables + held * PER_COPY;
    let megabytes = bytes / 1_000_000;
    write!(text, "\nmemory: some {megabytes} MB, and the output\n")
}

/// Appends the sizes of the groups that so many joiners form.
fn push_groups(text: &mut String, joiners: u32) -> Result<(), AllocError> {
    write!(
        text,
        "groups: the {joiners} joiners form some, each with a grid of its own, of"
    )?;
    for digit in [64u32, 32, 16, 8, 4, 2, 1] {
        if joiners & digit != 0 {
            write!(text, " {digit}")?;
        }
    }
    text.push('\n')
}

/// Appends after how many waves the joiners split, where they are to.
fn push_growth(text: &mut String, grow: Option<u32>) -> Result<(), AllocError> {
    match grow {
        Some(wave) => write!(
            text,
            "growth: behind wave {wave} each joiner splits into four\n"
        ),
        None => Ok(()),
    }
}

/// Appends how the joiners stand: in groups, or in a grid, which may grow.
fn push_joiners(
    text: &mut String,
    options: &Options<'_>,
    planned: &Planned,
) -> Result<(), AllocError> {
    match &options.kind {
        Kind::Groups { joiners } => push_groups(text, *joiners),
        Kind::Waves { grow, .. } => {
            push_grid(text, options, planned)?;
            push_growth(text, *grow)
        }
        _ => push_grid(text, options, planned),
    }
}

/// Appends how the second join finds its matches; how many rows it has shows only at the first.
fn push_second(
    alloc: Global,
    text: &mut String,
    options: &Options<'_>,
    planned: &Planned,
    third: &Third,
) -> Result<(), AllocError> {
    let name = options.kind.chain().map_or("", |chain| chain.name);
    let rows = third.table.rows.len();
    push_table(text, "S2", name, rows, &third.table)?;
    let tables = &planned.tables;
    let joined = joined_names(alloc, &tables.of_r.names, &tables.of_s.names)?;
    let headers = Headers {
        r: &joined,
        s: &third.table.names,
    };
    text.push_str("in the second join, whose R are the joined rows, ")?;
    if !push_lookup(text, &third.theta, headers)? {
        text.push_str("there is no key: each joined row is compared with each row of S2\n")?;
    }
    Ok(())
}

/// What the join would be that these options ask for.
pub(crate) fn explain_plan(
    alloc: Global,
    options: &Options<'_>,
    planned: &Planned,
) -> Result<String, AllocError> {
    let tables = &planned.tables;
    let mut text = format!(in alloc; "jm would join:\n")?;
    push_waves(&mut text, options, planned)?;
    let headers = Headers {
        r: &tables.of_r.names,
        s: &tables.of_s.names,
    };
    if !push_lookup(&mut text, &planned.theta, headers)? {
        let rows_r = tables.of_r.rows.len();
        let rows_s = tables.of_s.rows.len();
        write!(
            text,
            "no key: {rows_r} times {rows_s} evaluations, since no member of the top `and` serves\n"
        )?;
    }
    push_joiners(&mut text, options, planned)?;
    if let Some(third) = &planned.third {
        push_second(alloc, &mut text, options, planned, third)?;
    }
    Ok(text)
}
