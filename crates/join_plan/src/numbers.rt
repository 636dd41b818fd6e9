// The cells that predicates read as numbers.

ghost use Rattle.std.specs.Prelude.{◌≡◌, ◌<◌, ◌≤◌, ◌+◌, All, length};
ghost use Rattle.join_rows.specs.Records.{IsTable};
ghost use Rattle.row_cells.specs.declared.table.Side.{Side};
ghost use Rattle.join_plan.specs.Numbers;
ghost use Rattle.join_plan.specs.Plan.{IsFit, IsThirdFit};

use crate::fault::InputFault;
use crate::files::Tables;
use crate::fitting::{Planned, Third};
use crate::places::located;
use crate::waves::WaveEnd;
use row_cells::{Side, Table};
use theta_pred::Theta;

/// The first row of the column that has a cell which isn't empty and is no number, in the file that it comes from. The
/// first of the waves is this, and they end here.
fn column_fault(
    side: Side,
    wave: u32,
    ends: &[WaveEnd],
    table: &Table,
    column: u64,
) -> Option<InputFault>
    requires few { wave + length ends.now ≤ 5 }
    requires table { IsTable table.now }
    requires column { column < length table.now.names }
    ensures { result ≡ Numbers.column_fault side wave ends.now table.now.rows column }
{
    let _width = table.names.len();
    match table.numbers(column) {
        Ok(()) => None,
        Err(bad) => {
            let place = located(side, wave, 0, ends, bad.row);
            Some(InputFault::Number {
                side,
                wave: place.wave,
                column: column + 1,
                row: place.row,
            })
        }
    }
}

/// The same of the first of these columns that has one.
fn columns_fault(
    side: Side,
    wave: u32,
    ends: &[WaveEnd],
    table: &Table,
    columns: &[u64],
) -> Option<InputFault>
    requires few { wave + length ends.now ≤ 5 }
    requires table { IsTable table.now }
    requires columns { All (λ column. column < length table.now.names) columns.now }
    ensures { result ≡ Numbers.number_fault side wave ends.now table.now.rows columns.now }
{
    for column in columns {
        if let Some(fault) = column_fault(side, wave, ends, table, *column) {
            return Some(fault);
        }
    }
    None
}

/// The same of the side's columns that stand in a sum.
fn side_fault(
    side: Side,
    wave: u32,
    ends: &[WaveEnd],
    table: &Table,
    theta: &Theta,
) -> Option<InputFault>
    requires few { wave + length ends.now ≤ 5 }
    requires table { IsTable table.now }
    requires width { Numbers.HasWidth theta.now side table.now }
    ensures { result ≡ Numbers.number_fault side wave ends.now table.now.rows
        (Numbers.summed_columns theta.now side) }
{
    columns_fault(side, wave, ends, table, theta.numeric(side).as_slice())
}

/// The first cell of R, or else of S, that is to be a number and is none.
fn first_fault(tables: &Tables, ends: &[WaveEnd], theta: &Theta) -> Option<InputFault>
    requires few { length ends.now ≤ 4 }
    requires table_r { IsTable tables.now.of_r }
    requires table_s { IsTable tables.now.of_s }
    requires width_r { theta.now.width_r ≡ length tables.now.of_r.names }
    requires width_s { theta.now.width_s ≡ length tables.now.of_s.names }
    ensures { result ≡ Numbers.first_fault tables.now ends.now theta.now }
{
    match side_fault(Side::R, 1, ends, &tables.of_r, theta) {
        Some(fault) => Some(fault),
        None => side_fault(Side::S, 1, ends, &tables.of_s, theta),
    }
}

/// The first row of a joined column that has a cell which isn't empty and is no number, in the file that the
/// column comes from.
fn joined_column_fault(tables: &Tables, ends: &[WaveEnd], column: u64) -> Option<InputFault>
    requires few { length ends.now ≤ 4 }
    requires table_r { IsTable tables.now.of_r }
    requires table_s { IsTable tables.now.of_s }
    requires column { column
        < length tables.now.of_r.names + length tables.now.of_s.names }
    ensures { result ≡ Numbers.joined_column_fault tables.now ends.now column }
{
    let width_r = tables.of_r.names.len();
    if column < width_r {
        column_fault(Side::R, 1, ends, &tables.of_r, column)
    } else {
        column_fault(Side::S, 1, ends, &tables.of_s, column - width_r)
    }
}

/// The same of the first of these columns that has one.
fn joined_columns_fault(tables: &Tables, ends: &[WaveEnd], columns: &[u64]) -> Option<InputFault>
    requires few { length ends.now ≤ 4 }
    requires table_r { IsTable tables.now.of_r }
    requires table_s { IsTable tables.now.of_s }
    requires columns { All (λ column. column
        < length tables.now.of_r.names + length tables.now.of_s.names) columns.now }
    ensures { result ≡ Numbers.joined_fault tables.now ends.now columns.now }
{
    for column in columns {
        if let Some(fault) = joined_column_fault(tables, ends, *column) {
            return Some(fault);
        }
    }
    None
}

/// The same of the joined columns that stand in a sum.
fn joined_fault(tables: &Tables, ends: &[WaveEnd], theta: &Theta) -> Option<InputFault>
    requires few { length ends.now ≤ 4 }
    requires table_r { IsTable tables.now.of_r }
    requires table_s { IsTable tables.now.of_s }
    requires width { theta.now.width_r
        ≡ length tables.now.of_r.names + length tables.now.of_s.names }
    ensures { result ≡ Numbers.joined_fault tables.now ends.now
        (Numbers.summed_columns theta.now Side.R) }
{
    joined_columns_fault(tables, ends, theta.numeric(Side::R).as_slice())
}

/// The first cell of the joined columns, or else of the third file, that is to be a number and is none.
fn second_fault(tables: &Tables, ends: &[WaveEnd], third: &Third) -> Option<InputFault>
    requires few { length ends.now ≤ 4 }
    requires table_r { IsTable tables.now.of_r }
    requires table_s { IsTable tables.now.of_s }
    requires third { IsThirdFit tables.now third.now }
    ensures { result ≡ Numbers.second_fault tables.now ends.now third.now }
{
    match joined_fault(tables, ends, &third.theta) {
        Some(fault) => Some(fault),
        None => side_fault(Side::S, 2, &[], &third.table, &third.theta),
    }
}

/// The same of the second join, where there is one.
fn third_fault(planned: &Planned) -> Option<InputFault>
    requires { IsFit planned.now }
    ensures { result ≡ Numbers.third_fault planned.now.tables planned.now.ends planned.now.third }
{
    match &planned.third {
        Some(third) => second_fault(&planned.tables, planned.ends.as_slice(), third),
        None => None,
    }
}

/// The first cell that is to be a number and is none, of the first predicate before the second.
pub(crate) fn number_fault(planned: &Planned) -> Option<InputFault>
    requires { IsFit planned.now }
    ensures { result ≡ Numbers.number_fault_of planned.now }
{
    match first_fault(&planned.tables, planned.ends.as_slice(), &planned.theta) {
        Some(fault) => Some(fault),
        None => third_fault(planned),
    }
}
