// Where a point is drawn.

ghost use Rattle.std.specs.Prelude.{◌≡◌, ◌≤◌, ◌^◌};
ghost use Rattle.journal_picture.specs.Places as of;

use crate::point::Point;
use load_controller::TurnLine;

/// How many thousandths of the best the load is, the rest dropped; 1,000 where the best is nothing.
pub fn height(point: Point) -> u128
    ensures is { result ≡ of.height_of point }
    ensures few { result ≤ 2 ^ 74 }
{
    if point.best == 0 {
        1000
    } else {
        u128::from(point.load) * 1000 / u128::from(point.best)
    }
}

/// How far to the right so many of all rows are drawn, from 0 to 600 pixels.
pub(crate) fn across(total: u64, rows: u64) -> u128
    ensures { result ≡ of.across total rows }
{
    if total == 0 {
        0
    } else {
        u128::from(rows.min(total)) * 600 / u128::from(total)
    }
}

/// The column in which a point is drawn.
pub(crate) fn column(total: u64, point: Point) -> u128
    ensures { result ≡ of.column_of total point }
{
    across(total, point.rows)
}

/// How far below the top of an axis of 200 pixels so many thousandths are drawn, where the axis goes up to five times
/// the tick over the best.
pub(crate) fn down(tick: u128, thousandths: u128) -> u128
    requires few { thousandths ≤ 2 ^ 100 }
    ensures { result ≡ of.down tick thousandths }
{
    if tick == 0 {
        200
    } else {
        200u128.saturating_sub(thousandths.saturating_sub(1000) * 40 / tick)
    }
}

/// The rows that a line counts, at most 2^64 - 1.
pub(crate) fn rows(line: TurnLine) -> u64
    ensures { result ≡ of.rows_of line }
{
    line.rows_r.saturating_add(line.rows_s)
}
