// The axes of a panel: to the right the rows that were counted, upward the load against the best.

ghost use Rattle.std.specs.Prelude.{◌≤◌};

use crate::place::{across, down};
use crate::words::write_ratio;
use std::alloc::AllocError;

/// How many marks the axis of rows has at most behind its first.
const MOST_MARKS: u64 = 8;

/// The distance between the marks of an axis of this length: the least of 1, 2, 5, 10, 20, 50 and so on of which so
/// many are as long.
pub(crate) fn tick(length: u128, marks: u64) -> u128 {
    let mut decade: u128 = 1;
    for _ in 0..32 {
        for factor in [1, 2, 5] {
            let tick = decade.saturating_mul(factor);
            if length <= tick.saturating_mul(u128::from(marks)) {
                return tick;
            }
        }
        decade = decade.saturating_mul(10);
    }
    decade
}

fn write_mark_up(text: &mut String, tick: u128, mark: u64) -> Result<(), AllocError>
    requires { mark ≤ 5 }
{
    let y = 200 - 40 * mark;
    write!(
        text,
        "<path d='M0 {y}H600' stroke='#d5dde6'/><text x='-8' y='{y}' dy='4' text-anchor='end'>"
    )?;
    write_ratio(
        text,
        tick.saturating_mul(u128::from(mark)).saturating_add(1000),
    )?;
    write!(text, "</text>\n")
}

/// Adds the axis of the load, with a line for each mark, from the best to five ticks above it.
pub(crate) fn write_axis_up(text: &mut String, tick: u128) -> Result<(), AllocError> {
    for mark in 0..6 {
        write_mark_up(text, tick, mark)?;
    }
    write!(
        text,
        "<path d='M0 0V200' stroke='#1c2733'/><text transform='translate(-52 100) rotate(-90)'>load / best load</text>\n"
    )
}

fn write_mark_across(text: &mut String, total: u64, rows: u64) -> Result<(), AllocError> {
    let x = across(total, rows);
    write!(
        text,
        "<path d='M{x} 200v5' stroke='#1c2733'/><text x='{x}' y='217'>{rows}</text>\n"
    )
}

/// Adds the axis of the rows, with its marks.
pub(crate) fn write_axis_across(text: &mut String, total: u64) -> Result<(), AllocError> {
    let tick = tick(u128::from(total), MOST_MARKS);
    for mark in 0..MOST_MARKS + 1 {
        let rows = tick.saturating_mul(u128::from(mark));
        if rows <= u128::from(total) {
            write_mark_across(text, total, rows as u64)?;
        }
    }
    write!(
        text,
        "<path d='M0 200H600' stroke='#1c2733'/><text x='300' y='234'>rows of R and S that were counted</text>\n"
    )
}

/// Adds the line at 5/4 of the best, with its name.
pub(crate) fn write_bound(text: &mut String, tick: u128) -> Result<(), AllocError> {
    let y = down(tick, 1250);
    write!(
        text,
        "<path d='M0 {y}H600' stroke='#b3261e' stroke-width='1.5' stroke-dasharray='6 4'/><text x='612' y='{y}' dy='4' text-anchor='start' fill='#b3261e'>5/4 of the best</text>\n"
    )
}
