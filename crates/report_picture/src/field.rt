// The last grid's joiners.

ghost use Rattle.std.specs.Prelude.{◌≡◌, ◌<◌, ◌≤◌, ◌*◌, ◌^◌, ◌++◌, length, OnOk, string_bytes};
ghost use Rattle.report_lines.specs.Grids.{IsSide};
ghost use Rattle.report_picture.specs.Drawing as drawing;
ghost use Rattle.report_picture.specs.Totals as of;

use crate::totals::{Totals, held};
use report_lines::Joiner;
use std::alloc::AllocError;

fn write_last(
    text: &mut String,
    n: u64,
    m: u64,
    rows_r: u128,
    rows_s: u128,
) -> Result<(), AllocError>
    ensures { OnOk result
        (string_bytes text.new ≡ string_bytes text.old ++ drawing.last_of n m rows_r rows_s) }
{
    write!(
        text,
        "<g transform='translate(24 352)' text-anchor='start'><text font-size='13'>last grid: {n} &#215; {m} joiners, rows of R that they hold: {rows_r}, of S: {rows_s}</text>\n"
    )
}

fn write_legend(text: &mut String, most: u128) -> Result<(), AllocError>
    ensures { OnOk result
        (string_bytes text.new ≡ string_bytes text.old ++ drawing.legend_of most) }
{
    write!(
        text,
        "<linearGradient id='shade'><stop stop-color='#4c9be8' stop-opacity='.1'/><stop offset='1' stop-color='#4c9be8' stop-opacity='.9'/></linearGradient><text y='26'>shade: 0 rows</text><rect x='96' y='16' width='200' height='12' fill='url(#shade)' stroke='#1f5fa8'/><text x='304' y='26'>{most} rows, the most that a joiner holds</text></g>\n"
    )
}

fn shade(most: u128, joiner: Joiner) -> u128
    ensures { result ≡ drawing.shade_of most joiner }
{
    if most == 0 {
        100
    } else {
        100 + 800 * held(joiner) / most
    }
}

fn write_cell(text: &mut String, x: u64, y: u64, shade: u128) -> Result<(), AllocError>
    ensures { OnOk result
        (string_bytes text.new ≡ string_bytes text.old ++ drawing.cell_of x y shade) }
{
    write!(
        text,
        "<g transform='translate({x} {y})'><rect width='120' height='68' fill='#4c9be8' fill-opacity='.{shade}' stroke='#1f5fa8'/>"
    )
}

fn write_labels(text: &mut String, id: u64, joiner: Joiner) -> Result<(), AllocError>
    ensures { OnOk result
        (string_bytes text.new ≡ string_bytes text.old ++ drawing.labels_of id joiner) }
{
    let Joiner {
        rows_r,
        rows_s,
        made,
    } = joiner;
    write!(
        text,
        "<text x='60' y='15'>joiner {id}</text><text x='60' y='31'>R {rows_r}</text><text x='60' y='46'>S {rows_s}</text><text x='60' y='61'>pairs {made}</text></g>\n"
    )
}

fn write_joiner(
    text: &mut String,
    m: u64,
    most: u128,
    id: u64,
    joiner: Joiner,
) -> Result<(), AllocError>
    requires side { IsSide m }
    requires id { id < 2 ^ 16 }
    ensures { OnOk result
        (string_bytes text.new ≡ string_bytes text.old ++ drawing.joiner_of m most id joiner) }
{
    let x = 24 + 124 * (id % m);
    let y = 396 + 72 * (id / m);
    write_cell(text, x, y, shade(most, joiner))?;
    write_labels(text, id, joiner)
}

fn write_joiners(
    text: &mut String,
    m: u64,
    most: u128,
    joiners: &[Joiner],
) -> Result<(), AllocError>
    requires side { IsSide m }
    requires few { length joiners.now ≤ 2 ^ 16 }
    ensures { OnOk result
        (string_bytes text.new ≡ string_bytes text.old ++ drawing.cells_of m most joiners.now) }
{
    for id in 0..joiners.len() {
        write_joiner(text, m, most, id as u64, joiners[id])?;
    }
    Ok(())
}

/// Adds the last grid: what its joiners hold, what their shades mean, and each of them.
pub(crate) fn write_field(
    text: &mut String,
    n: u64,
    m: u64,
    joiners: &[Joiner],
    totals: Totals,
) -> Result<(), AllocError>
    requires side { IsSide m }
    requires few { length joiners.now ≤ 2 ^ 16 }
    requires rows_r { totals.rows_r ≡ of.all_rows_r joiners.now }
    requires rows_s { totals.rows_s ≡ of.all_rows_s joiners.now }
    requires most { totals.most ≡ of.most_held joiners.now }
    ensures { OnOk result
        (string_bytes text.new ≡ string_bytes text.old ++ drawing.field_of n m joiners.now) }
{
    write_last(text, n, m, totals.rows_r, totals.rows_s)?;
    write_legend(text, totals.most)?;
    write_joiners(text, m, totals.most, joiners)
}
