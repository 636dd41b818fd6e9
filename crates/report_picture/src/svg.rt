// The picture of a report.

ghost use Rattle.std.specs.Prelude.{◌≡◌, ◌≤◌, ◌^◌, ◌++◌, IfOk, OnOk, string_bytes};
ghost use Rattle.report_lines.specs.Grids.{IsSide, IsWhole};
ghost use Rattle.report_picture.specs.Drawing as drawing;

use crate::field::write_field;
use crate::life::{write_first, write_grids};
use crate::load::write_load;
use crate::totals::sum_up;
use crate::words::{changes, write_words};
use report_lines::Report;
use std::alloc::{AllocError, Global};

fn write_head(text: &mut String, width: u64, height: u64) -> Result<(), AllocError>
    ensures { OnOk result
        (string_bytes text.new ≡ string_bytes text.old ++ drawing.head_of width height) }
{
    write!(
        text,
        "<svg xmlns='http://www.w3.org/2000/svg' width='{width}' height='{height}' viewBox='0 0 {width} {height}' role='img' font-family='monospace' font-size='11' text-anchor='middle' fill='#1c2733'>\n"
    )
}

fn write_title(text: &mut String, x: u64, y: u64, made: u128) -> Result<(), AllocError>
    ensures { OnOk result
        (string_bytes text.new ≡ string_bytes text.old ++ drawing.title_of x y made) }
{
    write!(
        text,
        "<text x='24' y='32' text-anchor='start' font-size='15'>rows of R: {x}, rows of S: {y}, pairs: {made}</text>\n"
    )
}

// How many grids are drawn: the first, one behind each step, and that of a growth.
fn grids(report: &Report) -> u64
    requires { IsWhole report.now }
    ensures grids { result ≡ drawing.grids_drawn report.now }
    ensures few { result ≤ 2 ^ 18 }
{
    changes(report) + if report.growth.is_some() { 2 } else { 1 }
}

fn width(report: &Report) -> u64
    requires { IsWhole report.now }
    ensures { result ≡ drawing.width_of report.now }
{
    let life = 24 + 208 * grids(report);
    let field = 48 + 124 * report.m;
    life.max(field).max(640)
}

fn height(report: &Report) -> u64
    requires { IsWhole report.now }
    ensures { result ≡ drawing.height_of report.now }
{
    416 + 72 * report.n
}

/// A report as an SVG. For those who don't see it a title and a description in words; then, from
/// above to below, the numbers of rows and pairs; the grid's shapes from the first over each step
/// and a growth to the last, between them the rows that moved or were placed; the load against the best, in words and
/// on a scale from the best to 5/4 of it; and the joiners at their places in the last grid, with the
/// rows that they hold and the pairs that they made, shaded by these rows from none to the most
/// that a joiner holds.
pub fn picture(alloc: Global, report: &Report) -> Result<String, AllocError>
    requires { IsWhole report.now }
    ensures { IfOk result (λ text. string_bytes text ≡ drawing.picture_of report.now) }
{
    let mut text = String::new(alloc);
    let all = sum_up(report.joiners.as_slice());
    write_head(&mut text, width(report), height(report))?;
    write_words(&mut text, report, all.made)?;
    write_title(&mut text, report.x, report.y, all.made)?;
    write_first(&mut text, report)?;
    write_grids(&mut text, report)?;
    write_load(&mut text, report.copies, report.best)?;
    write_field(
        &mut text,
        report.n,
        report.m,
        report.joiners.as_slice(),
        all,
    )?;
    text.push_str("</svg>\n")?;
    Ok(text)
}
