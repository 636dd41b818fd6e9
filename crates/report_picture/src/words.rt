// The picture in words, for those who don't see it.

ghost use Rattle.std.specs.Prelude.{◌≡◌, ◌≤◌, ◌^◌, ◌++◌, OnOk, string_bytes};
ghost use Rattle.report_lines.specs.Grids.{IsWhole};
ghost use Rattle.report_picture.specs.Drawing as drawing;
ghost use Rattle.report_picture.specs.Totals as of;

use crate::load::{hundredths, write_ratio};
use report_lines::{Growth, Report};
use std::alloc::AllocError;

fn write_name(text: &mut String, joiners: u64) -> Result<(), AllocError>
    ensures { OnOk result
        (string_bytes text.new ≡ string_bytes text.old ++ drawing.name_of joiners) }
{
    write!(text, "<title>A run of jm, joiners: {joiners}</title>\n")
}

fn write_counts(text: &mut String, x: u64, y: u64, made: u128, steps: u64) -> Result<(), AllocError>
    ensures { OnOk result
        (string_bytes text.new ≡ string_bytes text.old ++ drawing.counts_of x y made steps) }
{
    write!(
        text,
        "<desc>Rows of R: {x}, rows of S: {y}, pairs: {made}. Changes of the grid: {steps}."
    )
}

/// How many changes of the grid there were.
pub(crate) fn changes(report: &Report) -> u64
    requires { IsWhole report.now }
    ensures changes { result ≡ drawing.changes_of report.now }
    ensures few { result ≤ 2 ^ 17 }
{
    report.steps.len() + report.later.len()
}

fn write_grown(text: &mut String, growth: Growth) -> Result<(), AllocError>
    ensures { OnOk result
        (string_bytes text.new ≡ string_bytes text.old ++ drawing.grown_words_of growth) }
{
    let Growth { n, m, placed } = growth;
    write!(
        text,
        " Grown to rows {n}, columns {m}, rows placed: {placed}."
    )
}

fn write_growth(text: &mut String, growth: Option<Growth>) -> Result<(), AllocError>
    ensures { OnOk result
        (string_bytes text.new ≡ string_bytes text.old ++ drawing.growth_words_of growth) }
{
    match growth {
        None => Ok(()),
        Some(growth) => write_grown(text, growth),
    }
}

fn write_shape(text: &mut String, n: u64, m: u64) -> Result<(), AllocError>
    ensures { OnOk result
        (string_bytes text.new ≡ string_bytes text.old ++ drawing.shape_of n m) }
{
    write!(text, " Last grid: rows {n}, columns {m}. Load: ")
}

fn write_ground(text: &mut String) -> Result<(), AllocError>
    ensures { OnOk result (string_bytes text.new ≡ string_bytes text.old ++ drawing.ground) }
{
    write!(
        text,
        " times the best.</desc>\n<rect width='100%' height='100%' fill='#ffffff'/>\n"
    )
}

/// Adds the picture in words, and a white ground.
pub(crate) fn write_words(text: &mut String, report: &Report, made: u128) -> Result<(), AllocError>
    requires whole { IsWhole report.now }
    requires made { made ≡ of.all_made report.now.joiners }
    ensures { OnOk result
        (string_bytes text.new ≡ string_bytes text.old ++ drawing.words_of report.now) }
{
    write_name(text, report.n * report.m)?;
    write_counts(text, report.x, report.y, made, changes(report))?;
    write_growth(text, report.growth)?;
    write_shape(text, report.n, report.m)?;
    write_ratio(text, hundredths(report.copies, report.best))?;
    write_ground(text)
}
