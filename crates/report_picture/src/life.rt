// The grid's life: its first shape, and that behind each step.

ghost use Rattle.std.specs.Prelude.{◌≡◌, ◌≤◌, ◌<◌, ◌*◌, ◌/◌, ◌^◌, ◌++◌, All, length, IfSome, OnOk, string_bytes};
ghost use Rattle.report_lines.specs.Grids.{HasGrownSides, HasSides, IsWhole};
ghost use Rattle.report_picture.specs.Drawing as drawing;

use report_lines::{Growth, Report, Step};
use std::alloc::AllocError;

// How wide or high each of so many cells of a square is.
fn cell_size(cells: u64) -> u64
    requires { 0 < cells }
    ensures { result ≡ drawing.cell_size cells }
{
    (128 / cells).max(1)
}

fn write_pattern(text: &mut String, id: u64, width: u64, height: u64) -> Result<(), AllocError>
    ensures { OnOk result
        (string_bytes text.new ≡ string_bytes text.old ++ drawing.pattern_of id width height) }
{
    write!(
        text,
        "<pattern id='grid{id}' width='{width}' height='{height}' patternUnits='userSpaceOnUse'><path d='M0 0H128V128H0Z' fill='#e8f1fb' stroke='#1f5fa8' stroke-width='2'/></pattern>\n"
    )
}

fn write_filled(text: &mut String, id: u64) -> Result<(), AllocError>
    ensures { OnOk result (string_bytes text.new ≡ string_bytes text.old ++ drawing.filled_of id) }
{
    write!(
        text,
        "<rect width='128' height='128' fill='url(#grid{id})' stroke='#1f5fa8'/>\n"
    )
}

fn write_square(text: &mut String, id: u64, n: u64, m: u64) -> Result<(), AllocError>
    requires n { 0 < n }
    requires m { 0 < m }
    ensures { OnOk result
        (string_bytes text.new ≡ string_bytes text.old ++ drawing.square_of id n m) }
{
    write_pattern(text, id, cell_size(m), cell_size(n))?;
    write_filled(text, id)
}

fn write_opening(text: &mut String, x: u64) -> Result<(), AllocError>
    ensures { OnOk result (string_bytes text.new ≡ string_bytes text.old ++ drawing.opening_of x) }
{
    write!(text, "<g transform='translate({x} 84)'>\n")
}

fn write_first_names(text: &mut String, n: u64, m: u64) -> Result<(), AllocError>
    ensures { OnOk result
        (string_bytes text.new ≡ string_bytes text.old ++ drawing.first_names_of n m) }
{
    write!(
        text,
        "<text x='64' y='-10'>first grid</text><text x='64' y='148'>{n} &#215; {m}</text></g>\n"
    )
}

fn columns_at_start(joiners: u64) -> u64
    ensures columns { result ≡ drawing.columns_at_start joiners }
    ensures some { 0 < result }
    ensures within { 0 < joiners → result ≤ joiners }
{
    if joiners < 4 {
        1
    } else if joiners < 16 {
        2
    } else if joiners < 64 {
        4
    } else {
        8
    }
}

fn first_joiners(report: &Report) -> u64
    requires { IsWhole report.now }
    ensures joiners { result ≡ drawing.first_joiners report.now }
    ensures some { 0 < result }
{
    match report.growth {
        Some(growth) => (growth.n * growth.m / 4).max(1),
        None => report.n * report.m,
    }
}

fn first_columns(report: &Report) -> u64
    requires { IsWhole report.now }
    ensures columns { result ≡ drawing.first_columns report.now }
    ensures some { 0 < result }
    ensures rows { 0 < drawing.first_joiners report.now / result }
{
    if report.growth.is_some() || report.steps.len() != 0 {
        columns_at_start(first_joiners(report))
    } else {
        report.m
    }
}

/// Adds the grid that a run begins with.
pub(crate) fn write_first(text: &mut String, report: &Report) -> Result<(), AllocError>
    requires { IsWhole report.now }
    ensures { OnOk result
        (string_bytes text.new ≡ string_bytes text.old ++ drawing.first_of report.now) }
{
    let columns = first_columns(report);
    let rows = first_joiners(report) / columns;
    write_opening(text, 24)?;
    write_square(text, 0, rows, columns)?;
    write_first_names(text, rows, columns)
}

fn write_moved(text: &mut String, moved: u64) -> Result<(), AllocError>
    ensures { OnOk result
        (string_bytes text.new ≡ string_bytes text.old ++ drawing.moved_of moved) }
{
    write!(
        text,
        "<path d='M-72 64H-8m-8 -5l8 5l-8 5' fill='none' stroke='#1c2733'/><text x='-40' y='56'>{moved}</text><text x='-40' y='80'>moved</text></g>\n"
    )
}

fn write_names(text: &mut String, epoch: u64, step: Step) -> Result<(), AllocError>
    ensures { OnOk result
        (string_bytes text.new ≡ string_bytes text.old ++ drawing.names_of epoch step) }
{
    let n = step.n;
    let m = step.m;
    write!(
        text,
        "<text x='64' y='-10'>epoch {epoch}</text><text x='64' y='148'>{n} &#215; {m}</text>\n"
    )
}

fn write_step(text: &mut String, aside: u64, epoch: u64, step: Step) -> Result<(), AllocError>
    requires sides { HasSides step }
    requires few { epoch ≤ 2 ^ 17 }
    requires aside { aside ≤ 1 }
    ensures { OnOk result
        (string_bytes text.new ≡ string_bytes text.old ++ drawing.step_of aside epoch step) }
{
    let place = epoch + aside;
    write_opening(text, 24 + 208 * place)?;
    write_square(text, place, step.n, step.m)?;
    write_names(text, epoch, step)?;
    write_moved(text, step.moved)
}

fn write_steps(text: &mut String, aside: u64, before: u64, steps: &[Step]) -> Result<(), AllocError>
    requires sides { All HasSides steps.now }
    requires few { length steps.now ≤ 2 ^ 16 }
    requires before { before ≤ 2 ^ 16 }
    requires aside { aside ≤ 1 }
    ensures { OnOk result (string_bytes text.new
        ≡ string_bytes text.old ++ drawing.steps_of aside before steps.now) }
{
    for index in 0..steps.len() {
        write_step(text, aside, before + index as u64 + 1, steps[index])?;
    }
    Ok(())
}

fn write_placed(text: &mut String, placed: u64) -> Result<(), AllocError>
    ensures { OnOk result
        (string_bytes text.new ≡ string_bytes text.old ++ drawing.placed_of placed) }
{
    write!(
        text,
        "<path d='M-72 64H-8m-8 -5l8 5l-8 5' fill='none' stroke='#1c2733'/><text x='-40' y='56'>{placed}</text><text x='-40' y='80'>placed</text></g>\n"
    )
}

fn write_grown_names(text: &mut String, growth: Growth) -> Result<(), AllocError>
    ensures { OnOk result
        (string_bytes text.new ≡ string_bytes text.old ++ drawing.grown_names_of growth) }
{
    let n = growth.n;
    let m = growth.m;
    write!(
        text,
        "<text x='64' y='-10'>grown to</text><text x='64' y='148'>{n} &#215; {m}</text>\n"
    )
}

fn write_grown(text: &mut String, place: u64, growth: Growth) -> Result<(), AllocError>
    requires sides { HasGrownSides growth }
    requires few { place ≤ 2 ^ 17 }
    ensures { OnOk result
        (string_bytes text.new ≡ string_bytes text.old ++ drawing.grown_of place growth) }
{
    write_opening(text, 24 + 208 * place)?;
    write_square(text, place, growth.n, growth.m)?;
    write_grown_names(text, growth)?;
    write_placed(text, growth.placed)
}

fn write_growth(text: &mut String, place: u64, growth: Option<Growth>) -> Result<(), AllocError>
    requires sides { IfSome growth HasGrownSides }
    requires few { place ≤ 2 ^ 17 }
    ensures { OnOk result
        (string_bytes text.new ≡ string_bytes text.old ++ drawing.growth_of place growth) }
{
    match growth {
        None => Ok(()),
        Some(growth) => write_grown(text, place, growth),
    }
}

/// Adds the grids of all steps and of a growth.
pub(crate) fn write_grids(text: &mut String, report: &Report) -> Result<(), AllocError>
    requires { IsWhole report.now }
    ensures { OnOk result
        (string_bytes text.new ≡ string_bytes text.old ++ drawing.grids_of report.now) }
{
    let steps = report.steps.len();
    write_steps(text, 0, 0, report.steps.as_slice())?;
    write_growth(text, steps + 1, report.growth)?;
    write_steps(text, 1, steps, report.later.as_slice())
}
