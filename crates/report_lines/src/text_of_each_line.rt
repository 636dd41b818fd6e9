// The text of a report, line by line.

ghost use Rattle.std.specs.Prelude.{◌≡◌, ◌<◌, ◌+◌, ◌^◌, ◌++◌, length, IfOk, OnOk, string_bytes};
ghost use Rattle.report_lines.specs.Lines.{final_line, grid_line, grid_lines, grow_line};
ghost use Rattle.report_lines.specs.Lines.{growth_lines, input_line, joiner_line, joiner_lines};
ghost use Rattle.report_lines.specs.Lines.{report_lines};

use crate::report_numbers::{Growth, Joiner, Report, Step};
use std::alloc::{AllocError, Global};

fn write_input(text: &mut String, x: u64, y: u64) -> Result<(), AllocError>
    ensures { OnOk result (string_bytes text.new ≡ string_bytes text.old ++ input_line x y) }
{
    write!(text, "input {x} {y}\n")
}

fn write_grid(text: &mut String, epoch: u64, step: Step) -> Result<(), AllocError>
    ensures { OnOk result (string_bytes text.new ≡ string_bytes text.old ++ grid_line epoch step) }
{
    let Step { n, m, moved } = step;
    write!(text, "grid {epoch} {n} {m} moved {moved}\n")
}

/// Adds the lines of the steps behind so many.
fn write_grids(text: &mut String, before: u64, steps: &[Step]) -> Result<(), AllocError>
    requires { before + length steps.now < 2 ^ 64 }
    ensures { OnOk result
        (string_bytes text.new ≡ string_bytes text.old ++ grid_lines before steps.now) }
{
    for index in 0..steps.len() {
        write_grid(text, before + index as u64 + 1, steps[index])?;
    }
    Ok(())
}

fn write_grow(text: &mut String, growth: Growth) -> Result<(), AllocError>
    ensures { OnOk result (string_bytes text.new ≡ string_bytes text.old ++ grow_line growth) }
{
    let Growth { n, m, placed } = growth;
    write!(text, "grow {n} {m} placed {placed}\n")
}

fn write_growth(text: &mut String, growth: Option<Growth>) -> Result<(), AllocError>
    ensures { OnOk result (string_bytes text.new ≡ string_bytes text.old ++ growth_lines growth) }
{
    match growth {
        None => Ok(()),
        Some(growth) => write_grow(text, growth),
    }
}

fn write_final(text: &mut String, n: u64, m: u64, copies: u64, best: u64) -> Result<(), AllocError>
    ensures { OnOk result
        (string_bytes text.new ≡ string_bytes text.old ++ final_line n m copies best) }
{
    write!(text, "final {n} {m} copies {copies} best {best}\n")
}

fn write_joiner(text: &mut String, id: u64, joiner: Joiner) -> Result<(), AllocError>
    ensures { OnOk result (string_bytes text.new ≡ string_bytes text.old ++ joiner_line id joiner) }
{
    let Joiner {
        rows_r,
        rows_s,
        made,
    } = joiner;
    write!(text, "joiner {id} held {rows_r} {rows_s} made {made}\n")
}

fn write_joiners(text: &mut String, joiners: &[Joiner]) -> Result<(), AllocError>
    ensures { OnOk result
        (string_bytes text.new ≡ string_bytes text.old ++ joiner_lines joiners.now) }
{
    for id in 0..joiners.len() {
        write_joiner(text, id as u64, joiners[id])?;
    }
    Ok(())
}

impl Report {
    /// The lines of a report: `input x y`, the numbers of rows; for each step `grid e n m moved q`, the epoch that it
    /// led to, counted from 1, the rows and columns of its grid, and how many rows moved; where the joiners have split
    /// `grow n m placed q`, the rows and columns of the grid that they split into, and how many rows the new ones were
    /// given, and then the steps since, their epochs counted on; `final n m copies c best d`, the last grid's rows and
    /// columns, its copies, and the fewest in any; and for each joiner, ids rising from 0,
    /// `joiner id held r s made p`, the rows of R and of S that it holds and the pairs that it made.
    pub fn text(&self, alloc: Global) -> Result<String, AllocError>
        requires { length self.now.steps + length self.now.later < 2 ^ 32 }
        ensures { IfOk result (λ text. string_bytes text ≡ report_lines self.now) }
    {
        let mut text = String::new(alloc);
        write_input(&mut text, self.x, self.y)?;
        write_grids(&mut text, 0, self.steps.as_slice())?;
        write_growth(&mut text, self.growth)?;
        write_grids(&mut text, self.steps.len(), self.later.as_slice())?;
        write_final(&mut text, self.n, self.m, self.copies, self.best)?;
        write_joiners(&mut text, self.joiners.as_slice())?;
        Ok(text)
    }
}
