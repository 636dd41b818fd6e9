// What stands in words.

use crate::changes::Step;
use crate::curve::Greatest;
use crate::panel::Chart;
use crate::place::rows;
use std::alloc::AllocError;

/// Adds thousandths as a number with two places behind the point, the rest dropped.
pub(crate) fn write_ratio(text: &mut String, thousandths: u128) -> Result<(), AllocError> {
    let whole = thousandths / 1000;
    let tenth = thousandths / 100 % 10;
    let hundredth = thousandths / 10 % 10;
    write!(text, "{whole}.{tenth}{hundredth}")
}

fn write_height(text: &mut String, thousandths: u128) -> Result<(), AllocError> {
    if thousandths == 0 {
        return text.push_str("none");
    }
    write_ratio(text, thousandths)
}

/// Adds the greatest heights.
pub(crate) fn write_greatest(text: &mut String, greatest: Greatest) -> Result<(), AllocError> {
    write!(text, "greatest load / best load: ")?;
    write_height(text, greatest.still)?;
    write!(text, " while no change is under way, ")?;
    write_height(text, greatest.moving)?;
    write!(text, " while one is")
}

/// How many rows or columns a grid with this exponent has.
fn side(exponent: u32) -> u64 {
    1 << exponent.min(63)
}

fn write_shape(text: &mut String, k: u32, shift: u32) -> Result<(), AllocError> {
    let n = side(k.saturating_sub(shift));
    let m = side(shift);
    write!(text, "{n} &#215; {m}")
}

/// Adds the shapes of the grid before and after a step, rows by columns.
pub(crate) fn write_shapes(text: &mut String, k: u32, step: &Step) -> Result<(), AllocError> {
    write_shape(text, k, step.before.shift)?;
    write!(text, " &#8594; ")?;
    write_shape(text, k, step.begun.shift)
}

fn write_step(text: &mut String, k: u32, step: &Step) -> Result<(), AllocError> {
    let from = rows(step.begun);
    let to = rows(step.ended);
    write!(text, " From {from} to {to} rows: ")?;
    write_shapes(text, k, step)?;
    write!(text, ".")
}

/// Adds a chart in words, with its heading.
pub(crate) fn write_words(
    text: &mut String,
    heading: &str,
    chart: &Chart,
) -> Result<(), AllocError> {
    let total = chart.total;
    let changes = chart.steps.len();
    write!(
        text,
        " {heading}, rows counted: {total}, changes of the grid: {changes}; "
    )?;
    write_greatest(text, chart.greatest)?;
    write!(text, ".")?;
    for step in chart.steps.as_slice() {
        write_step(text, chart.k, step)?;
    }
    Ok(())
}
