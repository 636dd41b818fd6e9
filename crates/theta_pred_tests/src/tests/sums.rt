// The values of sums.

ghost use Rattle.std.specs.Prelude.{◌≡◌, length, IfOk};

use super::texts::{is_told, write_number};
use row_cells::{Bytes, Cell, Cells};
use std::alloc::{AllocError, Global};
use std::process::Abort;
use std::test::Fail;
use theta_pred::{Linear, Part, Parts};

// The cell of a text.
fn cell(alloc: Global, text: &str) -> Result<Cell, AllocError> {
    Ok(Cell::new(Bytes::from_slice(alloc, text.as_bytes())?))
}

fn row(alloc: Global, first: &str, second: &str) -> Result<Cells, AllocError>
    ensures { IfOk result (λ row. length row ≡ 2) }
{
    let mut row = Cells::new(alloc);
    row.push(cell(alloc, first)?)?;
    row.push(cell(alloc, second)?)?;
    Ok(row)
}

// The first column less the second.
fn difference(alloc: Global) -> Result<Linear, AllocError> {
    let mut parts = Parts::new(alloc);
    parts.push(Part {
        minus: false,
        column: 0,
    })?;
    parts.push(Part {
        minus: true,
        column: 1,
    })?;
    Ok(Linear { parts })
}

fn told(alloc: Global, value: Option<i128>) -> Result<String, AllocError> {
    let mut text = String::new(alloc);
    match write_number(&mut text, value) {
        Ok(()) => Ok(text),
        Err(refused) => {
            drop(text);
            Err(refused)
        }
    }
}

fn is_value(
    rt: &impl Abort,
    alloc: Global,
    value: Option<i128>,
    wanted: &str,
    first: &str,
    less: &str,
    second: &str,
) -> Result<(), AllocError> {
    let told = told(alloc, value)?;
    is_told(rt, told.as_str(), wanted, first, less, second);
    drop(told);
    Ok(())
}

fn copy_has_value(
    rt: &impl Abort,
    alloc: Global,
    sum: &Linear,
    row: &Cells,
    first: &str,
    second: &str,
    wanted: &str,
) -> Result<(), AllocError> {
    let copy = sum.copy()?;
    let value = copy.value(row);
    drop(copy);
    is_value(
        rt,
        alloc,
        value,
        wanted,
        first,
        " less, by the copy, ",
        second,
    )
}

fn has_value(
    rt: &impl Abort,
    alloc: Global,
    sum: &Linear,
    row: &Cells,
    first: &str,
    second: &str,
    wanted: &str,
) -> Result<(), AllocError> {
    let value = sum.value(row);
    is_value(rt, alloc, value, wanted, first, " less ", second)?;
    copy_has_value(rt, alloc, sum, row, first, second, wanted)
}

fn has_value_at(
    rt: &impl Abort,
    alloc: Global,
    sum: &Linear,
    first: &str,
    second: &str,
    wanted: &str,
) -> Result<(), AllocError> {
    let row = row(alloc, first, second)?;
    let outcome = has_value(rt, alloc, sum, &row, first, second, wanted);
    drop(row);
    outcome
}

// The value of the sum and of its copy at a row of these two numbers.
fn both_values(
    rt: &impl Abort,
    alloc: Global,
    first: &str,
    second: &str,
    wanted: &str,
) -> Result<(), AllocError> {
    let sum = difference(alloc)?;
    let outcome = has_value_at(rt, alloc, &sum, first, second, wanted);
    drop(sum);
    outcome
}

// Its value at a row without cells.
fn value_beyond_the_row(alloc: Global) -> Result<Option<i128>, AllocError> {
    let sum = difference(alloc)?;
    let row = Cells::new(alloc);
    let value = sum.value(&row);
    drop(row);
    drop(sum);
    Ok(value)
}

#[test]
fn sums_with_their_values(rt: HostRuntime) -> Result<(), Fail> {
    let alloc = rt.alloc();
    both_values(&rt, alloc, "5", "7", "-2")?;
    both_values(
        &rt,
        alloc,
        "9223372036854775807",
        "-9223372036854775808",
        "18446744073709551615",
    )?;
    both_values(&rt, alloc, "-", "7", "none")?;
    both_values(&rt, alloc, "5", "-", "none")?;
    let value = value_beyond_the_row(alloc)?;
    assert!(rt; value == None, "beyond the row");
    Ok(())
}
