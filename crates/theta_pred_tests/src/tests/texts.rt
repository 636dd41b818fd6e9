// The predicates of texts, and sums, bounds and key atoms as texts.

ghost use Rattle.std.specs.Prelude.{◌≤◌};
ghost use Rattle.theta_tree.specs.Sizes.{longest_sum};

use super::header;
use row_cells::Names;
use std::alloc::{AllocError, Global};
use std::process::Abort;
use theta_pred::{KeyAtom, Linear, Pred, Theta, resolve};
use theta_text::parse;

fn resolved(alloc: Global, pred: &Pred, names: &Names) -> Result<Theta, AllocError>
    requires { longest_sum pred.now ≤ 16 }
{
    match resolve(alloc, pred, names, names) {
        Ok(theta) => Ok(theta),
        Err(fault) => {
            drop(fault);
            Err(AllocError)
        }
    }
}

fn over(alloc: Global, text: &str, names: &Names) -> Result<Theta, AllocError> {
    match parse(alloc, text) {
        Ok(pred) => {
            let theta = resolved(alloc, &pred, names);
            drop(pred);
            theta
        }
        Err(_) => Err(AllocError),
    }
}

// The predicate of a text over two tables with the columns x and a.
pub(super) fn over_x_and_a(alloc: Global, text: &str) -> Result<Theta, AllocError> {
    let names = header(alloc, "x a")?;
    let theta = over(alloc, text, &names);
    drop(names);
    theta
}

// That something is told so.
pub(super) fn is_told(rt: &impl Abort, told: &str, wanted: &str, of: &str, how: &str, other: &str) {
    assert!(rt; told == wanted, "{of}{how}{other}");
}

fn write_sum(text: &mut String, sum: &Linear) -> Result<(), AllocError> {
    for part in sum.parts.as_slice() {
        let sign = if part.minus { '-' } else { '+' };
        let column = part.column;
        write!(text, "{sign}{column}")?;
    }
    Ok(())
}

pub(super) fn write_number(text: &mut String, number: Option<i128>) -> Result<(), AllocError> {
    match number {
        Some(number) => write!(text, "{number}"),
        None => text.push_str("none"),
    }
}

fn write_after_space(text: &mut String, number: Option<i128>) -> Result<(), AllocError> {
    text.push_str(" ")?;
    write_number(text, number)
}

pub(super) fn write_sums(
    text: &mut String,
    left: &Linear,
    right: &Linear,
) -> Result<(), AllocError> {
    write_sum(text, left)?;
    text.push_str(" ")?;
    write_sum(text, right)
}

pub(super) fn write_atom(text: &mut String, atom: &KeyAtom) -> Result<(), AllocError> {
    write_sums(text, &atom.r_sum, &atom.s_sum)?;
    write_after_space(text, atom.low)?;
    write_after_space(text, atom.high)
}
