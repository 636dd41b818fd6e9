// The columns that predicates name.

ghost use Rattle.std.specs.Prelude.{◌≤◌};
ghost use Rattle.theta_tree.specs.Sizes.{longest_sum as longest_sum'};

use super::predicates::{below_3, both, column, two};
use super::{has_short_sums, header};
use row_cells::{Bytes, Names, Side};
use std::alloc::{AllocError, Global};
use std::process::Abort;
use std::test::Fail;
use theta_pred::{Pred, ResolveFault, Sum, Theta, resolve};

// The predicate over these columns and y.
fn over_y(alloc: Global, pred: &Pred, names_r: &Names) -> Result<Theta, ResolveFault>
    requires { longest_sum' pred.now ≤ 16 }
{
    let names_s = header(alloc, "y")?;
    let theta = resolve(alloc, pred, names_r, &names_s);
    drop(names_s);
    theta
}

fn resolved(rt: &impl Abort, alloc: Global, pred: &Pred) -> Result<Theta, ResolveFault> {
    has_short_sums(rt, pred);
    let names_r = header(alloc, "a x b b")?;
    let theta = over_y(alloc, pred, &names_r);
    drop(names_r);
    theta
}

// The predicate over the columns a, x, b, b and y.
fn over_a_to_b(rt: &impl Abort, alloc: Global, pred: Pred) -> Result<Theta, ResolveFault> {
    let theta = resolved(rt, alloc, &pred);
    drop(pred);
    theta
}

fn has_numeric(rt: &impl Abort, theta: &Theta) {
    assert_eq!(rt; theta.numeric(Side::R).as_slice(), [1].as_slice());
    assert_eq!(rt; theta.numeric(Side::S).as_slice(), [0].as_slice());
}

#[test]
fn numeric_columns_are_named_once(rt: HostRuntime) -> Result<(), Fail> {
    let theta = over_a_to_b(&rt, rt.alloc(), both(rt.alloc())?)?;
    has_numeric(&rt, &theta);
    drop(theta);
    Ok(())
}

// The name that a refusal tells of, with its side and whether it stands there more than once.
fn wrong_name(answer: Result<Theta, ResolveFault>) -> Option<(bool, Side, Bytes)> {
    match answer {
        Err(ResolveFault::TwoColumns { side, name }) => Some((true, side, name)),
        Err(ResolveFault::NoColumn { side, name }) => Some((false, side, name)),
        Err(ResolveFault::Memory) => None,
        Ok(theta) => {
            drop(theta);
            None
        }
    }
}

fn is_told(rt: &impl Abort, twice: bool, side: Side, name: &[u8], wanted: (bool, Side, &[u8])) {
    assert_eq!(rt; twice, wanted.0);
    assert_eq!(rt; side, wanted.1);
    assert_eq!(rt; name, wanted.2);
}

fn tells(
    rt: &impl Abort,
    alloc: Global,
    sum: Sum,
    wanted: (bool, Side, &[u8]),
) -> Result<(), AllocError> {
    match wrong_name(over_a_to_b(rt, alloc, below_3(sum))) {
        Some((twice, side, name)) => {
            is_told(rt, twice, side, name.as_slice(), wanted);
            drop(name);
            Ok(())
        }
        None => Err(AllocError),
    }
}

// The sum of these two columns.
fn two_columns(
    alloc: Global,
    first: (Side, &[u8]),
    second: (Side, &[u8]),
) -> Result<Sum, AllocError> {
    let left = column(alloc, false, first.0, first.1)?;
    two(alloc, left, column(alloc, false, second.0, second.1))
}

#[test]
fn the_first_wrong_name_is_told(rt: HostRuntime) -> Result<(), Fail> {
    let alloc = rt.alloc();
    let doubled_first = two_columns(alloc, (Side::R, b"b"), (Side::S, b"z"))?;
    tells(&rt, alloc, doubled_first, (true, Side::R, b"b"))?;
    let absent_first = two_columns(alloc, (Side::S, b"z"), (Side::R, b"b"))?;
    tells(&rt, alloc, absent_first, (false, Side::S, b"z"))?;
    Ok(())
}
