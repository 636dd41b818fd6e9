// The bounds of a difference of columns, from a test of whole sums.

ghost use Rattle.std.specs.Prelude.{◌≡◌, ◌≤◌, ◌^◌, ◌-ℤ◌, neg_ℤ, length};
ghost use Rattle.std.specs.Option.{ForSome};
ghost use Rattle.theta_pred.specs.Keys;
ghost use Rattle.theta_pred.specs.Sizes.{IsAtMost};
ghost use Rattle.theta_pred.specs.Sums.{with_sign};

use crate::tree::{Number, SignedTerm};
use theta_tree::Op;

// What a constant adds to a sum.
fn constant_in(term: SignedTerm) -> i128
    ensures value { result ≡ with_sign term.minus (Keys.constant_in term.number) }
    ensures small { IsAtMost (2 ^ 63) result }
{
    let value = match term.number {
        Number::Given(value) => i128::from(value),
        Number::Cell(_) => 0,
    };
    if term.minus { -value } else { value }
}

// The sum of a sum's constants.
pub(crate) fn constant(sum: &[SignedTerm]) -> i128
    requires { length sum.now ≤ 16 }
    ensures value { result ≡ Keys.constant_of sum.now }
    ensures small { IsAtMost (2 ^ 67) result }
{
    let mut value = 0;
    for term in sum {
        value += constant_in(*term);
    }
    value
}

// The constant of one sum less another.
pub(crate) fn constant_apart(left: &[SignedTerm], right: &[SignedTerm]) -> i128
    requires left { length left.now ≤ 16 }
    requires right { length right.now ≤ 16 }
    ensures value { result ≡ Keys.constant_of left.now -ℤ Keys.constant_of right.now }
    ensures small { IsAtMost (2 ^ 68) result }
{
    constant(left) - constant(right)
}

// The bounds of R's columns less S's, where the whole difference has this constant beside them.
pub(crate) fn num_low(op: Op, constant: i128) -> Option<i128>
    requires { IsAtMost (2 ^ 68) constant }
    ensures value { result ≡ Keys.num_low op constant }
    ensures small { ForSome result (IsAtMost (2 ^ 100)) }
{
    match op {
        Op::Eq | Op::Ge => Some(-constant),
        Op::Gt => Some(1 - constant),
        Op::Ne | Op::Lt | Op::Le => None,
    }
}

pub(crate) fn num_high(op: Op, constant: i128) -> Option<i128>
    requires { IsAtMost (2 ^ 68) constant }
    ensures value { result ≡ Keys.num_high op constant }
    ensures small { ForSome result (IsAtMost (2 ^ 100)) }
{
    match op {
        Op::Eq | Op::Le => Some(-constant),
        Op::Lt => Some(-1 - constant),
        Op::Ne | Op::Gt | Op::Ge => None,
    }
}

// The greatest size that a band allows.
fn reach(op: Op, bound: i64) -> i128
    ensures value { result ≡ Keys.reach op bound }
    ensures small { IsAtMost (2 ^ 64) result }
{
    let bound = i128::from(bound);
    match op {
        Op::Lt => bound - 1,
        Op::Eq | Op::Ne | Op::Le | Op::Gt | Op::Ge => bound,
    }
}

fn below(reach: i128, constant: i128) -> i128
    requires reach { IsAtMost (2 ^ 64) reach }
    requires constant { IsAtMost (2 ^ 68) constant }
    ensures value { result ≡ neg_ℤ reach -ℤ constant }
    ensures small { IsAtMost (2 ^ 100) result }
{
    -reach - constant
}

fn above(reach: i128, constant: i128) -> i128
    requires reach { IsAtMost (2 ^ 64) reach }
    requires constant { IsAtMost (2 ^ 68) constant }
    ensures value { result ≡ reach -ℤ constant }
    ensures small { IsAtMost (2 ^ 100) result }
{
    reach - constant
}

pub(crate) fn band_low(op: Op, bound: i64, constant: i128) -> Option<i128>
    requires { IsAtMost (2 ^ 68) constant }
    ensures value { result ≡ Keys.band_low op bound constant }
    ensures small { ForSome result (IsAtMost (2 ^ 100)) }
{
    Some(below(reach(op, bound), constant))
}

pub(crate) fn band_high(op: Op, bound: i64, constant: i128) -> Option<i128>
    requires { IsAtMost (2 ^ 68) constant }
    ensures value { result ≡ Keys.band_high op bound constant }
    ensures small { ForSome result (IsAtMost (2 ^ 100)) }
{
    Some(above(reach(op, bound), constant))
}
