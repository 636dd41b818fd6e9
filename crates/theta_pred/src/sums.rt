// The cells of columns, and the whole numbers that sums of them are.

ghost use Rattle.std.specs.Prelude.{◌≡◌, ◌≤◌, ◌^◌, length, IfSome};
ghost use Rattle.theta_pred.specs.Sums.{number_of, of_side, signed_of, sum_of, text_of};
ghost use Rattle.theta_pred.specs.Sizes.{IsAtMost};

use crate::tree::{Number, SignedTerm, SignedTerms, Text};
use row_cells::{Cells, Side};

// The row of a side.
fn row_of<'a>(side: Side, r: &'a Cells, s: &'a Cells) -> &'a Cells
    ensures { result.now ≡ of_side r.now s.now side }
{
    match side {
        Side::R => r,
        Side::S => s,
    }
}

// What a term stands for without its sign.
fn number(term: Number, r: &Cells, s: &Cells) -> Option<i64>
    ensures { result ≡ number_of r.now s.now term }
{
    match term {
        Number::Given(value) => Some(value),
        Number::Cell(column) => row_of(column.side, r, s).number_at(column.place),
    }
}

// What a term stands for with its sign.
fn signed_value(term: SignedTerm, r: &Cells, s: &Cells) -> Option<i128>
    ensures value { result ≡ signed_of r.now s.now term }
    ensures small { IfSome result (λ value. IsAtMost (2 ^ 63) value) }
{
    let value = i128::from(number(term.number, r, s)?);
    Some(if term.minus { -value } else { value })
}

// The whole number that a sum is, where each of its columns has a number.
pub(crate) fn sum(terms: &SignedTerms, r: &Cells, s: &Cells) -> Option<i128>
    requires { length terms.now ≤ 16 }
    ensures value { result ≡ sum_of r.now s.now terms.now }
    ensures small { IfSome result (λ value. IsAtMost (2 ^ 67) value) }
{
    let mut value = 0;
    for term in terms.as_slice() {
        value += signed_value(*term, r, s)?;
    }
    Some(value)
}

// What a side of a test on texts stands for.
pub(crate) fn text<'a>(side: &'a Text, r: &'a Cells, s: &'a Cells) -> &'a [u8]
    ensures { result.now ≡ text_of r.now s.now side.now }
{
    match side {
        Text::Given(bytes) => bytes.as_slice(),
        Text::Cell(column) => row_of(column.side, r, s).text_at(column.place),
    }
}
