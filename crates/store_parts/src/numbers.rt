// The numbers by which tuples are looked up, and whether two tuples agree.

ghost use Rattle.std.specs.Prelude.{◌≡◌, ◌+◌, ◌*◌, ◌%◌, ◌^◌, option_map, pos, IfSome, Some};
ghost use Rattle.theta_pred.specs.Keys.{is_between};
ghost use Rattle.theta_pred.specs.Sizes.{IsAtMost};
ghost use Rattle.store_parts.specs.Accessed.{is_admitted, is_exact, number_from, number_of, number_of_row, numbered, own_value, value_on};
ghost use Rattle.theta_pred.specs.Accesses.{
  agree_in_all,
  agreement_of,
  agreements,
  agrees,
  do_agree,
  is_in_range,
  reach_of,
  terms_of,
};
ghost use Rattle.theta_pred.specs.OneSided.{is_true_alone};
ghost use Rattle.theta_pred.specs.Sums.{of_side};
ghost use Rattle.theta_pred.specs.TextAtoms.{text_at};

use crate::band::{difference, is_true_of};
use epoch_tags::Tuple;
use row_cells::{Cells, Side};
use theta_pred::{Access, Alone, Range, Same};

// The number of a text. It is the text's polynomial at a prime, modulo 2^64.
fn number_of(text: &[u8]) -> u64
    ensures { result ≡ number_of text.now }
{
    let mut number = 0u64;
    for byte in text {
        number = number
            .wrapping_mul(1099511628211)
            .wrapping_add(u64::from(*byte));
    }
    number
}

// The number of a row's text in a column.
fn text_number(row: &Cells, column: u64) -> i128
    ensures { result ≡ pos (number_of (text_at column row.now)) }
{
    i128::from(number_of(row.text_at(column)))
}

// The value of a row of this side in a test of rows of one side: none where it is a row of that side and fails.
fn own_value(alone: &Alone, side: Side, row: &Cells) -> Option<i128>
    ensures { result ≡ own_value side alone.now.side alone.now.test.formula row.now }
{
    if alone.side == side && !alone.test.holds_alone(side, row) {
        None
    } else {
        Some(0)
    }
}

// The value of a row of this side in what is compared.
fn value_on(same: &Same, side: Side, row: &Cells) -> Option<i128>
    ensures { result ≡ value_on side same.now row.now }
{
    match same {
        Same::Texts(atom) => match side {
            Side::R => Some(text_number(row, atom.r)),
            Side::S => Some(text_number(row, atom.s)),
        },
        Same::Sums(pair) => match side {
            Side::R => match pair.r_sum.value(row) {
                Some(value) => Some(difference(value, pair.gap)),
                None => None,
            },
            Side::S => pair.s_sum.value(row),
        },
        Same::Alone(alone) => own_value(alone, side, row),
    }
}

// The number of several values of a row of this side.
fn numbered(sames: &[Same], side: Side, row: &Cells) -> Option<i128>
    ensures { result ≡ numbered side (pos 0) sames.now row.now }
{
    let mut number = 0i128;
    for same in sames {
        let Some(value) = value_on(same, side, row) else {
            return None;
        };
        number = number.wrapping_mul(1099511628211).wrapping_add(value);
    }
    Some(number)
}

// The number of a tuple of this side, of all its values in which rows agree.
pub(crate) fn number(access: &Access, side: Side, tuple: &Tuple) -> Option<i128>
    ensures { result ≡ number_of_row side access.now.sames tuple.now.cells }
{
    match access.sames.as_slice() {
        [] => Some(0),
        [same] => value_on(same, side, &tuple.cells),
        sames => numbered(sames, side, &tuple.cells),
    }
}

// Whether tuples of one number agree in all.
pub(crate) fn is_exact(access: &Access) -> bool
    ensures { result ≡ is_exact access.now }
{
    match (access.sames.as_slice(), &access.range) {
        ([Same::Sums(_)], None) => true,
        _ => false,
    }
}

// Whether two sums are so much apart.
fn are_apart(gap: i128, x: Option<i128>, y: Option<i128>) -> bool
    requires x { IfSome x (IsAtMost (2 ^ 68)) }
    requires y { IfSome y (IsAtMost (2 ^ 68)) }
    ensures { result ≡ is_between (Some gap) (Some gap) x y }
{
    match (x, y) {
        (Some(x), Some(y)) => gap <= x - y && x - y <= gap,
        _ => false,
    }
}

// Whether the row of a test's side passes it.
fn passes(alone: &Alone, r: &Cells, s: &Cells) -> bool
    ensures { let own = of_side r.now s.now alone.now.side in
        result ≡ is_true_alone alone.now.side own alone.now.test.formula }
{
    match alone.side {
        Side::R => alone.test.holds_alone(Side::R, r),
        Side::S => alone.test.holds_alone(Side::S, s),
    }
}

// Whether two rows agree in this.
fn agrees(same: &Same, r: &Cells, s: &Cells) -> bool
    ensures { result ≡ agrees r.now s.now (agreement_of same.now) }
{
    match same {
        Same::Texts(atom) => r.text_at(atom.r) == s.text_at(atom.s),
        Same::Sums(pair) => are_apart(pair.gap, pair.r_sum.value(r), pair.s_sum.value(s)),
        Same::Alone(alone) => passes(alone, r, s),
    }
}

// Whether they agree in all but the range.
fn agree_in_all(access: &Access, r: &Cells, s: &Cells) -> bool
    ensures { result ≡ agree_in_all (agreements access.now) r.now s.now }
{
    for same in access.sames.as_slice() {
        if !agrees(same, r, s) {
            return false;
        }
    }
    true
}

// Whether the sums of two rows lie as the range says, where there is one.
fn is_in_range(range: &Option<Range>, r: &Cells, s: &Cells) -> bool
    ensures { result ≡ is_in_range (option_map reach_of range.now) r.now s.now }
{
    match range {
        None => true,
        Some(Range::Span(atom)) => is_true_of(atom, r, s),
        Some(Range::Interval(interval)) => is_true_of(&interval.lower, r, s)
            && is_true_of(&interval.upper, r, s),
    }
}

// Whether two rows agree in all.
fn do_agree(access: &Access, r: &Cells, s: &Cells) -> bool
    ensures { result ≡ do_agree (terms_of access.now) r.now s.now }
{
    agree_in_all(access, r, s) && is_in_range(&access.range, r, s)
}

// Whether a tuple that probes and a stored one agree in all.
pub(crate) fn is_admitted(access: &Access, tuple: &Tuple, other: &Tuple) -> bool
    ensures { result ≡ is_admitted access.now tuple.now other.now }
{
    match tuple.side {
        Side::R => do_agree(access, &tuple.cells, &other.cells),
        Side::S => do_agree(access, &other.cells, &tuple.cells),
    }
}
