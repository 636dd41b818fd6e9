// The values of the other side with which a key atom is true.

ghost use Rattle.std.specs.Prelude.{◌≡◌, ◌^◌, ◌+ℤ◌, ◌-ℤ◌, ◌&&◌, option_map, IfSome};
ghost use Rattle.std.specs.Option.{ForSome};
ghost use Rattle.store_parts.specs.Keyed.{greatest_at, least_at, value_at};
ghost use Rattle.theta_pred.specs.Keys.{atom_of, is_atom_true, is_from, is_up_to};
ghost use Rattle.theta_pred.specs.Sizes.{IsAtMost};

use epoch_tags::Tuple;
use row_cells::{Cells, Side};
use theta_pred::KeyAtom;

pub(crate) fn difference(value: i128, bound: i128) -> i128
    requires value { IsAtMost (2 ^ 68) value }
    requires bound { IsAtMost (2 ^ 100) bound }
    ensures { result ≡ value -ℤ bound }
{
    value - bound
}

fn total(value: i128, bound: i128) -> i128
    requires value { IsAtMost (2 ^ 68) value }
    requires bound { IsAtMost (2 ^ 100) bound }
    ensures { result ≡ value +ℤ bound }
{
    value + bound
}

// The value less a bound.
fn less(value: i128, bound: Option<i128>) -> Option<i128>
    requires value { IsAtMost (2 ^ 68) value }
    requires bound { ForSome bound (IsAtMost (2 ^ 100)) }
    ensures { result ≡ option_map (λ b. value -ℤ b) bound }
{
    match bound {
        Some(bound) => Some(difference(value, bound)),
        None => None,
    }
}

// The value and a bound.
fn plus(value: i128, bound: Option<i128>) -> Option<i128>
    requires value { IsAtMost (2 ^ 68) value }
    requires bound { ForSome bound (IsAtMost (2 ^ 100)) }
    ensures { result ≡ option_map (λ b. value +ℤ b) bound }
{
    match bound {
        Some(bound) => Some(total(value, bound)),
        None => None,
    }
}

// The least value of the other side, if there is one.
pub(crate) fn least(key: &KeyAtom, side: Side, value: i128) -> Option<i128>
    requires { IsAtMost (2 ^ 68) value }
    ensures { result ≡ least_at side key.now value }
{
    match side {
        Side::R => less(value, key.high),
        Side::S => plus(value, key.low),
    }
}

// The greatest value of the other side, if there is one.
pub(crate) fn greatest(key: &KeyAtom, side: Side, value: i128) -> Option<i128>
    requires { IsAtMost (2 ^ 68) value }
    ensures { result ≡ greatest_at side key.now value }
{
    match side {
        Side::R => less(value, key.low),
        Side::S => plus(value, key.high),
    }
}

// Whether a number lies between two bounds.
fn lies_between(low: Option<i128>, high: Option<i128>, gap: i128) -> bool
    ensures { result ≡ (is_from low gap && is_up_to high gap) }
{
    let is_from = match low {
        Some(low) => low <= gap,
        None => true,
    };
    let is_up_to = match high {
        Some(high) => gap <= high,
        None => true,
    };
    is_from && is_up_to
}

// Whether the key atom is true of a row of R and a row of S.
pub(crate) fn is_true_of(key: &KeyAtom, r: &Cells, s: &Cells) -> bool
    ensures { result ≡ is_atom_true (atom_of key.now) r.now s.now }
{
    match (key.r_sum.value(r), key.s_sum.value(s)) {
        (Some(x), Some(y)) => lies_between(key.low, key.high, x - y),
        _ => false,
    }
}

// Whether the least and the greatest value are the same, whatever the value beside them.
pub(crate) fn is_equality(key: &KeyAtom) -> bool {
    match (key.low, key.high) {
        (Some(low), Some(high)) => low == high,
        _ => false,
    }
}

// The value of a tuple of this side.
pub(crate) fn value_of(key: &KeyAtom, side: Side, tuple: &Tuple) -> Option<i128>
    ensures value { result ≡ value_at key.now side tuple.now }
    ensures small { IfSome result (IsAtMost (2 ^ 68)) }
{
    match side {
        Side::R => key.r_sum.value(&tuple.cells),
        Side::S => key.s_sum.value(&tuple.cells),
    }
}
