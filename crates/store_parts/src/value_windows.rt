// Where values stand in an ordered index, and the windows from where one stands to where another does.

ghost use Rattle.std.specs.Prelude.{◌≡◌, ◌+◌, ◌*◌, ◌≤◌, ◌^◌, [], ◌∷◌, pos, ◌+ℤ◌, ◌-ℤ◌, ◌*ℤ◌, IfOk, IfSome};
ghost use Rattle.store_parts.specs.Accessed.{interval_windows, span_windows};
ghost use Rattle.store_parts.specs.Keyed.{greatest_at, least_at};
ghost use Rattle.store_parts.specs.Stands.{clamped, hash_of, high_of, low_of, stand, window, IsMost};
ghost use Rattle.theta_pred.specs.Sizes.{IsAtMost};

use crate::band::{greatest, least};
use crate::places::{Window, Windows};
use row_cells::{Few, Side};
use std::alloc::{AllocError, Global};
use theta_pred::{Interval, KeyAtom};

// How far from 0 a value stands at most, 2^69.
const EDGE: i128 = 590295810358705651712;

// How far apart the values of two classes stand, 2^71.
const ROOM: i128 = 2361183241434822606848;

// How many hashes there are of either sign, 2^48.
const HASHES: i128 = 281474976710656;

// A value, or the edge that it lies beyond.
pub(crate) fn clamped(value: i128) -> i128
    ensures value { result ≡ clamped value }
    ensures small { IsAtMost (2 ^ 69) result }
{
    if value <= -EDGE {
        -EDGE
    } else if value <= EDGE {
        value
    } else {
        EDGE
    }
}

// What is left of a number of equalities.
pub(crate) fn hash_of(number: i128) -> i128
    ensures value { result ≡ hash_of number }
    ensures small { IsAtMost (2 ^ 48) result }
{
    number % HASHES
}

// A hash, with room for classes.
fn spread(hash: i128) -> i128
    requires { IsAtMost (2 ^ 48) hash }
    ensures value { result ≡ hash *ℤ pos 128 }
    ensures small { IsAtMost (2 ^ 55) result }
{
    hash * 128
}

// A hash and a class.
fn block(hash: i128, class: u64) -> i128
    requires hash { IsAtMost (2 ^ 48) hash }
    requires class { class ≤ 127 }
    ensures value { result ≡ hash *ℤ pos 128 +ℤ pos class }
    ensures small { IsAtMost (2 ^ 55 + 127) result }
{
    spread(hash) + i128::from(class)
}

// Where the values of a block stand about.
fn middle(block: i128) -> i128
    requires { IsAtMost (2 ^ 55 + 127) block }
    ensures value { result ≡ block *ℤ pos (2 ^ 71) }
    ensures small { IsAtMost ((2 ^ 55 + 127) * 2 ^ 71) result }
{
    block * ROOM
}

// Two numbers together.
fn beside(middle: i128, value: i128) -> i128
    requires middle { IsAtMost ((2 ^ 55 + 127) * 2 ^ 71) middle }
    requires value { IsAtMost (2 ^ 69) value }
    ensures { result ≡ middle +ℤ value }
{
    middle + value
}

// Where a value of this hash and class stands.
pub(crate) fn stand(hash: i128, class: u64, value: i128) -> i128
    requires hash { IsAtMost (2 ^ 48) hash }
    requires class { class ≤ 127 }
    ensures { result ≡ stand hash (pos class) value }
{
    beside(middle(block(hash, class)), clamped(value))
}

// A lower bound, or the least value that there is.
fn low_of(low: Option<i128>) -> i128
    ensures { result ≡ low_of low }
{
    match low {
        Some(low) => low,
        None => -EDGE,
    }
}

// An upper bound, or the greatest value that there is.
fn high_of(high: Option<i128>) -> i128
    ensures { result ≡ high_of high }
{
    match high {
        Some(high) => high,
        None => EDGE,
    }
}

// From where one value stands up to where another does.
fn window(hash: i128, class: u64, from: i128, to: i128) -> Window
    requires hash { IsAtMost (2 ^ 48) hash }
    requires class { class ≤ 127 }
    ensures { result ≡ window hash (pos class) from to }
{
    Window {
        from: stand(hash, class, from),
        to: stand(hash, class, to),
    }
}

// So much before a point.
fn before(x: i128, most: i128) -> i128
    requires most { IsMost most }
    requires x { IsAtMost (2 ^ 69) x }
    ensures { result ≡ x -ℤ most }
{
    x - most
}

// Where the intervals of a class that hold a point can stand.
pub(crate) fn point_window(hash: i128, class: u64, most: i128, x: i128) -> Window
    requires hash { IsAtMost (2 ^ 48) hash }
    requires class { class ≤ 127 }
    requires most { IsMost most }
    requires x { IsAtMost (2 ^ 69) x }
    ensures { result ≡ window hash (pos class) (x -ℤ most) x }
{
    window(hash, class, before(x, most), x)
}

// The least value of the other side with which an atom is true.
pub(crate) fn low_at(atom: &KeyAtom, side: Side, value: i128) -> i128
    requires { IsAtMost (2 ^ 68) value }
    ensures { result ≡ low_of (least_at side atom.now value) }
{
    low_of(least(atom, side, value))
}

// And the greatest.
pub(crate) fn high_at(atom: &KeyAtom, side: Side, value: i128) -> i128
    requires { IsAtMost (2 ^ 68) value }
    ensures { result ≡ high_of (greatest_at side atom.now value) }
{
    high_of(greatest(atom, side, value))
}

// One window.
pub(crate) fn only(alloc: Global, window: Window) -> Result<Windows, AllocError>
    ensures { IfOk result (λ windows. windows ≡ window ∷ []) }
{
    let mut windows = Few::new(alloc);
    windows.push(window)?;
    Ok(windows)
}

// From the least to the greatest value with which an atom is true.
pub(crate) fn span_windows(
    alloc: Global,
    hash: i128,
    atom: &KeyAtom,
    side: Side,
    value: Option<i128>,
) -> Result<Windows, AllocError>
    requires hash { IsAtMost (2 ^ 48) hash }
    requires value { IfSome value (IsAtMost (2 ^ 68)) }
    ensures { IfOk result (λ windows. windows ≡ span_windows hash atom.now side value) }
{
    let Some(value) = value else {
        return Ok(Few::new(alloc));
    };
    only(
        alloc,
        window(
            hash,
            0,
            low_at(atom, side, value),
            high_at(atom, side, value),
        ),
    )
}

// From where the interval that two values bound begins to where it ends.
fn known_window(hash: i128, interval: &Interval, side: Side, v: i128, w: i128) -> Window
    requires hash { IsAtMost (2 ^ 48) hash }
    requires lower { IsAtMost (2 ^ 68) v }
    requires upper { IsAtMost (2 ^ 68) w }
    ensures { result ≡ window hash (pos 0) (low_of (least_at side interval.now.lower v))
        (high_of (greatest_at side interval.now.upper w)) }
{
    window(
        hash,
        0,
        low_at(&interval.lower, side, v),
        high_at(&interval.upper, side, w),
    )
}

// The same, where there are both.
pub(crate) fn interval_windows(
    alloc: Global,
    hash: i128,
    interval: &Interval,
    side: Side,
    lower: Option<i128>,
    upper: Option<i128>,
) -> Result<Windows, AllocError>
    requires hash { IsAtMost (2 ^ 48) hash }
    requires lower { IfSome lower (IsAtMost (2 ^ 68)) }
    requires upper { IfSome upper (IsAtMost (2 ^ 68)) }
    ensures { IfOk result (λ windows.
        windows ≡ interval_windows hash interval.now side lower upper) }
{
    match (lower, upper) {
        (Some(v), Some(w)) => only(alloc, known_window(hash, interval, side, v, w)),
        _ => Ok(Few::new(alloc)),
    }
}
