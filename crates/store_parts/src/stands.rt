// Where tuples stand in an index by an access, and between which numbers a tuple asks for others.

ghost use Rattle.std.specs.Prelude.{◌≡◌, ◌^◌, IfOk, IfSome};
ghost use Rattle.store_parts.specs.Accessed.{
  asked,
  first_at,
  interval_stand,
  is_at,
  last_at,
  number_at,
  point_windows,
  stand_at,
  value_stand,
  windows_at,
};
ghost use Rattle.store_parts.specs.Indexed.{indexed_at};
ghost use Rattle.store_parts.specs.Stands.{stand_of};
ghost use Rattle.theta_pred.specs.Sizes.{IsAtMost};

use crate::band::value_of;
use crate::length_classes::{stand_of, windows_of};
use crate::numbers::number;
use crate::places::{Window, Windows};
use crate::value_windows::{
    clamped, hash_of, high_at, interval_windows, low_at, only, span_windows, stand,
};
use epoch_tags::Tuple;
use row_cells::{Few, Side};
use std::alloc::{AllocError, Global};
use theta_pred::{Access, Interval, KeyAtom, Range};

// The same, where there is a point.
fn point_windows(alloc: Global, hash: i128, value: Option<i128>) -> Result<Windows, AllocError>
    requires hash { IsAtMost (2 ^ 48) hash }
    ensures { IfOk result (λ windows. windows ≡ point_windows hash value) }
{
    match value {
        Some(value) => windows_of(alloc, hash, clamped(value)),
        None => Ok(Few::new(alloc)),
    }
}

// Whether two sides are one.
fn is_at(side: Side, other: Side) -> bool
    ensures { result ≡ is_at side other }
{
    match (side, other) {
        (Side::R, Side::R) | (Side::S, Side::S) => true,
        _ => false,
    }
}

// Where the interval of a tuple of this side begins.
fn first_at(interval: &Interval, side: Side, value: i128) -> i128
    requires { IsAtMost (2 ^ 68) value }
    ensures value { result ≡ first_at interval.now side value }
    ensures small { IsAtMost (2 ^ 69) result }
{
    clamped(low_at(&interval.lower, side, value))
}

// Where it ends.
fn last_at(interval: &Interval, side: Side, value: i128) -> i128
    requires { IsAtMost (2 ^ 68) value }
    ensures value { result ≡ last_at interval.now side value }
    ensures small { IsAtMost (2 ^ 69) result }
{
    clamped(high_at(&interval.upper, side, value))
}

// Where a value that may be none stands.
fn value_stand(hash: i128, value: Option<i128>) -> Option<i128>
    requires hash { IsAtMost (2 ^ 48) hash }
    ensures { result ≡ value_stand hash value }
{
    match value {
        Some(value) => Some(stand(hash, 0, value)),
        None => None,
    }
}

// Where the interval stands that two values bound.
fn known_stand(hash: i128, interval: &Interval, side: Side, v: i128, w: i128) -> Option<i128>
    requires hash { IsAtMost (2 ^ 48) hash }
    requires lower { IsAtMost (2 ^ 68) v }
    requires upper { IsAtMost (2 ^ 68) w }
    ensures { result ≡ stand_of hash (first_at interval.now side v) (last_at interval.now side w) }
{
    stand_of(
        hash,
        first_at(interval, side, v),
        last_at(interval, side, w),
    )
}

// The same, where there are both.
fn interval_stand(
    hash: i128,
    interval: &Interval,
    side: Side,
    lower: Option<i128>,
    upper: Option<i128>,
) -> Option<i128>
    requires hash { IsAtMost (2 ^ 48) hash }
    requires lower { IfSome lower (IsAtMost (2 ^ 68)) }
    requires upper { IfSome upper (IsAtMost (2 ^ 68)) }
    ensures { result ≡ interval_stand hash interval.now side lower upper }
{
    match (lower, upper) {
        (Some(v), Some(w)) => known_stand(hash, interval, side, v, w),
        _ => None,
    }
}

// Where a tuple of this side stands, by its number of equalities.
fn stand_at(range: &Option<Range>, side: Side, number: i128, tuple: &Tuple) -> Option<i128>
    ensures { result ≡ stand_at range.now side number tuple.now }
{
    match range {
        None => Some(number),
        Some(Range::Span(atom)) => value_stand(hash_of(number), value_of(atom, side, tuple)),
        Some(Range::Interval(interval)) => if is_at(side, interval.points) {
            value_stand(hash_of(number), value_of(&interval.lower, side, tuple))
        } else {
            interval_stand(
                hash_of(number),
                interval,
                side,
                value_of(&interval.lower, side, tuple),
                value_of(&interval.upper, side, tuple),
            )
        },
    }
}

// By what number a tuple of this side stands in the index of an access.
fn number_at(access: &Access, side: Side, tuple: &Tuple) -> Option<i128>
    ensures { result ≡ number_at access.now side tuple.now }
{
    match number(access, side, tuple) {
        Some(number) => stand_at(&access.range, side, number, tuple),
        None => None,
    }
}

// By what number a tuple of this side stands in the index.
pub(crate) fn indexed_at(
    key: &Option<KeyAtom>,
    access: &Option<Access>,
    side: Side,
    tuple: &Tuple,
) -> Option<i128>
    ensures { result ≡ indexed_at key.now access.now side tuple.now }
{
    match (key, access) {
        (_, Some(access)) => number_at(access, side, tuple),
        (Some(key), None) => value_of(key, side, tuple),
        (None, None) => None,
    }
}

// Between which numbers a tuple of this side asks for others, by its number of equalities.
fn windows_at(
    alloc: Global,
    range: &Option<Range>,
    side: Side,
    number: i128,
    tuple: &Tuple,
) -> Result<Windows, AllocError>
    ensures { IfOk result (λ windows. windows ≡ windows_at range.now side number tuple.now) }
{
    match range {
        None => only(
            alloc,
            Window {
                from: number,
                to: number,
            },
        ),
        Some(Range::Span(atom)) => span_windows(
            alloc,
            hash_of(number),
            atom,
            side,
            value_of(atom, side, tuple),
        ),
        Some(Range::Interval(interval)) => if is_at(side, interval.points) {
            point_windows(
                alloc,
                hash_of(number),
                value_of(&interval.lower, side, tuple),
            )
        } else {
            interval_windows(
                alloc,
                hash_of(number),
                interval,
                side,
                value_of(&interval.lower, side, tuple),
                value_of(&interval.upper, side, tuple),
            )
        },
    }
}

// Between which numbers a tuple that probes asks for others.
pub(crate) fn asked(alloc: Global, access: &Access, tuple: &Tuple) -> Result<Windows, AllocError>
    ensures { IfOk result (λ windows. windows ≡ asked access.now tuple.now) }
{
    match number(access, tuple.side, tuple) {
        Some(number) => windows_at(alloc, &access.range, tuple.side, number, tuple),
        None => Ok(Few::new(alloc)),
    }
}
