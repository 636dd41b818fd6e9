// The classes of intervals by their lengths: where an interval stands, and where those that hold a point can stand.

ghost use Rattle.std.specs.Prelude.{◌≡◌, ◌+◌, ◌≤◌, ◌^◌, ◌++◌, ◌-ℤ◌, int_le, IfOk, OnOk};
ghost use Rattle.store_parts.specs.Stands.{class_from, class_of, next_most, stand_of, windows_from, windows_of, IsMost};
ghost use Rattle.theta_pred.specs.Sizes.{IsAtMost};

use crate::places::Windows;
use crate::value_windows::{point_window, stand};
use row_cells::Few;
use std::alloc::{AllocError, Global};

// The greatest length that there is, 2^70.
const GREATEST: i128 = 1180591620717411303424;

// How many classes of lengths there are, but the first.
const MORE_CLASSES: u64 = 18;

// The greatest length of the next class.
fn next_most(most: i128) -> i128
    requires { IsMost most }
    ensures value { result ≡ next_most most }
    ensures small { IsMost result }
{
    if most <= GREATEST {
        16 * most + 15
    } else {
        most
    }
}

// The class of a length, of this one and so many after it.
fn class_from(left: u64, class: u64, most: i128, length: i128) -> u64
    requires class { class + left ≤ 18 }
    requires most { IsMost most }
    ensures value { result ≡ class_from left class most length }
    ensures small { result ≤ 18 }
{
    if left == 0 {
        return class;
    }
    if length <= most {
        return class;
    }
    class_from(left - 1, class + 1, next_most(most), length)
}

// Whether an interval doesn't end before it begins.
fn is_forward(first: i128, last: i128) -> bool
    ensures { result ≡ int_le first last }
{
    first <= last
}

// How far one value is from another.
fn length_of(first: i128, last: i128) -> i128
    requires first { IsAtMost (2 ^ 69) first }
    requires last { IsAtMost (2 ^ 69) last }
    ensures { result ≡ last -ℤ first }
{
    last - first
}

// The class of an interval's length.
fn class_of(length: i128) -> u64
    ensures value { result ≡ class_of length }
    ensures small { result ≤ 18 }
{
    class_from(MORE_CLASSES, 0, 0, length)
}

// Where an interval stands.
pub(crate) fn stand_of(hash: i128, first: i128, last: i128) -> Option<i128>
    requires hash { IsAtMost (2 ^ 48) hash }
    requires first { IsAtMost (2 ^ 69) first }
    requires last { IsAtMost (2 ^ 69) last }
    ensures { result ≡ stand_of hash first last }
{
    if is_forward(first, last) {
        Some(stand(hash, class_of(length_of(first, last)), first))
    } else {
        None
    }
}

// Appends where the intervals that hold a point can stand, of this class and so many after it.
fn add_windows(
    windows: &mut Windows,
    left: u64,
    hash: i128,
    class: u64,
    most: i128,
    x: i128,
) -> Result<(), AllocError>
    requires hash { IsAtMost (2 ^ 48) hash }
    requires class { class + left ≤ 18 }
    requires most { IsMost most }
    requires x { IsAtMost (2 ^ 69) x }
    ensures { OnOk result
        (windows.new ≡ windows.old ++ windows_from left hash class most x) }
{
    windows.push(point_window(hash, class, most, x))?;
    if left == 0 {
        return Ok(());
    }
    add_windows(windows, left - 1, hash, class + 1, next_most(most), x)
}

// Where the intervals that hold a point can stand.
pub(crate) fn windows_of(alloc: Global, hash: i128, x: i128) -> Result<Windows, AllocError>
    requires hash { IsAtMost (2 ^ 48) hash }
    requires x { IsAtMost (2 ^ 69) x }
    ensures { IfOk result (λ windows. windows ≡ windows_of hash x) }
{
    let mut windows = Few::from_vec(Vec::with_capacity(alloc, MORE_CLASSES as usize + 1)?);
    add_windows(&mut windows, MORE_CLASSES, hash, 0, 0, x)?;
    Ok(windows)
}
