// Values with their places, in a map that is read by one value at a time.

ghost use Rattle.std.specs.Prelude.{◌≡◌, ℤ, Option, Some, List, [], ◌∷◌, ◌++◌, length, IfOk, IfSome, OnOk, OnErr};
ghost use Rattle.store_parts.specs.Places.{gathered, lies, IsMapOf};

use crate::places::{Found, Places};
use row_cells::Few;
use std::alloc::{AllocError, Global};
use std::collections::HashMap;

pub(crate) type HashedMap = HashMap<i128, Places>;

// Notes the value of a new last place.
pub(crate) fn add_hashed(
    alloc: Global,
    map: &mut HashedMap,
    value: i128,
    place: u64,
) -> Result<(), AllocError>
    ensures ok { (values : List (Option ℤ)) → length values ≡ place
        → IsMapOf values map.old.entries
        → OnOk result (IsMapOf (values ++ Some value ∷ []) map.new.entries) }
    ensures err { (values : List (Option ℤ)) → IsMapOf values map.old.entries
        → OnErr result (IsMapOf values map.new.entries) }
{
    let places = map.entry(value)?.or_insert(Few::new(alloc));
    places.push(place)?;
    Ok(())
}

// Whether a value lies between two bounds.
fn lies(from: Option<i128>, to: Option<i128>, value: i128) -> bool
    ensures { result ≡ lies from to (Some value) }
{
    let is_from = match from {
        Some(from) => from <= value,
        None => true,
    };
    let is_up_to = match to {
        Some(to) => value <= to,
        None => true,
    };
    is_from && is_up_to
}

// The one value that two bounds leave, if they are the same.
fn only_value(from: Option<i128>, to: Option<i128>) -> Option<i128>
    ensures from { IfSome result (λ value. from ≡ Some value) }
    ensures to { IfSome result (λ value. to ≡ Some value) }
{
    match (from, to) {
        (Some(from), Some(to)) => if from == to { Some(from) } else { None },
        _ => None,
    }
}

// The places of a value.
fn gather_one(alloc: Global, map: &HashedMap, value: i128) -> Result<Found, AllocError>
    ensures { IfOk result (λ found.
        found ≡ gathered (Some value) (Some value) map.now.entries) }
{
    let _ = map.len();
    match map.get(&value) {
        Some(places) => Few::from_slice(alloc, places.as_slice()),
        None => Ok(Few::new(alloc)),
    }
}

// The places of the values between two bounds, where each value is looked at.
fn gather_each(
    alloc: Global,
    map: &HashedMap,
    from: Option<i128>,
    to: Option<i128>,
) -> Result<Found, AllocError>
    ensures { IfOk result (λ found. found ≡ gathered from to map.now.entries) }
{
    let mut found = Few::new(alloc);
    for entry in map.iter() {
        if lies(from, to, *entry.0) {
            found.append(entry.1.as_slice())?;
        }
    }
    Ok(found)
}

// The places of the values between two bounds.
pub(crate) fn gather_hashed(
    alloc: Global,
    map: &HashedMap,
    from: Option<i128>,
    to: Option<i128>,
) -> Result<Found, AllocError>
    ensures { IfOk result (λ found. found ≡ gathered from to map.now.entries) }
{
    match only_value(from, to) {
        Some(value) => gather_one(alloc, map, value),
        None => gather_each(alloc, map, from, to),
    }
}
