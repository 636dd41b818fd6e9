// Values with their places, in a map that is read between two bounds.

ghost use Rattle.std.specs.Prelude.{◌≡◌, ℤ, Option, Some, List, [], ◌∷◌, ◌++◌, length, IfOk, OnOk, OnErr};
ghost use Rattle.std.specs.Prelude.{IfSome};
ghost use Rattle.store_parts.specs.Places.{end_of, gathered, is_backward, start_of, AreWithin, IsMapOf};

use crate::places::{Found, Places, Window};
use row_cells::Few;
use std::alloc::{AllocError, Global};
use std::collections::BTreeMap;
use std::ops::Bound;

pub(crate) type OrderedMap = BTreeMap<i128, Places>;

fn start_of(from: Option<i128>) -> Bound<i128>
    ensures { result ≡ start_of from }
{
    match from {
        Some(value) => Bound::Included(value),
        None => Bound::Unbounded,
    }
}

fn end_of(to: Option<i128>) -> Bound<i128>
    ensures { result ≡ end_of to }
{
    match to {
        Some(value) => Bound::Included(value),
        None => Bound::Unbounded,
    }
}

// Whether no value lies between the bounds, since the second is below the first.
fn is_backward(from: Option<i128>, to: Option<i128>) -> bool
    ensures { result ≡ is_backward from to }
{
    match (from, to) {
        (Some(from), Some(to)) => to < from,
        _ => false,
    }
}

// Notes the value of a new last place.
pub(crate) fn add_ordered(
    alloc: Global,
    map: &mut OrderedMap,
    value: i128,
    place: u64,
) -> Result<(), AllocError>
    ensures ok { (values : List (Option ℤ)) → length values ≡ place
        → IsMapOf values map.old.entries
        → OnOk result (IsMapOf (values ++ Some value ∷ []) map.new.entries) }
    ensures err { (values : List (Option ℤ)) → IsMapOf values map.old.entries
        → OnErr result (IsMapOf values map.new.entries) }
{
    let places = map.entry(value)?.or_insert(Few::new(alloc));
    places.push(place)?;
    Ok(())
}

// Between which two values all of a map lie; none where it has none.
pub(crate) fn ends_of(map: &OrderedMap) -> Option<Window>
    ensures { IfSome result (λ ends. AreWithin ends map.now.entries) }
{
    let Some(first) = map.first_key_value() else {
        return None;
    };
    let Some(last) = map.last_key_value() else {
        return None;
    };
    Some(Window {
        from: *first.0,
        to: *last.0,
    })
}

// The places of the values between two bounds.
pub(crate) fn gather_ordered(
    alloc: Global,
    map: &OrderedMap,
    from: Option<i128>,
    to: Option<i128>,
) -> Result<Found, AllocError>
    ensures { IfOk result (λ found. found ≡ gathered from to map.now.entries) }
{
    let mut found = Few::new(alloc);
    if is_backward(from, to) {
        return Ok(found);
    }
    for entry in map.range((start_of(from), end_of(to))) {
        found.append(entry.1.as_slice())?;
    }
    Ok(found)
}
