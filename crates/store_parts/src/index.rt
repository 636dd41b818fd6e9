// An index of values: at which places one stands that lies between two bounds.

ghost use Rattle.std.specs.Prelude.{◌≡◌, ℤ, Option, Some, List, [], ◌∷◌, ◌++◌, length, IfOk, OnOk, OnErr};
ghost use Rattle.std.specs.Prelude.{IfSome};
ghost use Rattle.std.specs.List.Sorted.{IsPermutation, IsSorted};
ghost use Rattle.std.specs.Ordering.{nat_cmp};
ghost use Rattle.store_parts.specs.Places.{
  entries_of,
  gathered,
  gathered_at,
  gathered_in,
  is_beyond,
  lies_in,
  places_between,
  places_by,
  AreApart,
  AreWithin,
  IsMapOf,
};

use crate::band::is_equality;
use crate::hashed::{HashedMap, add_hashed, gather_hashed};
use crate::ordered::{OrderedMap, add_ordered, ends_of, gather_ordered};
use crate::places::{Found, Window};
use row_cells::Few;
use std::alloc::{AllocError, Global};
use std::collections::{BTreeMap, HashMap};
use std::marker::Model;
use theta_pred::{Access, KeyAtom};

// Values, each with the places at which it stands.
#[derive(Drop)]
enum Map {
    Ordered(OrderedMap),
    Hashed(HashedMap),
}

impl Map {
    fn add(&mut self, alloc: Global, value: i128, place: u64) -> Result<(), AllocError>
        ensures ok { (values : List (Option ℤ)) → length values ≡ place
            → IsMapOf values (entries_of self.old)
            → OnOk result (IsMapOf (values ++ Some value ∷ []) (entries_of self.new)) }
        ensures err { (values : List (Option ℤ)) → IsMapOf values (entries_of self.old)
            → OnErr result (IsMapOf values (entries_of self.new)) }
    {
        match self {
            Map::Ordered(map) => add_ordered(alloc, map, value, place),
            Map::Hashed(map) => add_hashed(alloc, map, value, place),
        }
    }

    fn gather(
        &self,
        alloc: Global,
        from: Option<i128>,
        to: Option<i128>,
    ) -> Result<Found, AllocError>
        ensures { IfOk result (λ found. found ≡ gathered from to (entries_of self.now)) }
    {
        match self {
            Map::Ordered(map) => gather_ordered(alloc, map, from, to),
            Map::Hashed(map) => gather_hashed(alloc, map, from, to),
        }
    }

    fn gather_at(&self, alloc: Global, window: Window) -> Result<Found, AllocError>
        ensures { IfOk result (λ found. found ≡ gathered_at window (entries_of self.now)) }
    {
        self.gather(alloc, Some(window.from), Some(window.to))
    }

    // Between which two values all lie, where that is known.
    fn ends(&self) -> Option<Window>
        ensures { IfSome result (λ ends. AreWithin ends (entries_of self.now)) }
    {
        match self {
            Map::Ordered(map) => ends_of(map),
            Map::Hashed(_) => None,
        }
    }
}

// Whether a window lies beyond all values, which these two bound.
fn is_beyond(ends: Option<Window>, window: Window) -> bool
    ensures { result ≡ is_beyond ends window }
{
    match ends {
        Some(ends) => window.to < ends.from || ends.to < window.from,
        None => false,
    }
}

// The places of the values in a window of a map whose values these two bound.
fn gather_among(
    alloc: Global,
    map: &Map,
    ends: Option<Window>,
    window: Window,
) -> Result<Found, AllocError>
    requires { IfSome ends (λ ends. AreWithin ends (entries_of map.now)) }
    ensures { IfOk result (λ found. found ≡ gathered_at window (entries_of map.now)) }
{
    if is_beyond(ends, window) {
        return Ok(Few::new(alloc));
    }
    map.gather_at(alloc, window)
}

// The places of the values in these windows, window by window. A tuple asks for the intervals of each class of
// lengths, and few classes have any: where nothing is told apart by a hash, those at both ends are passed over.
fn gather_in(alloc: Global, map: &Map, windows: &[Window]) -> Result<Found, AllocError>
    ensures { IfOk result (λ found. found ≡ gathered_in windows.now (entries_of map.now)) }
{
    let mut found = Few::new(alloc);
    let ends = map.ends();
    for window in windows {
        let more = gather_among(alloc, map, ends, *window)?;
        found.append(more.as_slice())?;
    }
    Ok(found)
}

// The same places, rising.
fn in_order(found: Found) -> Result<Found, AllocError>
    ensures same { IfOk result (IsPermutation found) }
    ensures rising { IfOk result (IsSorted nat_cmp) }
{
    if found.len() < 2 {
        return Ok(found);
    }
    let mut places = found.into_vec()?;
    places.sort_unstable();
    Ok(Few::from_vec(places))
}

// An index, seen as its values with their places, in no order that counts.
#[derive(Drop)]
pub(crate) struct Index {
    map: Map,
}

impl Model for Index {
    ghost use Rattle.std.specs.Prelude.{ℕ, ℤ, List};

    ghost Value = { List (ℤ × List ℕ) };

    ghost use Rattle.store_parts.specs.Places.{entries_of};

    ghost view = { λ index. entries_of index.map };
}

impl Index {
    // An index that is read between two bounds.
    pub(crate) fn ordered(alloc: Global) -> Index
        ensures { IsMapOf [] result }
    {
        Index {
            map: Map::Ordered(BTreeMap::new(alloc)),
        }
    }

    // An index that is read by one value at a time: between other bounds each of its values is looked at.
    pub(crate) fn hashed(alloc: Global) -> Index
        ensures { IsMapOf [] result }
    {
        Index {
            map: Map::Hashed(HashMap::new(alloc)),
        }
    }

    // An index with no values that is read as this one.
    pub(crate) fn empty_like(&self, alloc: Global) -> Index
        ensures { IsMapOf [] result }
    {
        match &self.map {
            Map::Ordered(_) => Index::ordered(alloc),
            Map::Hashed(_) => Index::hashed(alloc),
        }
    }

    // Notes the value of a new last place, if it has one.
    pub(crate) fn add(
        &mut self,
        alloc: Global,
        value: Option<i128>,
        place: u64,
    ) -> Result<(), AllocError>
        ensures ok { (values : List (Option ℤ)) → length values ≡ place → IsMapOf values self.old
            → OnOk result (IsMapOf (values ++ value ∷ []) self.new) }
        ensures err { (values : List (Option ℤ)) → IsMapOf values self.old
            → OnErr result (IsMapOf values self.new) }
    {
        let Some(value) = value else {
            return Ok(());
        };
        self.map.add(alloc, value, place)
    }

    // The places of the values between two bounds, rising.
    pub(crate) fn between(
        &self,
        alloc: Global,
        from: Option<i128>,
        to: Option<i128>,
    ) -> Result<Found, AllocError>
        ensures { IfOk result (λ found.
            (values : List (Option ℤ)) → IsMapOf values self.now
            → found ≡ places_between from to 0 values) }
    {
        let found = self.map.gather(alloc, from, to)?;
        let rising = in_order(found)?;
        Ok(rising)
    }

    // The places of the values in these windows, rising.
    pub(crate) fn within(&self, alloc: Global, windows: &[Window]) -> Result<Found, AllocError>
        requires { AreApart windows.now }
        ensures { IfOk result (λ found.
            (values : List (Option ℤ)) → IsMapOf values self.now
            → found ≡ places_by (lies_in windows.now) 0 values) }
    {
        let found = gather_in(alloc, &self.map, windows)?;
        let rising = in_order(found)?;
        Ok(rising)
    }
}

// An index for the probes of a store with this key and access.
pub(crate) fn index_by(alloc: Global, key: &Option<KeyAtom>, access: &Option<Access>) -> Index
    ensures { IsMapOf [] result }
{
    match (key, access) {
        (_, Some(access)) => if access.range.is_some() {
            Index::ordered(alloc)
        } else {
            Index::hashed(alloc)
        },
        (Some(key), None) => if is_equality(key) {
            Index::hashed(alloc)
        } else {
            Index::ordered(alloc)
        },
        (None, None) => Index::ordered(alloc),
    }
}
