// The pairs of a tuple with the stored ones with which the key atom is true.

ghost use Rattle.std.specs.Prelude.{◌≡◌, ◌+◌, ◌<◌, ◌++◌, length, All, count_by, filter, Some, IfOk, OnOk, OnErr};
ghost use Rattle.store_parts.specs.Keyed.{at_places, is_key_true, values_at};
ghost use Rattle.store_parts.specs.Matches.{is_named, matches, other_side, AppendsFront, HasWidth};
ghost use Rattle.store_parts.specs.Evaluated.{evaluated};
ghost use Rattle.store_parts.specs.Places.{IsMapOf};
ghost use Rattle.theta_pred.specs.Keys.{atom_of, key_of};

use crate::band::{greatest, is_true_of, least, value_of};
use crate::counted_looks::Looks;
use crate::counted_steps::Steps;
use crate::half::Half;
use crate::places::Found;
use crate::probe::Query;
use crate::probe::found_pairs::{try_one, try_places};
use epoch_tags::{Pairs, Tuple};
use row_cells::{Few, Side};
use std::alloc::{AllocError, Global};
use std::sync::ledger::Ledger;
use theta_pred::KeyAtom;

// The places, rising, of the stored tuples with which the key atom is true.
fn candidates(
    alloc: Global,
    tuple: &Tuple,
    others: &Half,
    key: &KeyAtom,
) -> Result<Found, AllocError>
    requires { IsMapOf
        (values_at key.now (other_side tuple.now.side) others.now.tuples) others.now.index }
    ensures keyed { IfOk result (λ places. at_places others.now.tuples places
        ≡ filter (is_key_true key.now tuple.now) others.now.tuples) }
    ensures below { IfOk result (λ places.
        All (λ place. place < length others.now.tuples) places) }
{
    let Some(value) = value_of(key, tuple.side, tuple) else {
        return Ok(Few::new(alloc));
    };
    others.index.between(
        alloc,
        least(key, tuple.side, value),
        greatest(key, tuple.side, value),
    )
}

// The stored tuples at these places, with which the key atom is true.
fn try_keyed<L: Ledger>(
    query: &Query<'_>,
    others: &[Tuple],
    places: &[u64],
    key: &KeyAtom,
    found: &mut Pairs,
    steps: &mut Steps<L>,
) -> Result<(), AllocError>
    requires width { HasWidth query.now.theta.now query.now.tuple.now.side query.now.tuple.now }
    requires other_widths { All
        (HasWidth query.now.theta.now (other_side query.now.tuple.now.side)) others.now }
    requires own { key_of query.now.theta.now.formula ≡ Some (atom_of key.now) }
    requires keyed { at_places others.now places.now
        ≡ filter (is_key_true key.now query.now.tuple.now) others.now }
    requires below { All (λ place. place < length others.now) places.now }
    ensures ok { OnOk result (found.new ≡ found.old
        ++ matches query.now.theta.now query.now.tuple.now query.now.which others.now) }
    ensures err { OnErr result (AppendsFront found.old found.new
        (matches query.now.theta.now query.now.tuple.now query.now.which others.now)) }
    ensures steps { OnOk result (steps.new ≡ steps.old
        + evaluated (Some key.now) query.now.tuple.now query.now.which others.now) }
{
    query.theta.key_law();
    try_places(query, others, places, false, found, steps)
}

// The tuples of the other side with which the key atom is true.
pub(crate) fn seek<L: Ledger>(
    alloc: Global,
    query: &Query<'_>,
    others: &Half,
    key: &KeyAtom,
    found: &mut Pairs,
    steps: &mut Steps<L>,
) -> Result<(), AllocError>
    requires width { HasWidth query.now.theta.now query.now.tuple.now.side query.now.tuple.now }
    requires other_widths { All
        (HasWidth query.now.theta.now (other_side query.now.tuple.now.side)) others.now.tuples }
    requires own { key_of query.now.theta.now.formula ≡ Some (atom_of key.now) }
    requires index { IsMapOf
        (values_at key.now (other_side query.now.tuple.now.side) others.now.tuples)
        others.now.index }
    ensures ok { OnOk result (found.new ≡ found.old
        ++ matches query.now.theta.now query.now.tuple.now query.now.which others.now.tuples) }
    ensures err { OnErr result (AppendsFront found.old found.new
        (matches query.now.theta.now query.now.tuple.now query.now.which others.now.tuples)) }
    ensures steps { OnOk result (steps.new ≡ steps.old
        + evaluated (Some key.now) query.now.tuple.now query.now.which others.now.tuples) }
{
    let places = candidates(alloc, query.tuple, others, key)?;
    try_keyed(
        query,
        others.tuples.as_slice(),
        places.as_slice(),
        key,
        found,
        steps,
    )
}

// The same, where looks are counted.
pub(crate) fn find_keyed<L: Ledger, M: Ledger>(
    alloc: Global,
    query: &Query<'_>,
    others: &Half,
    key: &KeyAtom,
    found: &mut Pairs,
    steps: &mut Steps<L>,
    looks: &mut Looks<M>,
) -> Result<(), AllocError>
    requires width { HasWidth query.now.theta.now query.now.tuple.now.side query.now.tuple.now }
    requires other_widths { All
        (HasWidth query.now.theta.now (other_side query.now.tuple.now.side)) others.now.tuples }
    requires own { key_of query.now.theta.now.formula ≡ Some (atom_of key.now) }
    requires index { IsMapOf
        (values_at key.now (other_side query.now.tuple.now.side) others.now.tuples)
        others.now.index }
    ensures ok { OnOk result (found.new ≡ found.old
        ++ matches query.now.theta.now query.now.tuple.now query.now.which others.now.tuples) }
    ensures err { OnErr result (AppendsFront found.old found.new
        (matches query.now.theta.now query.now.tuple.now query.now.which others.now.tuples)) }
    ensures steps { OnOk result (steps.new ≡ steps.old
        + evaluated (Some key.now) query.now.tuple.now query.now.which others.now.tuples) }
    ensures looks { OnOk result (looks.new ≡ looks.old
        + count_by (is_key_true key.now query.now.tuple.now) others.now.tuples) }
{
    let places = candidates(alloc, query.tuple, others, key)?;
    looks.note(places.as_slice());
    try_keyed(
        query,
        others.tuples.as_slice(),
        places.as_slice(),
        key,
        found,
        steps,
    )
}

// Whether the key atom is true of a tuple that probes and a stored one.
fn is_key_true(key: &KeyAtom, tuple: &Tuple, other: &Tuple) -> bool
    ensures { result ≡ is_key_true key.now tuple.now other.now }
{
    match tuple.side {
        Side::R => is_true_of(key, &tuple.cells, &other.cells),
        Side::S => is_true_of(key, &other.cells, &tuple.cells),
    }
}

// Those of the stored tuples with which the key atom is true, where each is looked at.
fn sift_each<L: Ledger>(
    query: &Query<'_>,
    others: &[Tuple],
    key: &KeyAtom,
    found: &mut Pairs,
    steps: &mut Steps<L>,
) -> Result<(), AllocError>
    requires width { HasWidth query.now.theta.now query.now.tuple.now.side query.now.tuple.now }
    requires other_widths { All
        (HasWidth query.now.theta.now (other_side query.now.tuple.now.side)) others.now }
    ensures ok { let keyed = filter (is_key_true key.now query.now.tuple.now) others.now in
        OnOk result (found.new ≡ found.old
        ++ matches query.now.theta.now query.now.tuple.now query.now.which keyed) }
    ensures err { let keyed = filter (is_key_true key.now query.now.tuple.now) others.now in
        OnErr result (AppendsFront found.old found.new
        (matches query.now.theta.now query.now.tuple.now query.now.which keyed)) }
    ensures steps { let keyed = filter (is_key_true key.now query.now.tuple.now) others.now in
        OnOk result (steps.new ≡ steps.old + count_by (is_named query.now.which) keyed) }
{
    for other in others {
        if is_key_true(key, query.tuple, other) {
            try_one(query, other, false, found, steps)?;
        }
    }
    Ok(())
}

// The tuples of the other side with which the key atom is true, without an index of its values.
pub(crate) fn sift<L: Ledger>(
    query: &Query<'_>,
    others: &[Tuple],
    key: &KeyAtom,
    found: &mut Pairs,
    steps: &mut Steps<L>,
) -> Result<(), AllocError>
    requires width { HasWidth query.now.theta.now query.now.tuple.now.side query.now.tuple.now }
    requires other_widths { All
        (HasWidth query.now.theta.now (other_side query.now.tuple.now.side)) others.now }
    requires own { key_of query.now.theta.now.formula ≡ Some (atom_of key.now) }
    ensures ok { OnOk result (found.new ≡ found.old
        ++ matches query.now.theta.now query.now.tuple.now query.now.which others.now) }
    ensures err { OnErr result (AppendsFront found.old found.new
        (matches query.now.theta.now query.now.tuple.now query.now.which others.now)) }
    ensures steps { OnOk result (steps.new ≡ steps.old
        + evaluated (Some key.now) query.now.tuple.now query.now.which others.now) }
{
    query.theta.key_law();
    sift_each(query, others, key, found, steps)
}
