// The pairs of a tuple with stored ones: with one, with all, with those at some places.

ghost use Rattle.std.specs.Prelude.{◌≡◌, ◌+◌, ◌<◌, [], ◌∷◌, ◌++◌, length, All, count_by, slice_get, Some, None};
ghost use Rattle.std.specs.Prelude.{IsTrue, OnOk, OnErr};
ghost use Rattle.store_parts.specs.Keyed.{at_places};
ghost use Rattle.store_parts.specs.Matches.{does_match, is_named, matches, other_side, pair_of, AppendsFront, DoMatch, HasWidth};
ghost use Rattle.store_parts.specs.Evaluated.{stands_by};

use crate::counted_looks::Looks;
use crate::counted_steps::Steps;
use crate::probe::Query;
use epoch_tags::{Pair, Pairs, Tuple};
use row_cells::Side;
use std::alloc::AllocError;
use std::sync::ledger::Ledger;
use theta_pred::Theta;

// The pair of two tuples of different sides.
fn pair_of(tuple: &Tuple, other: &Tuple) -> Pair
    ensures { result ≡ pair_of tuple.now other.now }
{
    match tuple.side {
        Side::R => Pair {
            i: tuple.index,
            j: other.index,
        },
        Side::S => Pair {
            i: other.index,
            j: tuple.index,
        },
    }
}

// Whether the predicate is true of two tuples of different sides.
fn does_match(theta: &Theta, tuple: &Tuple, other: &Tuple) -> bool
    requires width { HasWidth theta.now tuple.now.side tuple.now }
    requires other_width { HasWidth theta.now (other_side tuple.now.side) other.now }
    ensures { result ≡ does_match theta.now tuple.now other.now }
{
    match tuple.side {
        Side::R => theta.holds(&tuple.cells, &other.cells),
        Side::S => theta.holds(&other.cells, &tuple.cells),
    }
}

// The same, where it may be sure that it is.
fn is_match(theta: &Theta, tuple: &Tuple, other: &Tuple, sure: bool) -> bool
    requires width { HasWidth theta.now tuple.now.side tuple.now }
    requires other_width { HasWidth theta.now (other_side tuple.now.side) other.now }
    requires sure { IsTrue sure → IsTrue (does_match theta.now tuple.now other.now) }
    ensures { result ≡ does_match theta.now tuple.now other.now }
{
    sure || does_match(theta, tuple, other)
}

// One stored tuple. Where it is sure that the two match, the predicate isn't evaluated.
pub(crate) fn try_one<L: Ledger>(
    query: &Query<'_>,
    other: &Tuple,
    sure: bool,
    found: &mut Pairs,
    steps: &mut Steps<L>,
) -> Result<(), AllocError>
    requires width { HasWidth query.now.theta.now query.now.tuple.now.side query.now.tuple.now }
    requires other_width { HasWidth
        query.now.theta.now (other_side query.now.tuple.now.side) other.now }
    requires sure { IsTrue sure
        → IsTrue (does_match query.now.theta.now query.now.tuple.now other.now) }
    ensures ok { OnOk result (found.new ≡ found.old
        ++ matches query.now.theta.now query.now.tuple.now query.now.which (other.now ∷ [])) }
    ensures err { OnErr result (found.new ≡ found.old) }
    ensures steps { steps.new ≡ steps.old + count_by (is_named query.now.which) (other.now ∷ []) }
{
    if !query.which.names(other) {
        return Ok(());
    }
    steps.tick();
    if is_match(query.theta, query.tuple, other, sure) {
        found.push(pair_of(query.tuple, other))?;
    }
    Ok(())
}

// All tuples of the other side.
pub(crate) fn scan<L: Ledger>(
    query: &Query<'_>,
    others: &[Tuple],
    found: &mut Pairs,
    steps: &mut Steps<L>,
) -> Result<(), AllocError>
    requires width { HasWidth query.now.theta.now query.now.tuple.now.side query.now.tuple.now }
    requires other_widths { All
        (HasWidth query.now.theta.now (other_side query.now.tuple.now.side)) others.now }
    ensures ok { OnOk result (found.new ≡ found.old
        ++ matches query.now.theta.now query.now.tuple.now query.now.which others.now) }
    ensures err { OnErr result (AppendsFront found.old found.new
        (matches query.now.theta.now query.now.tuple.now query.now.which others.now)) }
    ensures steps { OnOk result
        (steps.new ≡ steps.old + count_by (is_named query.now.which) others.now) }
{
    for other in others {
        try_one(query, other, false, found, steps)?;
    }
    Ok(())
}

// The tuple at a place, counted from 0.
pub(crate) fn at(others: &[Tuple], place: u64) -> &Tuple
    requires { place < length others.now }
    ensures { slice_get others.now place ≡ Some result.now }
{
    &others[place as usize]
}

// The stored tuples at these places. Where it is sure that all of them match, the predicate isn't evaluated.
pub(crate) fn try_places<L: Ledger>(
    query: &Query<'_>,
    others: &[Tuple],
    places: &[u64],
    sure: bool,
    found: &mut Pairs,
    steps: &mut Steps<L>,
) -> Result<(), AllocError>
    requires width { HasWidth query.now.theta.now query.now.tuple.now.side query.now.tuple.now }
    requires other_widths { All
        (HasWidth query.now.theta.now (other_side query.now.tuple.now.side)) others.now }
    requires places { All (λ place. place < length others.now) places.now }
    requires sure { IsTrue sure
        → DoMatch query.now.theta.now query.now.tuple.now (at_places others.now places.now) }
    ensures ok { OnOk result (found.new ≡ found.old
        ++ matches query.now.theta.now query.now.tuple.now query.now.which
        (at_places others.now places.now)) }
    ensures err { OnErr result (AppendsFront found.old found.new
        (matches query.now.theta.now query.now.tuple.now query.now.which
        (at_places others.now places.now))) }
    ensures steps { OnOk result (steps.new ≡ steps.old
        + count_by (is_named query.now.which) (at_places others.now places.now)) }
{
    for place in places {
        try_one(query, at(others, *place), sure, found, steps)?;
    }
    Ok(())
}

// All tuples of the other side, where looks are counted.
pub(crate) fn find_each<L: Ledger, M: Ledger>(
    query: &Query<'_>,
    others: &[Tuple],
    found: &mut Pairs,
    steps: &mut Steps<L>,
    looks: &mut Looks<M>,
) -> Result<(), AllocError>
    requires width { HasWidth query.now.theta.now query.now.tuple.now.side query.now.tuple.now }
    requires other_widths { All
        (HasWidth query.now.theta.now (other_side query.now.tuple.now.side)) others.now }
    ensures ok { OnOk result (found.new ≡ found.old
        ++ matches query.now.theta.now query.now.tuple.now query.now.which others.now) }
    ensures err { OnErr result (AppendsFront found.old found.new
        (matches query.now.theta.now query.now.tuple.now query.now.which others.now)) }
    ensures steps { OnOk result
        (steps.new ≡ steps.old + count_by (is_named query.now.which) others.now) }
    ensures looks { OnOk result
        (looks.new ≡ looks.old + count_by (stands_by None None query.now.tuple.now) others.now) }
{
    looks.note_all(others.len() as u64);
    scan(query, others, found, steps)
}
