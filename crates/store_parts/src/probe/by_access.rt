// The pairs of a tuple with the stored ones that agree with it in all of an access.

ghost use Rattle.std.specs.Prelude.{◌≡◌, ◌+◌, ◌<◌, ◌++◌, length, All, count_by, filter, Some, IfOk, OnOk, OnErr};
ghost use Rattle.store_parts.specs.Accessed.{is_admitted};
ghost use Rattle.store_parts.specs.Indexed.{numbers_at};
ghost use Rattle.store_parts.specs.Keyed.{at_places};
ghost use Rattle.store_parts.specs.Matches.{matches, other_side, AppendsFront, HasWidth};
ghost use Rattle.store_parts.specs.Evaluated.{admitted, does_stand};
ghost use Rattle.store_parts.specs.Places.{IsMapOf};
ghost use Rattle.theta_pred.specs.Accesses.{access_of, terms_of};

use crate::counted_looks::Looks;
use crate::counted_steps::Steps;
use crate::half::Half;
use crate::numbers::{is_admitted, is_exact};
use crate::places::Found;
use crate::probe::Query;
use crate::probe::found_pairs::{at, try_places};
use crate::stands::asked;
use epoch_tags::{Pairs, Tuple};
use row_cells::Few;
use std::alloc::{AllocError, Global};
use std::sync::ledger::Ledger;
use theta_pred::Access;

// Of these places those of the stored tuples that agree with the tuple.
fn places_of_admitted(
    alloc: Global,
    tuple: &Tuple,
    others: &[Tuple],
    access: &Access,
    places: &[u64],
) -> Result<Found, AllocError>
    requires { All (λ place. place < length others.now) places.now }
    ensures same { IfOk result (λ kept. at_places others.now kept
        ≡ filter (is_admitted access.now tuple.now) (at_places others.now places.now)) }
    ensures below { IfOk result (λ kept. All (λ place. place < length others.now) kept) }
{
    let mut kept = Few::new(alloc);
    for place in places {
        if is_admitted(access, tuple, at(others, *place)) {
            kept.push(*place)?;
        }
    }
    Ok(kept)
}

// The same of all that stand where the tuple asks. They aren't compared where their number says that they agree.
fn kept_places(
    alloc: Global,
    tuple: &Tuple,
    others: &[Tuple],
    access: &Access,
    places: Found,
) -> Result<Found, AllocError>
    requires below { All (λ place. place < length others.now) places }
    requires stands { at_places others.now places
        ≡ filter (does_stand access.now tuple.now) others.now }
    ensures same { IfOk result (λ kept. at_places others.now kept
        ≡ filter (is_admitted access.now tuple.now) others.now) }
    ensures below { IfOk result (λ kept. All (λ place. place < length others.now) kept) }
{
    if is_exact(access) {
        return Ok(places);
    }
    let kept = places_of_admitted(alloc, tuple, others, access, places.as_slice());
    drop(places);
    kept
}

// The places, rising, of the stored tuples that stand where the tuple asks.
fn places_asked(
    alloc: Global,
    tuple: &Tuple,
    others: &Half,
    access: &Access,
) -> Result<Found, AllocError>
    requires { IsMapOf
        (numbers_at access.now (other_side tuple.now.side) others.now.tuples) others.now.index }
    ensures stands { IfOk result (λ places. at_places others.now.tuples places
        ≡ filter (does_stand access.now tuple.now) others.now.tuples) }
    ensures below { IfOk result (λ places.
        All (λ place. place < length others.now.tuples) places) }
{
    let windows = asked(alloc, access, tuple)?;
    others.index.within(alloc, windows.as_slice())
}

// The tuples of the other side that agree with the tuple. Where that is all that the predicate says, it isn't
// evaluated.
pub(crate) fn seek_by<L: Ledger, M: Ledger>(
    alloc: Global,
    query: &Query<'_>,
    others: &Half,
    access: &Access,
    found: &mut Pairs,
    steps: &mut Steps<L>,
    looks: &mut Looks<M>,
) -> Result<(), AllocError>
    requires width { HasWidth query.now.theta.now query.now.tuple.now.side query.now.tuple.now }
    requires other_widths { All
        (HasWidth query.now.theta.now (other_side query.now.tuple.now.side)) others.now.tuples }
    requires own { access_of query.now.theta.now.formula ≡ Some (terms_of access.now) }
    requires index { IsMapOf
        (numbers_at access.now (other_side query.now.tuple.now.side) others.now.tuples)
        others.now.index }
    ensures ok { OnOk result (found.new ≡ found.old
        ++ matches query.now.theta.now query.now.tuple.now query.now.which others.now.tuples) }
    ensures err { OnErr result (AppendsFront found.old found.new
        (matches query.now.theta.now query.now.tuple.now query.now.which others.now.tuples)) }
    ensures steps { OnOk result (steps.new ≡ steps.old
        + admitted access.now query.now.tuple.now query.now.which others.now.tuples) }
    ensures looks { OnOk result (looks.new ≡ looks.old
        + count_by (does_stand access.now query.now.tuple.now) others.now.tuples) }
{
    query.theta.access_law();
    query.theta.suffice_law();
    let sure = query.theta.agreements_suffice();
    let tuples = others.tuples.as_slice();
    let places = places_asked(alloc, query.tuple, others, access)?;
    looks.note(places.as_slice());
    let kept = kept_places(alloc, query.tuple, tuples, access, places)?;
    try_places(query, tuples, kept.as_slice(), sure, found, steps)
}
