// The tuples of one epoch: a store, seen as one list with its key and access.

ghost use Rattle.std.specs.Prelude.{◌≡◌, ◌<◌, ◌≤◌, ◌^◌, ◌++◌, ◌∷◌, [], filter, map, count_by, IfOk, OnOk};
ghost use Rattle.migration_plan.specs.Steps.{is_of};
ghost use Rattle.store_parts.specs.Stored.{AreSided};
ghost use Rattle.joiner_law.specs.History.{probed};
ghost use Rattle.joiner_law.specs.Posting.{moved_post};
ghost use Rattle.joiner_core.specs.State.{does_hold, named_by};
ghost use Rattle.joiner_core.specs.State.{stocked_of, with_placed, kept_stock, IsKeyOf};
ghost use Rattle.joiner_core.specs.State.{IsRow, IsStock};

use epoch_tags::{Actor, Msg, Pairs, Post, Sends, ToJoiner, Tuple};
use grid_map::Shape;
use row_cells::Side;
use std::alloc::AllocError;
use store_parts::{Store, Which};
use theta_pred::Theta;

// Each tuple of a store stands in the list of its side.
fn are_sided(store: &Store)
    ensures { AreSided store.now.r store.now.s }
{
    let _ = store.side(Side::R);
    let _ = store.side(Side::S);
}

pub(crate) fn add(store: &mut Store, theta: &Theta, tuple: Tuple) -> Result<(), AllocError>
    requires row { IsRow theta.now tuple }
    requires key { IsKeyOf theta.now store.old.key }
    ensures { OnOk result (stocked_of store.new ≡ with_placed tuple (stocked_of store.old)) }
{
    are_sided(store);
    store.fits_key(theta, &tuple);
    store.add(tuple)?;
    Ok(())
}

pub(crate) fn count(store: &Store, side: Side) -> u64
    ensures { result ≡ count_by (is_of side) (stocked_of store.now).tuples }
{
    are_sided(store);
    store.side(side).len()
}

pub(crate) fn probe(
    store: &Store,
    tuple: &Tuple,
    theta: &Theta,
    which: Which,
    found: &mut Pairs,
) -> Result<(), AllocError>
    requires row { IsRow theta.now tuple.now }
    requires stock { IsStock theta.now (stocked_of store.now) }
    ensures { OnOk result
        (found.new ≡ found.old
        ++ probed (does_hold theta.now) (named_by which) tuple.now
        (stocked_of store.now).tuples) }
{
    are_sided(store);
    store.find_uncounted(tuple, theta, which, found)?;
    Ok(())
}

pub(crate) fn kept_copy(store: &Store, k: u32, shift: u32, id: u32) -> Result<Store, AllocError>
    requires grid { k ≤ 8 }
    requires within { shift ≤ k }
    requires id { id < 2 ^ k }
    ensures { IfOk result (λ kept. stocked_of kept ≡ kept_stock k shift id (stocked_of store.now)) }
{
    store.kept_copy(Shape { k, shift }, id)
}

// Sends a copy of a tuple to a joiner.
pub(crate) fn move_to(
    to: u32,
    epoch: u32,
    tuple: &Tuple,
    sends: &mut Sends,
) -> Result<(), AllocError>
    ensures { OnOk result (sends.new ≡ sends.old ++ moved_post to epoch tuple.now ∷ []) }
{
    let tuple = tuple.copy()?;
    sends.push(Post {
        to: Actor::Joiner(to),
        msg: Msg::Joiner(ToJoiner::Moved { epoch, tuple }),
    })?;
    Ok(())
}

// Sends a copy of each tuple to a joiner.
fn send_all(tuples: &[Tuple], to: u32, epoch: u32, sends: &mut Sends) -> Result<(), AllocError>
    ensures { OnOk result (sends.new ≡ sends.old ++ map (moved_post to epoch) tuples.now) }
{
    for tuple in tuples {
        move_to(to, epoch, tuple, sends)?;
    }
    Ok(())
}

// Sends a copy of each tuple of a side to a joiner, in stored order.
pub(crate) fn send_side(
    store: &Store,
    side: Side,
    to: u32,
    epoch: u32,
    sends: &mut Sends,
) -> Result<(), AllocError>
    ensures { OnOk result
        (sends.new ≡ sends.old
        ++ map (moved_post to epoch) (filter (is_of side) (stocked_of store.now).tuples)) }
{
    are_sided(store);
    send_all(store.side(side).as_slice(), to, epoch, sends)?;
    Ok(())
}
