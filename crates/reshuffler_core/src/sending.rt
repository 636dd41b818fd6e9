// What a feeder sends to the joiners.

ghost use Rattle.std.specs.Prelude.{◌≡◌, ◌^◌, ◌<◌, ◌≤◌, ◌++◌, ◌∷◌, [], length, count_by, if◌then◌else◌, OnOk};
ghost use Rattle.migration_plan.specs.Steps.{holds, is_of};
ghost use Rattle.epoch_tags.specs.declared.message.ToJoiner.TheVariants.{Tup, Turn, End};
ghost use Rattle.reshuffler_core.specs.Law.{ask_for, stamped};
ghost use Rattle.reshuffler_core.specs.Standing.{post_to, posts_to_all, posts_of_tuple, posts_of_batch};

use epoch_tags::{Actor, Msg, Post, Sends, ToController, ToJoiner, Tuple};
use grid_map::{Shape, holds_r, holds_s};
use row_cells::Side;
use std::alloc::AllocError;

// The request for a batch, with its numbers of rows.
pub(crate) fn request_for(batch: &[Tuple]) -> ToController
    requires { length batch.now ≤ 4096 }
    ensures { result ≡ ask_for batch.now }
{
    let dr = count_of(Side::R, batch);
    let ds = count_of(Side::S, batch);
    ToController::Ask { dr, ds }
}

// How many rows of a side a batch has.
fn count_of(side: Side, batch: &[Tuple]) -> u32
    requires { length batch.now ≤ 4096 }
    ensures { result ≡ count_by (is_of side) batch.now }
{
    batch.iter().filter(|tuple| is_of(side, tuple)).count() as u32
}

fn is_of(side: Side, tuple: &Tuple) -> bool
    ensures { result ≡ is_of side tuple.now }
{
    match (side, tuple.side) {
        (Side::R, Side::R) => true,
        (Side::S, Side::S) => true,
        (Side::R, Side::S) => false,
        (Side::S, Side::R) => false,
    }
}

pub(crate) fn send_turns(
    sends: &mut Sends,
    k: u32,
    epoch: u32,
    shift: u32,
) -> Result<(), AllocError>
    requires { k ≤ 8 }
    ensures { OnOk result (sends.new ≡ sends.old ++ posts_to_all (2 ^ k) (Turn epoch shift)) }
{
    for id in 0..1u32 << k {
        sends.push(Post {
            to: Actor::Joiner(id),
            msg: Msg::Joiner(ToJoiner::Turn { epoch, shift }),
        })?;
    }
    Ok(())
}

pub(crate) fn send_ends(sends: &mut Sends, k: u32) -> Result<(), AllocError>
    requires { k ≤ 8 }
    ensures { OnOk result (sends.new ≡ sends.old ++ posts_to_all (2 ^ k) End) }
{
    for id in 0..1u32 << k {
        sends.push(Post {
            to: Actor::Joiner(id),
            msg: Msg::Joiner(ToJoiner::End),
        })?;
    }
    Ok(())
}

// Sends each tuple of a batch, stamped with the epoch, to the joiners that hold it.
pub(crate) fn send_batch(
    sends: &mut Sends,
    shape: Shape,
    epoch: u32,
    batch: &[Tuple],
) -> Result<(), AllocError>
    requires grid { shape.k ≤ 8 }
    requires shift { shape.shift ≤ shape.k }
    ensures { OnOk result
        (sends.new ≡ sends.old ++ posts_of_batch shape.k epoch shape.shift batch.now) }
{
    for tuple in batch {
        send_tuple(sends, shape, epoch, tuple)?;
    }
    Ok(())
}

fn send_tuple(sends: &mut Sends, shape: Shape, epoch: u32, tuple: &Tuple) -> Result<(), AllocError>
    requires grid { shape.k ≤ 8 }
    requires shift { shape.shift ≤ shape.k }
    ensures { OnOk result (sends.new
        ≡ sends.old ++ posts_of_tuple shape.k (2 ^ shape.k) epoch shape.shift tuple.now) }
{
    for id in 0..1u32 << shape.k {
        send_if_held(sends, shape, epoch, id, tuple)?;
    }
    Ok(())
}

fn send_if_held(
    sends: &mut Sends,
    shape: Shape,
    epoch: u32,
    id: u32,
    tuple: &Tuple,
) -> Result<(), AllocError>
    requires grid { shape.k ≤ 8 }
    requires shift { shape.shift ≤ shape.k }
    requires id { id < 2 ^ shape.k }
    ensures { OnOk result (sends.new ≡ sends.old
        ++ (if holds shape.k shape.shift id tuple.now
        then post_to (Tup (stamped epoch tuple.now)) id ∷ [] else [])) }
{
    if is_held_by(shape, id, tuple) {
        send_copy(sends, epoch, id, tuple)?;
    }
    Ok(())
}

fn send_copy(sends: &mut Sends, epoch: u32, id: u32, tuple: &Tuple) -> Result<(), AllocError>
    ensures { OnOk result
        (sends.new ≡ sends.old ++ post_to (Tup (stamped epoch tuple.now)) id ∷ []) }
{
    let mut copy = tuple.copy()?;
    copy.stamp = epoch;
    sends.push(Post {
        to: Actor::Joiner(id),
        msg: Msg::Joiner(ToJoiner::Tup(copy)),
    })?;
    Ok(())
}

fn is_held_by(shape: Shape, id: u32, tuple: &Tuple) -> bool
    requires grid { shape.k ≤ 8 }
    requires shift { shape.shift ≤ shape.k }
    requires id { id < 2 ^ shape.k }
    ensures { result ≡ holds shape.k shape.shift id tuple.now }
{
    match tuple.side {
        Side::R => holds_r(shape, id, tuple.ticket),
        Side::S => holds_s(shape, id, tuple.ticket),
    }
}
