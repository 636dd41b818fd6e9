// What a machine sends goes into its seat's mouths.

ghost use Rattle.std.specs.Prelude.{◌≡◌, ◌++◌, ◌∷◌, ◌==◌, [], ℕ, ◌<◌, None, IsSome, map, slice_index_or, OnOk, if◌then◌else◌};
ghost use Rattle.epoch_tags.specs.declared.actor.Actor.{Actor as Actor'};
ghost use Rattle.actor_core.specs.Lists.{posted_to};
ghost use Rattle.join_runtime.specs.Serving.{HasMouth, HaveMouths};
ghost use Rattle.join_runtime.specs.Views.{address_of, sent_by, sent_at, sent_through};

use actor_core::Cast;
use epoch_tags::{Envelope, Msg, Post, Sends};
use ruled_links::Mouth;
use std::alloc::AllocError;
use std::sync::Wait;

// Sends a message through the mouth that is there.
fn put_into<R: Wait>(rt: &R, slot: &mut Option<Mouth>, msg: Msg) -> Result<(), AllocError>
    requires { IsSome slot.old }
    ensures same { address_of slot.new ≡ address_of slot.old }
    ensures sent { OnOk result (sent_by slot.new ≡ sent_by slot.old ++ msg ∷ []) }
{
    let Some(mouth) = slot else {
        unreachable!();
    };
    let from = mouth.sender();
    match mouth.put(rt, Envelope { from, msg }) {
        Ok(()) => Ok(()),
        Err(_) => Err(AllocError),
    }
}

// Sends a message to the actor of this number.
fn put_at<R: Wait>(
    rt: &R,
    mouths: &mut Vec<Option<Mouth>>,
    place: usize,
    msg: Msg,
) -> Result<(), AllocError>
    requires { IsSome (slice_index_or mouths.old.items place None) }
    ensures same { map address_of mouths.new.items ≡ map address_of mouths.old.items }
    ensures sent { OnOk result ((n : ℕ) → sent_at mouths.new.items n
        ≡ (if place == n then sent_at mouths.old.items n ++ msg ∷ []
        else sent_at mouths.old.items n)) }
{
    put_into(rt, &mut mouths[place], msg)
}

fn put_post<R: Wait>(
    rt: &R,
    mouths: &mut Vec<Option<Mouth>>,
    cast: Cast,
    post: Post,
) -> Result<(), AllocError>
    requires { HasMouth cast mouths.old.items post.to }
    ensures same { map address_of mouths.new.items ≡ map address_of mouths.old.items }
    ensures sent { OnOk result ((a : Actor') → sent_through cast mouths.new.items a
        ≡ sent_through cast mouths.old.items a ++ posted_to a (post ∷ [])) }
{
    let Post { to, msg } = post;
    match cast.number(to) {
        Some(place) => put_at(rt, mouths, place, msg),
        None => unreachable!(),
    }
}

// Sends all posts, in order. There is a mouth for each.
pub(crate) fn put_all<R: Wait>(
    rt: &R,
    mouths: &mut Vec<Option<Mouth>>,
    cast: Cast,
    sends: Sends,
) -> Result<(), AllocError>
    requires { HaveMouths cast mouths.old.items sends }
    ensures same { map address_of mouths.new.items ≡ map address_of mouths.old.items }
    ensures sent { OnOk result ((a : Actor') → sent_through cast mouths.new.items a
        ≡ sent_through cast mouths.old.items a ++ posted_to a sends) }
{
    for post in sends.into_vec() {
        put_post(rt, mouths, cast, post)?;
    }
    Ok(())
}
