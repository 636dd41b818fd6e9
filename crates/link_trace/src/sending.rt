// Messages on their way, by the names of actors.

ghost use Rattle.std.specs.Prelude.{◌≡◌, Some, OnOk};
ghost use Rattle.actor_core.specs.Elements.{IsAllAt};
ghost use Rattle.actor_core.specs.Numbers.{count_of, number as number'};
ghost use Rattle.link_trace.specs.Worlds.{waiting_of, cores_of, with_post, with_posts, HasNumber, IsSquare};

use crate::places::{Place, put};
use actor_core::Cast;
use epoch_tags::{Actor, Post, Sends};
use std::alloc::AllocError;

// The number of an actor that has one.
fn number_of(cast: Cast, actor: Actor) -> usize
    requires { HasNumber cast actor }
    ensures { number' cast actor ≡ Some result }
{
    match cast.number(actor) {
        Some(n) => n,
        None => unreachable!(),
    }
}

// Puts a post on its link.
fn send(places: &mut Vec<Place>, cast: Cast, from: Actor, post: Post) -> Result<(), AllocError>
    requires square { IsSquare (count_of cast) (waiting_of places.old.items) }
    requires sender { HasNumber cast from }
    requires receiver { HasNumber cast post.to }
    ensures cores { cores_of places.new.items ≡ cores_of places.old.items }
    ensures waiting { OnOk result (waiting_of places.new.items
        ≡ with_post cast from post (waiting_of places.old.items)) }
{
    let Post { to, msg } = post;
    let sender = number_of(cast, from);
    let receiver = number_of(cast, to);
    put(places, receiver, sender, msg)
}

// Puts all posts of an actor on their links, in order.
pub(crate) fn send_all(
    places: &mut Vec<Place>,
    cast: Cast,
    from: Actor,
    sends: Sends,
) -> Result<(), AllocError>
    requires square { IsSquare (count_of cast) (waiting_of places.old.items) }
    requires sender { HasNumber cast from }
    requires receivers { IsAllAt (λ post. HasNumber cast post.to) sends }
    ensures cores { cores_of places.new.items ≡ cores_of places.old.items }
    ensures waiting { OnOk result (waiting_of places.new.items
        ≡ with_posts cast from sends (waiting_of places.old.items)) }
{
    for post in sends.into_vec() {
        send(places, cast, from, post)?;
    }
    Ok(())
}
