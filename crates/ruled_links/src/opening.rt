// How an inbox is made.

ghost use Rattle.std.specs.Prelude.{◌≡◌, [], map, IfOk};
ghost use Rattle.ruled_links.specs.Inboxes.{Differ, fresh, opened};

use crate::mailbox::{Inbox, Mouth};
use epoch_tags::Actor;
use row_cells::Items;
use std::alloc::{AllocError, Global};

/// A list of actors.
pub type Actors = Items<Actor>;

/// A list of mouths.
pub type Mouths = Items<Mouth>;

/// Makes an inbox, and a mouth for each sender, in the same order. It takes memory in proportion to the greatest number
/// of a sender.
pub fn inbox(alloc: Global, to: Actor, senders: &Actors) -> Result<(Inbox, Mouths), AllocError>
    requires { Differ senders.now }
    ensures receiver { IfOk result (λ ends. ends.0.to ≡ to) }
    ensures empty { IfOk result (λ ends. ends.0.received ≡ []) }
    ensures senders { IfOk result (λ ends. ends.0.senders ≡ map fresh senders.now) }
    ensures mouths { IfOk result (λ ends. ends.1 ≡ map (opened ends.0.link to) senders.now) }
{
    let mut inbox = Inbox::new(alloc, to)?;
    let mut mouths = Mouths::new(alloc);
    for from in senders.as_slice() {
        mouths.push(inbox.open(*from)?)?;
    }
    Ok((inbox, mouths))
}
