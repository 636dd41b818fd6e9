// The rule of a link's queue, over what the queue holds and what each pass knows, and the steps that keep it.

ghost use Rattle.std.specs.Prelude.{◌≡◌, ◌++◌, ◌∷◌, ◌+◌, ◌≤◌, length, []};
ghost use Rattle.ruled_links.specs.Order.{hand};

use crossbeam_queue::protocol::{Join, Lesson, Outcome, Protocol, Split};
use epoch_tags::Envelope;
use std::collections::LinkedList;

// What a pass may do, and what it knows: what was sent, what was received, and what had been sent at the last look.
// No value of it is made.
pub struct Hand {
    pub puts: bool,
    pub takes: bool,
    pub sent: LinkedList<Envelope>,
    pub received: LinkedList<Envelope>,
    pub known: LinkedList<Envelope>,
}

pub struct Ordered;

// Making the queue, with one pass that puts and takes.
impl Protocol<Envelope, Hand> for Ordered {
    ghost use Rattle.std.specs.Prelude.{true, []};
    ghost use Rattle.ruled_links.specs.Order.{hand, IsInOrder};

    ghost holds = { IsInOrder };

    ghost first = { hand true true [] [] [] };
}

// The sender's pass, cut off the receiver's, which keeps the list of what was sent as known.
pub struct Part;

impl Split<Hand> for Part {
    ghost use Rattle.std.specs.Prelude.{true, false, []};
    ghost use Rattle.ruled_links.specs.Order.{hand};

    ghost left = { λ v. hand false true [] v.received v.sent };

    ghost right = { λ v. hand true false v.sent [] [] };
}

// The sender's pass, joined into the receiver's.
pub struct Meet;

impl Join<Hand> for Meet {
    ghost use Rattle.std.specs.Prelude.{true, false, []};
    ghost use Rattle.ruled_links.specs.Order.{hand};

    ghost both = { λ v w. hand true true w.sent v.received v.known };

    ghost spent = { hand false false [] [] [] };
}

// A push: the message joins what was sent.
pub struct Put;

impl Outcome<Envelope, Hand> for Put {
    ghost then = { λ v x w. w ≡ hand v.puts v.takes (v.sent ++ x ∷ []) v.received v.known };
}

// A pop: a message that is found joins what was received.
pub struct Take;

impl Outcome<Envelope, Hand> for Take {
    ghost then = { λ v x w. w ≡ hand v.puts v.takes v.sent (v.received ++ x ∷ []) v.known };
}

// Where none is found, all that was known has been received.
impl Lesson<Envelope, Hand> for Take {
    ghost fact = { λ v items. length v.known ≤ length v.received + length items };
}

// A look, with both lists in one pass.
pub struct Look;

impl Lesson<Envelope, Hand> for Look {
    ghost fact = { λ v items. v.received ++ items ≡ v.sent };
}
