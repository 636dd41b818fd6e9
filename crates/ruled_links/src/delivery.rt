// The rule of an inbox's queue, over what the queue holds and what each pass knows, and the steps that keep it.

ghost use Rattle.std.specs.Prelude.{◌≡◌, ℕ, ◌++◌, ◌∷◌, ◌+◌, ◌≤◌, ◌^◌, length, true, []};
ghost use Rattle.ruled_links.specs.Delivery.{inbox_hand, of_sender, number_of, known_of, has_sender};

use crossbeam_queue::protocol::{Join, Lesson, Outcome, Protocol, Split};
use epoch_tags::Envelope;
use std::collections::LinkedList;
use std::marker::{Brand, PhantomData};

// What a pass may do, and what it knows: a sender's number and what that one sent; what was received, and of each
// sender what it had sent at the last look. No value of it is made.
pub struct InboxHand {
    pub puts: bool,
    pub takes: bool,
    pub sender: u64,
    pub sent: LinkedList<Envelope>,
    pub received: LinkedList<Envelope>,
    pub known: LinkedList<(u64, LinkedList<Envelope>)>,
}

pub struct Delivered;

// Making the queue, with one pass that takes.
impl Protocol<Envelope, InboxHand> for Delivered {
    ghost use Rattle.std.specs.Prelude.{true, false, []};
    ghost use Rattle.ruled_links.specs.Delivery.{inbox_hand, IsDelivered};

    ghost holds = { IsDelivered };

    ghost first = { inbox_hand false true 0 [] [] [] };
}

// Which sender it is. Each call picks it.
pub trait Named {
    ghost number: { ℕ };
}

impl Named for Brand {
    ghost number = { 0 };
}

// A new sender's pass.
pub struct Opened<J> {
    of: PhantomData<J>,
}

impl<J: Named> Split<InboxHand> for Opened<J> {
    ghost use Rattle.std.specs.Prelude.{true, false, [], ◌∷◌};
    ghost use Rattle.ruled_links.specs.Delivery.{inbox_hand};

    ghost left = { λ v. inbox_hand false true 0 [] v.received ((J.number, []) ∷ v.known) };

    ghost right = { λ v. inbox_hand true false J.number [] [] [] };
}

// A sender's pass, cut off the receiver's, which keeps the list of what was sent as known.
pub struct Parted;

impl Split<InboxHand> for Parted {
    ghost use Rattle.std.specs.Prelude.{true, false, [], ◌∷◌};
    ghost use Rattle.ruled_links.specs.Delivery.{inbox_hand};

    ghost left = { λ v. inbox_hand false true 0 [] v.received ((v.sender, v.sent) ∷ v.known) };

    ghost right = { λ v. inbox_hand true false v.sender v.sent [] [] };
}

// A sender's pass, joined into the receiver's.
pub struct Met;

impl Join<InboxHand> for Met {
    ghost use Rattle.std.specs.Prelude.{true, false, []};
    ghost use Rattle.ruled_links.specs.Delivery.{inbox_hand};

    ghost both = { λ v w. inbox_hand true true w.sender w.sent v.received v.known };

    ghost spent = { inbox_hand false false 0 [] [] [] };
}

// A push: the message joins what its sender sent.
pub struct Sent;

impl Outcome<Envelope, InboxHand> for Sent {
    ghost then = { λ v x w.
        w ≡ inbox_hand v.puts v.takes v.sender (v.sent ++ x ∷ []) v.received v.known };
}

// A pop: a message that is found joins what was received, and is of one of the senders.
pub struct Taken;

impl Outcome<Envelope, InboxHand> for Taken {
    ghost then = { λ v x w.
        (w ≡ inbox_hand v.puts v.takes v.sender v.sent (v.received ++ x ∷ []) v.known)
        × (has_sender v.known (number_of x.from) ≡ true)
        × (length (of_sender (number_of x.from) (v.received ++ x ∷ [])) ≤ 2 ^ 62) };
}

// Where none is found, all that was known of each sender has been received.
impl Lesson<Envelope, InboxHand> for Taken {
    ghost fact = { λ v items. (n : ℕ)
        → length (known_of v.known n) ≤ length (of_sender n v.received) + length (of_sender n items) };
}

// A look, with a sender's list and the receiver's in one pass.
pub struct Looked;

impl Lesson<Envelope, InboxHand> for Looked {
    ghost fact = { λ v items. (v.sent ≡ of_sender v.sender v.received ++ of_sender v.sender items)
        × (has_sender v.known v.sender ≡ true) × ((n : ℕ)
        → length (known_of v.known n) ≤ length (of_sender n v.received) + length (of_sender n items)) };
}
