// An inbox and its mouths.

ghost use Rattle.std.specs.Prelude.{◌≡◌, ◌≢◌, ◌++◌, ◌∷◌, [], true, false, All, IfOk, OnOk, OnErr, IfErr, IfSome, IfNone};
ghost use Rattle.crossbeam_queue.specs.SegTies.{IsSegPassOf};
ghost use Rattle.epoch_tags.specs.declared.actor.Actor.{Actor};
ghost use Rattle.ruled_links.specs.Ends.{AreLeft, IsSameOut};
ghost use Rattle.ruled_links.specs.Delivery.{inbox_hand, has_sender};
ghost use Rattle.ruled_links.specs.Inboxes.{IsMouthOf, IsSameInbox, all_known, fresh, is_sender, lowered, messages_of, opened, told};

use crate::delivery::{Delivered, InboxHand, Looked, Met, Named, Opened, Parted, Sent, Taken};
use crate::parts::{Parts, number};
use crossbeam_queue::{RuledSegQueue, SegPass};
use epoch_tags::{Actor, Envelope};
use std::alloc::{AllocError, Global};
use std::marker::{Brand, Model};
use std::sync::{Arc, Wait};

type Queue = RuledSegQueue<Envelope, InboxHand, Delivered>;

type Pass = SegPass<Envelope, InboxHand>;

// The queue, which an inbox and its mouths own.
pub struct Line {
    queue: Queue,
}

impl Drop for Line {
    fn drop(self) {
        let Self { queue } = self;
        queue.destroy();
    }
}

/// A sender's end of an inbox.
#[derive(Drop)]
pub struct Mouth {
    line: Arc<Line, Global>,
    // Away only within `gather_mouth`.
    pass: Option<Pass>,
    from: Actor,
    to: Actor,
    count: u64,
}

impl Model for Mouth {
    ghost use Rattle.std.specs.Prelude.{◌≡◌, ◌≤◌, ◌^◌, true, false, [], length, MatchOption};
    ghost use Rattle.std.specs.Arc.{arc_value};
    ghost use Rattle.crossbeam_queue.specs.SegTies.{IsSegPassOf};
    ghost use Rattle.ruled_links.specs.Ends.{Sending};
    ghost use Rattle.ruled_links.specs.Delivery.{inbox_hand, number_of, sent_through};

    ghost Value = { Sending };

    ghost view = { λ mouth. record {
      link = (arc_value mouth.line).queue.web;
      from = mouth.from;
      to = mouth.to;
      sent = sent_through mouth.pass (λ pass. pass.me.view.client);
    } };

    ghost invariant = { λ mouth. MatchOption mouth.pass ⊥
        (λ pass. IsSegPassOf (arc_value mouth.line).queue pass
        × (pass.me.view.client
        ≡ inbox_hand true false (number_of mouth.from) pass.me.view.client.sent [] [])
        × (mouth.count ≡ length pass.me.view.client.sent)) × (mouth.count ≤ 2 ^ 62) };
}

/// The receiver's end of all messages to one actor.
#[derive(Drop)]
pub struct Inbox {
    line: Arc<Line, Global>,
    pass: Pass,
    to: Actor,
    parts: Parts,
}

impl Model for Inbox {
    ghost use Rattle.std.specs.Prelude.{◌≡◌, true, false, [], map};
    ghost use Rattle.std.specs.Arc.{arc_value};
    ghost use Rattle.crossbeam_queue.specs.SegTies.{IsSegPassOf};
    ghost use Rattle.ruled_links.specs.Delivery.{inbox_hand};
    ghost use Rattle.ruled_links.specs.Parts.{AreCounted, seen};
    ghost use Rattle.ruled_links.specs.Inboxes.{InboxView};

    ghost Value = { InboxView };

    ghost view = { λ inbox. record {
      link = (arc_value inbox.line).queue.web;
      to = inbox.to;
      received = inbox.pass.me.view.client.received;
      senders = map seen inbox.parts;
    } };

    ghost invariant = { λ inbox. IsSegPassOf (arc_value inbox.line).queue inbox.pass
        × (inbox.pass.me.view.client ≡ inbox_hand false true 0 []
        inbox.pass.me.view.client.received inbox.pass.me.view.client.known)
        × AreCounted inbox.pass.me.view.client inbox.parts };
}

// A pass for a new sender.
fn new_pass<J: Named>(queue: &Queue, pass: &mut Pass, sender: u64) -> Pass
    requires number { J.number ≡ sender }
    requires queue { IsSegPassOf queue.now pass.old }
    requires may { (pass.old.me.view.client.takes ≡ true) × (pass.old.me.view.client.puts ≡ false) }
    requires new { has_sender pass.old.me.view.client.known sender ≡ false }
    ensures queue { IsSegPassOf queue.now pass.new × IsSegPassOf queue.now result }
    ensures receiver { pass.new.me.view.client
        ≡ inbox_hand false true 0 [] pass.old.me.view.client.received
        ((sender, []) ∷ pass.old.me.view.client.known) }
    ensures sender { result.me.view.client ≡ inbox_hand true false sender [] [] [] }
{
    queue.another::<Opened<J>>(pass)
}

impl Inbox {
    // An inbox with no sender yet.
    pub(crate) fn new(alloc: Global, to: Actor) -> Result<Inbox, AllocError>
        ensures { IfOk result (λ inbox.
            (inbox.to ≡ to) × (inbox.received ≡ []) × (inbox.senders ≡ [])) }
    {
        let (queue, pass) = RuledSegQueue::with_rule(alloc)?;
        let Ok(line) = Arc::new(alloc, Line { queue }) else {
            return Err(AllocError);
        };
        Ok(Inbox {
            line,
            pass,
            to,
            parts: Parts::new(alloc),
        })
    }

    // A new sender's mouth, where nothing was received yet.
    pub(crate) fn open(&mut self, from: Actor) -> Result<Mouth, AllocError>
        requires fresh { self.old.received ≡ [] }
        requires new { is_sender from self.old.senders ≡ false }
        ensures inbox { (self.new.link ≡ self.old.link) × (self.new.to ≡ self.old.to)
            × (self.new.received ≡ []) }
        ensures mouth { IfOk result (λ mouth. mouth ≡ opened self.old.link self.old.to from) }
        ensures senders { OnOk result (self.new.senders ≡ self.old.senders ++ fresh from ∷ []) }
    {
        let line = Arc::try_clone(&self.line)?;
        self.parts.push(from)?;
        let pass = new_pass::<Brand>(&self.line.queue, &mut self.pass, number(from));
        Ok(Mouth {
            line,
            pass: Some(pass),
            from,
            to: self.to,
            count: 0,
        })
    }

    /// Makes one pop. `None` says that this pop found the queue empty; another thread may be about to put. The time it
    /// takes doesn't grow with the senders. It takes no memory.
    pub fn take<R: Wait>(&mut self, rt: &R) -> Option<Envelope>
        ensures some { IfSome result (λ m. self.new.received ≡ self.old.received ++ m ∷ []) }
        ensures own { IfSome result (λ m.
            messages_of m.from self.new.received ≡ messages_of m.from self.old.received ++ m ∷ []) }
        ensures others { IfSome result (λ m. (from : Actor) → from ≢ m.from
            → messages_of from self.new.received ≡ messages_of from self.old.received) }
        ensures sender { IfSome result (λ m. is_sender m.from self.old.senders ≡ true) }
        ensures known { IfSome result (λ m. self.new.senders ≡ lowered m.from self.old.senders) }
        ensures none { IfNone result (all_known self.old.senders ≡ 0) }
        ensures same { IfNone result (self.new ≡ self.old) }
        ensures inbox { IsSameInbox self.old self.new }
    {
        match self.line.queue.pop_as::<Taken, R>(rt, &mut self.pass) {
            Some(m) => {
                self.parts.note(number(m.from));
                Some(m)
            }
            None => None,
        }
    }

    /// The sum over the senders of the messages that the last `gather_mouth` of that sender found left and that weren't
    /// taken since; 0 before the first. It takes no memory.
    pub fn known(&self) -> u64
        ensures { result ≡ all_known self.now.senders }
    {
        self.parts.known()
    }
}

impl Mouth {
    /// Who sends through it. It takes no memory.
    pub fn sender(&self) -> Actor
        ensures { result ≡ self.now.from }
    {
        self.from
    }

    /// Whose inbox it leads to. It takes no memory.
    pub fn receiver(&self) -> Actor
        ensures { result ≡ self.now.to }
    {
        self.to
    }

    /// Sends a message. `Err` hands it back, and means want of memory; or that the mouth has had 2^62 messages.
    pub fn put<R: Wait>(&mut self, rt: &R, m: Envelope) -> Result<(), Envelope>
        requires { m.from ≡ self.old.from }
        ensures ok { OnOk result (self.new.sent ≡ self.old.sent ++ m ∷ []) }
        ensures err { OnErr result (self.new ≡ self.old) }
        ensures back { IfErr result (λ message. message ≡ m) }
        ensures mouth { IsSameOut self.old self.new }
    {
        if self.count >= 1 << 62 {
            return Err(m);
        }
        let Some(pass) = &mut self.pass else {
            unreachable!();
        };
        match self.line.queue.push_as::<Sent, R>(rt, pass, m) {
            Ok(()) => {
                self.count += 1;
                Ok(())
            }
            Err(m) => Err(m),
        }
    }
}

// The one pass that both have for a while, its look, and the parting.
fn look_together<R: Wait>(mouth: &mut Mouth, inbox: &mut Inbox, rt: &R) -> u64
    requires { IsMouthOf mouth.old inbox.old }
    ensures left { AreLeft mouth.old.sent (messages_of mouth.old.from inbox.old.received) result }
    ensures known { inbox.new
        ≡ record inbox.old { senders = told mouth.old.from result inbox.old.senders } }
    ensures sender { is_sender mouth.old.from inbox.old.senders ≡ true }
    ensures same { mouth.new ≡ mouth.old }
    ensures inbox { IsSameInbox inbox.old inbox.new }
{
    let Some(sender) = mouth.pass.take() else {
        unreachable!();
    };
    let queue = &inbox.line.queue;
    queue.absorb::<Met>(&mut inbox.pass, sender);
    let _ = queue.len_as::<Looked, R>(rt, &mut inbox.pass);
    mouth.pass = Some(queue.another::<Parted>(&mut inbox.pass));
    let from = number(mouth.from);
    let left = mouth.count - inbox.parts.taken_of(from);
    inbox.parts.tell(from, left);
    left
}

/// Holds an inbox and one of its mouths together, and answers how many messages of that mouth are left. It takes no
/// memory.
pub fn gather_mouth<R: Wait>(mouth: &mut Mouth, inbox: &mut Inbox, rt: &R) -> u64
    requires { IsMouthOf mouth.old inbox.old }
    ensures left { AreLeft mouth.old.sent (messages_of mouth.old.from inbox.old.received) result }
    ensures known { inbox.new
        ≡ record inbox.old { senders = told mouth.old.from result inbox.old.senders } }
    ensures sender { is_sender mouth.old.from inbox.old.senders ≡ true }
    ensures same { mouth.new ≡ mouth.old }
    ensures inbox { IsSameInbox inbox.old inbox.new }
{
    look_together(mouth, inbox, rt)
}
