// The two ends of a link.

ghost use Rattle.std.specs.Prelude.{◌≡◌, ◌++◌, ◌∷◌, ◌-◌, [], IfOk, IfSome, IfNone, OnOk, IfErr, OnErr};
ghost use Rattle.ruled_links.specs.Ends.{AreEnds, AreLeft, IsSameIn, IsSameOut};

use crate::rule::{Hand, Look, Meet, Ordered, Part, Put, Take};
use crossbeam_queue::{RuledSegQueue, SegPass};
use epoch_tags::{Actor, Envelope};
use std::alloc::{AllocError, Global};
use std::marker::Model;
use std::sync::{Arc, Wait};

// The queue, which both ends own.
pub struct Shared {
    queue: RuledSegQueue<Envelope, Hand, Ordered>,
}

impl Drop for Shared {
    fn drop(self) {
        let Self { queue } = self;
        queue.destroy();
    }
}

type Pass = SegPass<Envelope, Hand>;

/// The sender's end of a link.
#[derive(Drop)]
pub struct Out {
    shared: Arc<Shared, Global>,
    // Away only within `gather`.
    pass: Option<Pass>,
    from: Actor,
    to: Actor,
}

impl Model for Out {
    ghost use Rattle.std.specs.Arc.{arc_value};
    ghost use Rattle.std.specs.Prelude.{◌≡◌, true, false, [], MatchOption};
    ghost use Rattle.crossbeam_queue.specs.SegTies.{IsSegPassOf};
    ghost use Rattle.ruled_links.specs.Order.{hand, sent_by};
    ghost use Rattle.ruled_links.specs.Ends.{Sending};

    ghost Value = { Sending };

    ghost view = { λ out. record {
      link = (arc_value out.shared).queue.web;
      from = out.from;
      to = out.to;
      sent = sent_by out.pass (λ pass. pass.me.view.client);
    } };

    ghost invariant = { λ out. MatchOption out.pass ⊥
        (λ pass. IsSegPassOf (arc_value out.shared).queue pass
        × (pass.me.view.client ≡ hand true false pass.me.view.client.sent [] [])) };
}

/// The receiver's end of a link.
#[derive(Drop)]
pub struct In {
    shared: Arc<Shared, Global>,
    pass: Pass,
    from: Actor,
    to: Actor,
    known: u64,
}

impl Model for In {
    ghost use Rattle.std.specs.Prelude.{◌≡◌, ◌-◌, true, false, [], length};
    ghost use Rattle.std.specs.Arc.{arc_value};
    ghost use Rattle.crossbeam_queue.specs.SegTies.{IsSegPassOf};
    ghost use Rattle.ruled_links.specs.Order.{hand};
    ghost use Rattle.ruled_links.specs.Ends.{Receiving};

    ghost Value = { Receiving };

    ghost view = { λ inn. record {
      link = (arc_value inn.shared).queue.web;
      from = inn.from;
      to = inn.to;
      received = inn.pass.me.view.client.received;
      known = inn.known;
    } };

    ghost invariant = { λ inn. IsSegPassOf (arc_value inn.shared).queue inn.pass
        × (inn.pass.me.view.client ≡ hand false true []
        inn.pass.me.view.client.received inn.pass.me.view.client.known)
        × (inn.known
        ≡ length inn.pass.me.view.client.known - length inn.pass.me.view.client.received) };
}

/// Makes a link from one actor to another.
pub fn link(alloc: Global, from: Actor, to: Actor) -> Result<(Out, In), AllocError>
    ensures ends { IfOk result (λ ends. AreEnds ends.0 ends.1) }
    ensures actors { IfOk result (λ ends. (ends.0.from ≡ from) × (ends.0.to ≡ to)) }
    ensures empty { IfOk result (λ ends. (ends.0.sent ≡ []) × (ends.1.received ≡ [])) }
    ensures known { IfOk result (λ ends. ends.1.known ≡ 0) }
{
    let (queue, mut pass) = RuledSegQueue::with_rule(alloc)?;
    let sender = queue.another::<Part>(&mut pass);
    let Ok(shared) = Arc::new(alloc, Shared { queue }) else {
        return Err(AllocError);
    };
    let other = Arc::try_clone(&shared)?;
    let out = Out {
        shared,
        pass: Some(sender),
        from,
        to,
    };
    let inn = In {
        shared: other,
        pass,
        from,
        to,
        known: 0,
    };
    Ok((out, inn))
}

impl Out {
    /// Sends a message. `Err` hands it back, and means want of memory; or that the link has had 2^62 messages.
    pub fn put<R: Wait>(&mut self, rt: &R, m: Envelope) -> Result<(), Envelope>
        requires { m.from ≡ self.old.from }
        ensures ok { OnOk result (self.new.sent ≡ self.old.sent ++ m ∷ []) }
        ensures err { OnErr result (self.new ≡ self.old) }
        ensures back { IfErr result (λ message. message ≡ m) }
        ensures link { IsSameOut self.old self.new }
    {
        let Some(pass) = &mut self.pass else {
            unreachable!();
        };
        self.shared.queue.push_as::<Put, R>(rt, pass, m)
    }
}

impl In {
    /// Makes one pop. `None` says that this pop found the queue empty; another thread may be about to put. It takes
    /// no memory.
    pub fn take<R: Wait>(&mut self, rt: &R) -> Option<Envelope>
        ensures some { IfSome result (λ m. self.new.received ≡ self.old.received ++ m ∷ []) }
        ensures known { IfSome result (λ m. self.new.known ≡ self.old.known - 1) }
        ensures none { IfNone result (self.old.known ≡ 0) }
        ensures same { IfNone result (self.new ≡ self.old) }
        ensures link { IsSameIn self.old self.new }
    {
        let popped = self.shared.queue.pop_as::<Take, R>(rt, &mut self.pass);
        if popped.is_some() {
            self.known = self.known.saturating_sub(1);
        }
        popped
    }

    /// How many messages the last `gather` of this link found left that weren't taken since; 0 before the first. It
    /// takes no memory.
    pub fn known(&self) -> u64
        ensures { result ≡ self.now.known }
    {
        self.known
    }
}

/// Holds both ends of a link together, and answers how many messages are left on it. It takes no memory.
pub fn gather<R: Wait>(out: &mut Out, inn: &mut In, rt: &R) -> u64
    requires { AreEnds out.old inn.old }
    ensures left { AreLeft out.old.sent inn.old.received result }
    ensures known { inn.new ≡ record inn.old { known = result } }
    ensures same { out.new ≡ out.old }
{
    let Some(sender) = out.pass.take() else {
        unreachable!();
    };
    let queue = &inn.shared.queue;
    queue.absorb::<Meet>(&mut inn.pass, sender);
    let left = queue.len_as::<Look, R>(rt, &mut inn.pass) as u64;
    out.pass = Some(queue.another::<Part>(&mut inn.pass));
    inn.known = left;
    left
}
