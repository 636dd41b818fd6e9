// The two ends of a ring.

ghost use Rattle.std.specs.Prelude.{◌≡◌, ◌≤◌, ◌+◌, ◌++◌, ◌∷◌, [], true, false, IfOk, IfSome, IfNone, OnOk, IfErr, OnErr, length};
ghost use Rattle.rtrb.specs.Ring.{received, known_items, SameConsumer};
ghost use Rattle.ring_links.specs.Rings.{AreEnds, AreLeft, IsSameIn, IsSameOut};

use epoch_tags::{Actor, Envelope};
use rtrb::{Consumer, PopError, Producer, PushError, RingBuffer};
use std::alloc::{AllocError, Global};
use std::marker::Model;

/// The sender's end of a ring. It can move to another thread.
#[derive(Drop)]
pub struct RingOut {
    producer: Producer<Envelope>,
    from: Actor,
    to: Actor,
    // Whether the last put or `beside` on this end was a put that was refused.
    refused: bool,
}

impl Model for RingOut {
    ghost use Rattle.rtrb.specs.Ring.{sent, known_free, producer_capacity};
    ghost use Rattle.ring_links.specs.Rings.{Sending, ring_of};

    ghost Value = { Sending };

    ghost view = { λ out. record {
      ring = ring_of out.producer.end;
      from = out.from;
      to = out.to;
      room = producer_capacity out.producer;
      sent = sent out.producer;
      places = known_free out.producer;
      refused = out.refused;
    } };
}

/// The receiver's end of a ring. It can move to another thread.
#[derive(Drop)]
pub struct RingIn {
    consumer: Consumer<Envelope>,
    from: Actor,
    to: Actor,
}

impl Model for RingIn {
    ghost use Rattle.std.specs.Prelude.{length};
    ghost use Rattle.rtrb.specs.Ring.{received, known_items, consumer_capacity};
    ghost use Rattle.ring_links.specs.Rings.{Receiving, ring_of};

    ghost Value = { Receiving };

    ghost view = { λ inn. record {
      ring = ring_of inn.consumer.end;
      from = inn.from;
      to = inn.to;
      room = consumer_capacity inn.consumer;
      received = received inn.consumer;
      known = length (known_items inn.consumer);
    } };
}

/// Makes a ring from one actor to another, with room for so many messages. All memory that it needs is taken here, and
/// is freed when both ends are dropped.
pub fn ring(
    alloc: Global,
    from: Actor,
    to: Actor,
    places: u32,
) -> Result<(RingOut, RingIn), AllocError>
    requires some { 1 ≤ places }
    requires few { places ≤ 4096 }
    ensures ends { IfOk result (λ ends. AreEnds ends.0 ends.1) }
    ensures actors { IfOk result (λ ends. (ends.0.from ≡ from) × (ends.0.to ≡ to)) }
    ensures empty { IfOk result (λ ends. (ends.0.sent ≡ []) × (ends.1.received ≡ [])) }
    ensures known { IfOk result (λ ends. ends.1.known ≡ 0) }
    ensures places { IfOk result (λ ends. (ends.0.room ≡ places) × (ends.0.places ≡ places)) }
    ensures refused { IfOk result (λ ends. ends.0.refused ≡ false) }
{
    let (producer, consumer) = RingBuffer::new(alloc, places as usize)?;
    let out = RingOut {
        producer,
        from,
        to,
        refused: false,
    };
    let inn = RingIn { consumer, from, to };
    Ok((out, inn))
}

impl RingOut {
    // Who sends through it.
    pub(crate) fn sender(&self) -> Actor
        ensures { result ≡ self.now.from }
    {
        self.from
    }

    /// Sends a message, or hands it back where no place is free. Where this end knows of none it first looks what the
    /// receiver has taken. It takes no memory.
    pub fn put(&mut self, m: Envelope) -> Result<(), Envelope>
        requires { m.from ≡ self.old.from }
        ensures ok { OnOk result (self.new.sent ≡ self.old.sent ++ m ∷ []) }
        ensures places { OnOk result (self.old.places ≤ self.new.places + 1) }
        ensures taken { OnOk result (self.new.refused ≡ false) }
        ensures none { OnErr result (self.old.places ≡ 0) }
        ensures err { OnErr result (self.new ≡ record self.old { refused = true }) }
        ensures back { IfErr result (λ message. message ≡ m) }
        ensures ring { IsSameOut self.old self.new }
    {
        match self.producer.push(m) {
            Ok(()) => {
                self.refused = false;
                Ok(())
            }
            Err(PushError::Full(m)) => {
                self.refused = true;
                Err(m)
            }
        }
    }

    /// Whether the last `put` or `beside` on this end was a `put` that handed its message back; false for a new ring.
    /// It takes no memory.
    pub fn refused(&self) -> bool
        ensures { result ≡ self.now.refused }
    {
        self.refused
    }
}

// Takes the next message out of a ring, where one is seen.
fn pop(consumer: &mut Consumer<Envelope>) -> Option<Envelope>
    ensures some { IfSome result (λ m. received consumer.new ≡ received consumer.old ++ m ∷ []) }
    ensures known { IfSome result (λ _. length (known_items consumer.old)
        ≤ length (known_items consumer.new) + 1) }
    ensures none { IfNone result (length (known_items consumer.old) ≡ 0) }
    ensures same { IfNone result ((received consumer.new ≡ received consumer.old)
        × (length (known_items consumer.new) ≡ 0)) }
    ensures ring { SameConsumer consumer.old consumer.new }
{
    match consumer.pop() {
        Ok(m) => Some(m),
        Err(PopError::Empty) => None,
    }
}

impl RingIn {
    /// Takes the next message. Where this end knows of none it first looks what the sender has put. It takes no memory.
    pub fn take(&mut self) -> Option<Envelope>
        ensures some { IfSome result (λ m. self.new.received ≡ self.old.received ++ m ∷ []) }
        ensures known { IfSome result (λ _. self.old.known ≤ self.new.known + 1) }
        ensures none { IfNone result (self.old.known ≡ 0) }
        ensures same { IfNone result (self.new ≡ self.old) }
        ensures ring { IsSameIn self.old self.new }
    {
        pop(&mut self.consumer)
    }

    /// How many messages this end knows of that it has not taken; the sender may have put more. It takes no memory.
    pub fn known(&self) -> u64
        ensures { result ≡ self.now.known }
    {
        self.consumer.cached_slots() as u64
    }
}

/// Holds the two ends of a ring together, and answers how many messages are left in it. It takes no memory.
pub fn beside(out: &mut RingOut, inn: &mut RingIn) -> u64
    requires { AreEnds out.old inn.old }
    ensures left { AreLeft out.old.sent inn.old.received result }
    ensures known { inn.new ≡ record inn.old { known = result } }
    ensures same { out.new ≡ record out.old { places = out.new.places; refused = false } }
    ensures more { out.old.places ≤ out.new.places }
    ensures room { out.old.room ≤ out.new.places + result }
{
    out.producer.slots_beside(&mut inn.consumer);
    let left = inn.consumer.slots_beside(&mut out.producer);
    out.refused = false;
    left as u64
}
