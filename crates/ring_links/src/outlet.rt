// The sender's end of a ring, and what waits for a place in it.

ghost use Rattle.std.specs.Prelude.{◌≡◌, ◌<◌, ◌≤◌, ◌+◌, ◌++◌, ◌∷◌, [], true, false, OnOk, OnErr, length};
ghost use Rattle.ring_links.specs.Rings.{AreEnds, AreLeft, IsSameOut};
ghost use Rattle.ring_links.specs.Outlets.{IsStuck, PutsFirst, Stays, sent_on};

use crate::ends::{RingIn, RingOut, beside};
use epoch_tags::{Envelope, Msg};
use std::alloc::{AllocError, Global};
use std::collections::VecDeque;
use std::marker::Model;

/// The sender's end of a ring, and the messages that wait for a place in it.
#[derive(Drop)]
pub struct Outlet {
    out: RingOut,
    waiting: VecDeque<Msg>,
}

impl Model for Outlet {
    ghost use Rattle.ring_links.specs.Outlets.{OutletView};

    ghost Value = { OutletView };

    ghost view = { λ outlet. record { out = outlet.out; waiting = outlet.waiting.items } };
}

impl Outlet {
    /// An outlet in which nothing waits. It takes no memory.
    pub fn new(alloc: Global, out: RingOut) -> Outlet
        ensures { result ≡ record { out = out; waiting = [] } }
    {
        Outlet {
            out,
            waiting: VecDeque::new(alloc),
        }
    }

    /// Lets a message wait behind the others. It is dropped where memory is wanting.
    pub fn add(&mut self, msg: Msg) -> Result<(), AllocError>
        ensures ok { OnOk result
            (self.new ≡ record self.old { waiting = self.old.waiting ++ msg ∷ [] }) }
        ensures err { OnErr result (self.new ≡ self.old) }
    {
        self.waiting.push_back(msg)?;
        Ok(())
    }

    /// How many messages wait.
    pub fn waiting(&self) -> u64
        ensures { result ≡ length self.now.waiting }
    {
        self.waiting.len() as u64
    }

    // Puts the first message that waits, where there is a place. One that is handed back is the first again; the place
    // that it had is still there for it. It takes no memory.
    fn put_first(&mut self) -> bool
        ensures put { result ≡ true → PutsFirst self.old self.new }
        ensures stuck { result ≡ false → IsStuck self.new }
        ensures stays { result ≡ false → Stays self.old self.new }
        ensures ring { IsSameOut self.old.out self.new.out }
    {
        let from = self.out.sender();
        let Some(msg) = self.waiting.pop_front() else {
            return false;
        };
        match self.out.put(Envelope { from, msg }) {
            Ok(()) => true,
            Err(Envelope { msg, .. }) => {
                self.waiting.push_front_reserved(msg);
                false
            }
        }
    }

    /// Puts what waits, in its order, until nothing waits or a put is refused, and answers whether any message left. It
    /// takes no memory.
    pub fn flush(&mut self) -> bool
        ensures same { sent_on self.new ≡ sent_on self.old }
        ensures stuck { IsStuck self.new }
        ensures moved { result ≡ true → length self.new.waiting < length self.old.waiting }
        ensures stays { result ≡ false → Stays self.old self.new }
        ensures ring { IsSameOut self.old.out self.new.out }
    {
        let mut moved = false;
        while self.put_first() {
            moved = true;
        }
        moved
    }

    /// `beside` of its ring's two ends; what waits stays. It takes no memory.
    pub fn beside(&mut self, inn: &mut RingIn) -> u64
        requires { AreEnds self.old.out inn.old }
        ensures left { AreLeft self.old.out.sent inn.old.received result }
        ensures known { inn.new ≡ record inn.old { known = result } }
        ensures same { self.new ≡ record self.old {
          out = record self.old.out {
            places = self.new.out.places;
            refused = false;
          };
        } }
        ensures more { self.old.out.places ≤ self.new.out.places }
        ensures room { self.old.out.room ≤ self.new.out.places + result }
    {
        beside(&mut self.out, inn)
    }
}
