// What an inbox counts of each sender, found by the sender's number.

ghost use Rattle.std.specs.Prelude.{◌≡◌, ◌≤◌, ℕ, ◌<◌, ◌^◌, ◌++◌, ◌∷◌, [], true, false, map, sum_by, All, Contains, length, slice_set, slice_index, slice_index_or, OnOk, OnErr, MatchOption};
ghost use Rattle.ruled_links.specs.declared.parts.Part.{Part};
ghost use Rattle.ruled_links.specs.Delivery.{number_of};
ghost use Rattle.ruled_links.specs.Parts.{noted, set_known, has_part, known_left};

use epoch_tags::Actor;
use std::alloc::{AllocError, Global};
use std::marker::Model;

// The counts of one sender: how many of its messages were taken, and how many are known to be left.
#[derive(Drop)]
pub struct Part {
    pub from: Actor,
    pub taken: u64,
    pub known: u64,
}

// A number for each actor, in which no two agree.
pub fn number(actor: Actor) -> u64
    ensures is { result ≡ number_of actor }
    ensures below { result < 2 ^ 34 }
{
    match actor {
        Actor::Feeder(i) => 4 * u64::from(i),
        Actor::Joiner(i) => 4 * u64::from(i) + 1,
        Actor::Controller => 2,
        Actor::Collector => 3,
    }
}

// The parts in the order of the senders, with the place of each at its sender's number.
#[derive(Drop)]
pub struct Parts {
    parts: Vec<Part>,
    places: Vec<usize>,
}

impl Model for Parts {
    ghost use Rattle.std.specs.Prelude.{List};
    ghost use Rattle.ruled_links.specs.declared.parts.Part.{Part};
    ghost use Rattle.ruled_links.specs.Parts.{IsIndexed};

    ghost Value = { List Part };

    ghost view = { λ parts. parts.parts.items };

    ghost invariant = { λ parts. IsIndexed parts.places.items parts.parts.items };
}

// Makes room for this number.
fn make_room(places: &mut Vec<usize>, number: u64) -> Result<(), AllocError>
    requires { number < 2 ^ 34 }
    ensures room { OnOk result (number < length places.new.items) }
    ensures longer { length places.old.items ≤ length places.new.items }
    ensures same { (k : ℕ) → k < length places.old.items
        → slice_index places.new.items k ≡ slice_index places.old.items k }
{
    let room = number as usize + 1;
    if places.len() < room {
        places.resize(room, 0)?;
    }
    Ok(())
}

fn note_at(parts: &mut Vec<Part>, place: usize, sender: u64)
    requires place { place < length parts.old.items }
    requires few { (d : Part) → (slice_index_or parts.old.items place d).taken < 2 ^ 62 }
    requires is { (d : Part) → number_of (slice_index_or parts.old.items place d).from ≡ sender }
    ensures { (d : Part) → parts.new.items
        ≡ slice_set parts.old.items place (noted sender (slice_index_or parts.old.items place d)) }
{
    let part = &mut parts[place];
    part.taken += 1;
    part.known = part.known.saturating_sub(1);
}

fn tell_at(parts: &mut Vec<Part>, place: usize, sender: u64, left: u64)
    requires place { place < length parts.old.items }
    requires is { (d : Part) → number_of (slice_index_or parts.old.items place d).from ≡ sender }
    ensures { (d : Part) → parts.new.items ≡ slice_set parts.old.items place
        (set_known sender left (slice_index_or parts.old.items place d)) }
{
    let part = &mut parts[place];
    part.known = left;
}

impl Parts {
    pub fn new(alloc: Global) -> Parts
        ensures { result ≡ [] }
    {
        Parts {
            parts: Vec::new(alloc),
            places: Vec::new(alloc),
        }
    }

    // Where this sender's part stands.
    fn place_of(&self, sender: u64) -> Option<usize>
        ensures { MatchOption result (has_part sender self.now ≡ false) (λ place.
            (place < length self.now)
            × ((d : Part) → number_of (slice_index_or self.now place d).from ≡ sender)) }
    {
        if sender >= self.places.len() as u64 {
            return None;
        }
        let place = self.places[sender as usize];
        if place >= self.parts.len() {
            return None;
        }
        let found = number(self.parts[place].from);
        if found == sender { Some(place) } else { None }
    }

    // A part for a new sender.
    pub fn push(&mut self, from: Actor) -> Result<(), AllocError>
        requires { has_part (number_of from) self.old ≡ false }
        ensures ok { OnOk result
            (self.new ≡ self.old ++ record { from = from; taken = 0; known = 0 } ∷ []) }
        ensures err { OnErr result (self.new ≡ self.old) }
    {
        self.parts.reserve(1)?;
        let sender = number(from);
        make_room(&mut self.places, sender)?;
        self.places[sender as usize] = self.parts.len();
        self.parts.push_reserved(Part {
            from,
            taken: 0,
            known: 0,
        });
        Ok(())
    }

    // Notes that one message of this sender was taken.
    pub fn note(&mut self, sender: u64)
        requires { All (λ p. number_of p.from ≡ sender → p.taken < 2 ^ 62) self.old }
        ensures { self.new ≡ map (noted sender) self.old }
    {
        if let Some(place) = self.place_of(sender) {
            note_at(&mut self.parts, place, sender);
        }
    }

    // Notes that so many were found left of this sender.
    pub fn tell(&mut self, sender: u64, left: u64)
        ensures { self.new ≡ map (set_known sender left) self.old }
    {
        if let Some(place) = self.place_of(sender) {
            tell_at(&mut self.parts, place, sender, left);
        }
    }

    // How many messages of this sender were taken.
    pub fn taken_of(&self, sender: u64) -> u64
        requires { has_part sender self.now ≡ true }
        ensures { (p : Part) × Contains self.now p × (number_of p.from ≡ sender)
            × (result ≡ p.taken) }
    {
        let Some(place) = self.place_of(sender) else {
            unreachable!();
        };
        self.parts[place].taken
    }

    // What is known to be left of all senders.
    pub fn known(&self) -> u64
        requires { sum_by known_left self.now < 2 ^ 64 }
        ensures { result ≡ sum_by known_left self.now }
    {
        sum_of(self.parts.as_slice())
    }
}

fn sum_of(parts: &[Part]) -> u64
    requires { sum_by known_left parts.now < 2 ^ 64 }
    ensures { result ≡ sum_by known_left parts.now }
{
    let mut sum = 0;
    for part in parts {
        sum += part.known;
    }
    sum
}
