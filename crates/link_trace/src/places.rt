// An actor's machine, and what waits for it; the places of all actors, as they are made and taken apart.

ghost use Rattle.std.specs.Prelude.{◌≡◌, ◌++◌, ◌∷◌, [], List, ◌<◌, MatchOption, OnOk, IfOk, MatchBool, Ok, true, false, length, map, replicate, slice_set, slice_index_or, None};
ghost use Rattle.actor_core.specs.Lists.{Took, Began};
ghost use Rattle.actor_core.specs.Standing.{Occurs, Waits, IsOver, GoesOn};
ghost use Rattle.actor_core.specs.Elements.{IsAt, IsAllAt, IsSomeAt};
ghost use Rattle.link_trace.specs.Worlds.{waiting_at, waiting_of, cores_of, waits, HasRoom, TakesOff, PutsOn, OccursAt};

use actor_core::Core;
use epoch_tags::{Actor, Msg, Sends};
use std::alloc::{AllocError, Global};
use std::collections::VecDeque;

/// An actor's machine, and the messages on their way to it, by the numbers of their senders.
#[derive(Drop)]
pub(crate) struct Place<'a> {
    pub(crate) core: Core<'a>,
    pub(crate) waiting: Vec<VecDeque<Msg>>,
}

impl<'a> Place<'a> {
    fn pop(&mut self, sender: usize) -> Option<Msg>
        ensures core { self.new.core ≡ self.old.core }
        ensures waiting { MatchOption result
            ((waiting_at self.new ≡ waiting_at self.old)
            × (slice_index_or (waiting_at self.old) sender [] ≡ []))
            (λ m. (rest : List Msg) × (sender < length (waiting_at self.old))
            × (slice_index_or (waiting_at self.old) sender [] ≡ m ∷ rest)
            × (waiting_at self.new ≡ slice_set (waiting_at self.old) sender rest)) }
    {
        if sender < self.waiting.len() {
            pop_first(&mut self.waiting[sender])
        } else {
            None
        }
    }
}

fn push_behind(queue: &mut VecDeque<Msg>, msg: Msg) -> Result<(), AllocError>
    ensures { OnOk result (queue.new.items ≡ queue.old.items ++ msg ∷ []) }
{
    match queue.push_back(msg) {
        Ok(()) => Ok(()),
        Err(_) => Err(AllocError),
    }
}

fn pop_first(queue: &mut VecDeque<Msg>) -> Option<Msg>
    ensures { MatchOption result
        ((queue.new.items ≡ queue.old.items) × (queue.old.items ≡ []))
        (λ m. queue.old.items ≡ m ∷ queue.new.items) }
{
    queue.pop_front()
}

impl<'a> Place<'a> {
    fn push(&mut self, sender: usize, msg: Msg) -> Result<(), AllocError>
        requires { sender < length (waiting_at self.old) }
        ensures core { self.new.core ≡ self.old.core }
        ensures waiting { OnOk result (waiting_at self.new
            ≡ slice_set (waiting_at self.old) sender
            (slice_index_or (waiting_at self.old) sender [] ++ msg ∷ [])) }
    {
        push_behind(&mut self.waiting[sender], msg)
    }
}

impl<'a> Place<'a> {
    fn begin(&mut self, sends: &mut Sends) -> Result<bool, AllocError>
        ensures waiting { waiting_at self.new ≡ waiting_at self.old }
        ensures occurs { IfOk result (λ begun.
            MatchBool begun (Occurs Began self.old.core self.new.core sends.old sends.new)
            (self.new.core ≡ self.old.core)) }
        ensures idle { result ≡ Ok false → Waits self.old.core }
        ensures free { result ≡ Ok true → ¬ Waits self.old.core }
    {
        self.core.begin(sends)
    }
}

// Takes off the first message that waits at the receiver of that sender. None: nothing waits there.
pub(crate) fn take(places: &mut Vec<Place>, receiver: usize, sender: usize) -> Option<Msg>
    ensures cores { cores_of places.new.items ≡ cores_of places.old.items }
    ensures waiting { MatchOption result
        ((waiting_of places.new.items ≡ waiting_of places.old.items)
        × (waits (waiting_of places.old.items) receiver sender ≡ []))
        (λ m. TakesOff receiver sender m (waiting_of places.old.items)
        (waiting_of places.new.items)) }
{
    if receiver < places.len() {
        places[receiver].pop(sender)
    } else {
        None
    }
}

// Puts a message behind those that wait at the receiver of that sender.
pub(crate) fn put(
    places: &mut Vec<Place>,
    receiver: usize,
    sender: usize,
    msg: Msg,
) -> Result<(), AllocError>
    requires { HasRoom (waiting_of places.old.items) receiver sender }
    ensures cores { cores_of places.new.items ≡ cores_of places.old.items }
    ensures waiting { OnOk result
        (PutsOn receiver sender msg (waiting_of places.old.items) (waiting_of places.new.items)) }
{
    places[receiver].push(sender, msg)
}

// Hands a message to a machine, which posts what it sends.
pub(crate) fn hand(
    places: &mut Vec<Place>,
    receiver: usize,
    from: Actor,
    msg: Msg,
    sends: &mut Sends,
) -> Result<(), AllocError>
    requires place { receiver < length places.old.items }
    requires none { sends.old ≡ [] }
    ensures waiting { waiting_of places.new.items ≡ waiting_of places.old.items }
    ensures occurs { OnOk result (OccursAt receiver (Took from msg) (cores_of places.old.items)
        (cores_of places.new.items) sends.new) }
{
    places[receiver].core.on(from, msg, sends)
}

// Lets a machine begin. `Ok(false)`: it did nothing.
pub(crate) fn begin(
    places: &mut Vec<Place>,
    at: usize,
    sends: &mut Sends,
) -> Result<bool, AllocError>
    requires place { at < length places.old.items }
    requires none { sends.old ≡ [] }
    ensures waiting { waiting_of places.new.items ≡ waiting_of places.old.items }
    ensures occurs { IfOk result (λ begun. MatchBool begun
        (OccursAt at Began (cores_of places.old.items) (cores_of places.new.items) sends.new)
        (cores_of places.new.items ≡ cores_of places.old.items)) }
    ensures idle { result ≡ Ok false → IsAt Waits at (cores_of places.old.items) }
    ensures free { result ≡ Ok true → IsAt (λ core. ¬ Waits core) at (cores_of places.old.items) }
{
    places[at].begin(sends)
}

// No messages, from each of so many senders.
fn no_messages(alloc: Global, senders: u32) -> Result<Vec<VecDeque<Msg>>, AllocError>
    ensures { IfOk result (λ waiting.
        map (λ queue. queue.items) waiting.items ≡ replicate senders []) }
{
    let mut waiting = Vec::new(alloc);
    for _ in 0..senders {
        waiting.push(VecDeque::new(alloc))?;
    }
    Ok(waiting)
}

// A place for this machine, with nothing that waits there.
fn place_of<'a>(alloc: Global, core: Core<'a>, count: u32) -> Result<Place<'a>, AllocError>
    ensures core { IfOk result (λ place. place.core ≡ core.entry) }
    ensures waiting { IfOk result (λ place. waiting_at place ≡ replicate count []) }
{
    match no_messages(alloc, count) {
        Ok(waiting) => Ok(Place { core, waiting }),
        Err(refused) => {
            drop(core);
            Err(refused)
        }
    }
}

// Places for these machines, in their order, with nothing that waits there.
pub(crate) fn places_of<'a>(
    alloc: Global,
    cores: Vec<Core<'a>>,
    count: u32,
) -> Result<Vec<Place<'a>>, AllocError>
    ensures cores { IfOk result (λ places. cores_of places.items ≡ cores.entry.items) }
    ensures waiting { IfOk result (λ places. waiting_of places.items
        ≡ replicate (length cores.entry.items) (replicate count [])) }
{
    let mut places = Vec::new(alloc);
    for core in cores {
        let place = place_of(alloc, core, count)?;
        places.push(place)?;
    }
    Ok(places)
}

// Whether the work of all is over.
pub(crate) fn all_are_over(places: &[Place]) -> bool
    ensures over { result ≡ true → IsAllAt IsOver (cores_of places.now) }
    ensures goes_on { result ≡ false → IsSomeAt GoesOn (cores_of places.now) }
{
    for place in places {
        if !place.core.is_over() {
            return false;
        }
    }
    true
}

// The machines of all places.
pub(crate) fn machines<'a>(
    alloc: Global,
    places: Vec<Place<'a>>,
) -> Result<Vec<Core<'a>>, AllocError>
    ensures { IfOk result (λ cores. cores.items ≡ cores_of places.entry.items) }
{
    let mut cores = Vec::new(alloc);
    for place in places {
        cores.push(place.core)?;
    }
    Ok(cores)
}
