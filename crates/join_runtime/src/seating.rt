// The seats of a run and of a wave at their beginning.

ghost use Rattle.std.specs.Prelude.{◌≡◌, ◌<◌, ◌≤◌, ◌+◌, ◌^◌, ◌↔◌, ◌++◌, ◌∷◌, [], ℕ, true, false, None, Some, Contains, IsSome, IfOk, OnOk, length, map, slice_set, slice_index_or};
ghost use Rattle.epoch_tags.specs.declared.actor.Actor.{Actor as Actor'};
ghost use Rattle.trace_law.specs.Validity.{IsValidInput, IsValidSetting};
ghost use Rattle.actor_core.specs.Numbers.{count_of};
ghost use Rattle.actor_core.specs.Rests.{IsRestOf, IsUpto, task_upto};
ghost use Rattle.actor_core.specs.Tasks.{task_of};
ghost use Rattle.ruled_links.specs.Ends.{Sending};
ghost use Rattle.ruled_links.specs.Inboxes.{Differ};
ghost use Rattle.actor_core.specs.Lists.{no_lists};
ghost use Rattle.join_runtime.specs.Views.{SeatView};
ghost use Rattle.join_runtime.specs.Joins.{slot_of};
ghost use Rattle.join_runtime.specs.Seating.{AreAwake, AreBelow, AreFilled, AreFirst, AreFresh, AreLinked, AreNew, AreSeated, HasSeat, HavePlaces, IsNewSeat, IsRoom, Puts, Places};
ghost use Rattle.join_runtime.specs.Serving.{AllServed};
ghost use Rattle.join_runtime.specs.Bouts.{AllJoinBy, StandsFor, lists_in, mouth_of};
ghost use Rattle.join_runtime.specs.Early.{AreGiven, given_in};
ghost use Rattle.epoch_tags.specs.Links.{HasLink};
ghost use Rattle.pair_collector.specs.Standing.{nothing_yet};

use crate::bouts::Seats;
use crate::seat::{Seat, no_mouths};
use actor_core::{Cast, Core, Rest, Upto, core_at, cores_in_wave};
use epoch_tags::Actor;
use ruled_links::{Actors, Inbox, Mouth, Mouths, inbox};
use std::alloc::{AllocError, Global};
use std::mem;
use trace_law::{Input, Setting};

// Those of the first `count` actors that have a link to this one, their numbers rising.
fn senders_of(alloc: Global, cast: Cast, count: u32, to: Actor) -> Result<Actors, AllocError>
    requires few { count_of cast < 2 ^ 32 }
    requires all { count ≤ count_of cast }
    ensures numbers { IfOk result (λ senders. AreBelow cast count senders) }
    ensures links { IfOk result (λ senders. AreLinked cast count to senders) }
{
    let mut senders = Actors::new(alloc);
    for n in 0..count {
        let from = cast.actor_at(n);
        if cast.has_link(from, to) {
            senders.push(from)?;
        }
    }
    Ok(senders)
}

// What the seat of the actor with this number has beside its machine: its inbox, the mouths of it, and the places for
// its own mouths.
fn room_at(
    alloc: Global,
    cast: Cast,
    n: u32,
) -> Result<(Inbox, Mouths, Vec<Option<Mouth>>), AllocError>
    requires few { count_of cast < 2 ^ 32 }
    ensures { IfOk result (λ room. IsRoom cast n room.0 room.1 room.2.items) }
{
    let count = cast.count();
    let actor = cast.actor_at(n);
    let senders = senders_of(alloc, cast, count, actor)?;
    let places = no_mouths(alloc, count)?;
    let (inbox, mouths) = inbox(alloc, actor, &senders)?;
    Ok((inbox, mouths, places))
}

// The seat of the actor with this number and this machine, which has no mouth yet, and the mouths of its inbox.
fn seat_at<'a>(
    alloc: Global,
    cast: Cast,
    n: u32,
    core: Core<'a>,
) -> Result<(Seat<'a>, Mouths), AllocError>
    requires few { count_of cast < 2 ^ 32 }
    ensures { IfOk result (λ made. IsNewSeat cast n core.entry made.0 made.1) }
{
    match room_at(alloc, cast, n) {
        Ok((inbox, mouths, places)) => {
            let actor = cast.actor_at(n);
            let seat = Seat::new(alloc, cast, actor, core, inbox, places);
            Ok((seat, mouths))
        }
        Err(refused) => {
            drop(core);
            Err(refused)
        }
    }
}

// Gives a mouth that leads to the actor with this number to its sender, whose seat has a place for it.
fn place(seats: &mut Vec<Seat>, cast: Cast, receiver: usize, mouth: Mouth)
    requires sender { HasSeat cast (length seats.old.items) mouth.from }
    requires places { HavePlaces receiver seats.old.items }
    ensures { Puts cast receiver mouth seats.old.items seats.new.items }
{
    let Some(sender) = cast.number(mouth.sender()) else {
        unreachable!();
    };
    seats[sender].put_mouth(receiver, mouth);
}

fn place_all(seats: &mut Vec<Seat>, cast: Cast, receiver: usize, mouths: Mouths)
    requires senders { (mouth : Sending) → Contains mouths mouth
        → HasSeat cast (length seats.old.items) mouth.from }
    requires places { HavePlaces receiver seats.old.items }
    ensures { Places cast receiver mouths seats.old.items seats.new.items }
{
    for mouth in mouths.into_vec() {
        place(seats, cast, receiver, mouth);
    }
}

// Each mouth goes to its sender. The places of the list are the numbers of the receivers.
fn give_all(alloc: Global, seats: &mut Vec<Seat>, cast: Cast, mut mouths: Vec<Mouths>)
    requires none { (n r : ℕ) (d : SeatView) → n < length seats.old.items
        → slot_of seats.old.items d n r ≡ None }
    requires senders { (r : ℕ) (mouth : Sending) → r < length mouths.items
        → Contains (slice_index_or mouths.items r []) mouth
        → HasSeat cast (length seats.old.items) mouth.from }
    requires places { (r : ℕ) → r < length mouths.items → HavePlaces r seats.old.items }
    ensures { AreFilled cast
        (length mouths.items) mouths.items seats.old.items seats.new.items }
{
    for receiver in 0..mouths.len() {
        let own = mem::replace(&mut mouths[receiver], Mouths::new(alloc));
        place_all(seats, cast, receiver, own);
    }
}

// Appends a seat, and the mouths of its inbox.
fn add_seat<'a>(
    seat: Seat<'a>,
    mouths: Mouths,
    seats: &mut Vec<Seat<'a>>,
    all_mouths: &mut Vec<Mouths>,
) -> Result<(), AllocError>
    ensures seats { OnOk result (seats.new.items ≡ seats.old.items ++ seat.entry ∷ []) }
    ensures mouths { OnOk result (all_mouths.new.items ≡ all_mouths.old.items ++ mouths ∷ []) }
{
    match seats.push(seat) {
        Ok(()) => {
            all_mouths.push(mouths)?;
            Ok(())
        }
        Err(refused) => {
            drop(refused);
            drop(mouths);
            Err(AllocError)
        }
    }
}

// The seats for these machines, in their order and without mouths, and the mouths of each one's inbox.
fn new_seats<'a>(
    alloc: Global,
    cast: Cast,
    cores: Vec<Core<'a>>,
) -> Result<(Vec<Seat<'a>>, Vec<Mouths>), AllocError>
    requires few { count_of cast < 2 ^ 32 }
    requires all { length cores.items ≡ count_of cast }
    ensures { IfOk result (λ made. AreNew cast (length cores.entry.items)
        cores.entry.items made.0.items made.1.items) }
{
    let mut seats = Vec::new(alloc);
    let mut all_mouths = Vec::new(alloc);
    let mut n = 0u32;
    for core in cores {
        let (seat, mouths) = seat_at(alloc, cast, n, core)?;
        add_seat(seat, mouths, &mut seats, &mut all_mouths)?;
        n += 1;
    }
    Ok((seats, all_mouths))
}

// The machines of so many actors of a run at its beginning, by their numbers.
fn first_cores<'a>(
    alloc: Global,
    input: &'a Input,
    setting: &Setting,
    count: u32,
) -> Result<Vec<Core<'a>>, AllocError>
    requires input { IsValidInput input.now }
    requires setting { IsValidSetting setting.now }
    ensures { IfOk result
        (λ cores. AreFresh (task_of input.now setting.now) count cores.items) }
{
    let mut cores = Vec::new(alloc);
    for n in 0..count {
        cores.push(core_at(alloc, input, setting, n)?)?;
    }
    Ok(cores)
}

// From now on all seats may have turns.
fn wake_all(seats: &mut Vec<Seat>)
    requires { AllServed seats.old.items }
    ensures { AreAwake seats.old.items seats.new.items }
{
    for place in 0..seats.len() {
        seats[place].wake();
    }
}

// The seats for these machines, in their order and joined by all links.
fn seats_of<'a>(
    alloc: Global,
    cast: Cast,
    cores: Vec<Core<'a>>,
) -> Result<Vec<Seat<'a>>, AllocError>
    requires few { count_of cast < 2 ^ 32 }
    requires all { length cores.items ≡ count_of cast }
    requires first { AreFirst cast cores.items }
    ensures { IfOk result (λ seats. AreSeated cast cores.entry.items seats.items) }
{
    let (mut seats, mouths) = new_seats(alloc, cast, cores)?;
    give_all(alloc, &mut seats, cast, mouths);
    wake_all(&mut seats);
    Ok(seats)
}

impl<'a> Seats<'a> {
    /// The seats of all actors of a run before its first event: the feeders', the joiners', the controller's and the
    /// collector's, joined by all links. The seats borrow the input.
    pub fn start(
        alloc: Global,
        input: &'a Input,
        setting: &Setting,
    ) -> Result<Seats<'a>, AllocError>
        requires input { IsValidInput input.now }
        requires setting { IsValidSetting setting.now }
        ensures stands { IfOk result (StandsFor (task_of input.now setting.now)) }
        ensures empty { IfOk result (λ seats. (a : Actor') → lists_in seats a ≡ no_lists) }
        ensures links { IfOk result (λ seats. (from to : Actor') → (IsSome (mouth_of seats from to)
            ↔ HasLink setting.now.k setting.now.feeders from to)) }
        ensures given { IfOk result (λ seats.
            AreGiven (2 ^ setting.now.k) nothing_yet (given_in seats)) }
        ensures at_work { IfOk result (λ seats. seats.spent ≡ false) }
    {
        let cast = Cast::of(setting);
        let cores = first_cores(alloc, input, setting, cast.count())?;
        let seats = seats_of(alloc, cast, cores)?;
        Ok(Seats {
            alloc,
            cast,
            seats,
            spent: false,
        })
    }

    /// The seats of all actors of a wave before its first event, which goes on from this rest and ends there, joined by
    /// all links. The seats borrow the input.
    pub fn start_at(
        alloc: Global,
        rest: Rest,
        input: &'a Input,
        setting: &Setting,
        end: Upto,
    ) -> Result<Seats<'a>, AllocError>
        requires input { IsValidInput input.now }
        requires setting { IsValidSetting setting.now }
        requires end { IsUpto rest.line end input.now }
        requires rest { IsRestOf input.now setting.now rest }
        requires epoch { rest.line.epoch ≤ 2 ^ 31 }
        ensures stands { IfOk result
            (StandsFor (task_upto end input.now setting.now rest)) }
        ensures empty { IfOk result (λ seats. (a : Actor') → lists_in seats a ≡ no_lists) }
        ensures joins { IfOk result (AllJoinBy input.now.theta) }
        ensures links { IfOk result (λ seats. (from to : Actor') → (IsSome (mouth_of seats from to)
            ↔ HasLink setting.now.k setting.now.feeders from to)) }
        ensures given { IfOk result (λ seats.
            AreGiven (2 ^ setting.now.k) nothing_yet (given_in seats)) }
        ensures at_work { IfOk result (λ seats. seats.spent ≡ false) }
    {
        let cast = Cast::of(setting);
        let cores = cores_in_wave(alloc, rest, input, setting, end)?;
        let seats = seats_of(alloc, cast, cores)?;
        Ok(Seats {
            alloc,
            cast,
            seats,
            spent: false,
        })
    }
}
