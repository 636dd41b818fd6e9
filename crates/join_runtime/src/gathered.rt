// The two ends of each link held together.

ghost use Rattle.std.specs.Prelude.{◌≡◌, ◌<◌, ℕ, None, length, map, slice_index_or};
ghost use Rattle.join_runtime.specs.Views.{SeatView, frame_of};
ghost use Rattle.join_runtime.specs.Turns.{IsAlike};
ghost use Rattle.join_runtime.specs.Joins.{ActorsDiffer, AllLead, AreGathered, IsSlotOf, Tells, slot_of};
ghost use Rattle.join_runtime.specs.Bouts.{NoneSpent};

use crate::seat::Seat;
use ruled_links::Mouth;
use std::sync::Wait;

// Holds each mouth of a seat and the inbox to which it leads together.
fn gather_row<R: Wait>(rt: &R, mouths: &mut Vec<Option<Mouth>>, seats: &mut [Seat])
    requires { (r : ℕ) (d : SeatView) → r < length seats.old
        → IsSlotOf (slice_index_or mouths.old.items r None) (slice_index_or seats.old r d).inbox }
    ensures mouths { mouths.new.items ≡ mouths.old.items }
    ensures told { (r : ℕ) (d : SeatView) → r < length seats.old
        → Tells (slice_index_or mouths.old.items r None) (slice_index_or seats.old r d)
        (slice_index_or seats.new r d) }
{
    for place in 0..seats.len() {
        if place < mouths.len() {
            seats[place].gather(rt, &mut mouths[place]);
        }
    }
}

fn gather_from<R: Wait>(rt: &R, seats: &mut [Seat], sender: usize)
    requires sender { sender < length seats.old }
    requires none_spent { NoneSpent seats.old }
    requires joined { (r : ℕ) (d : SeatView) → r < length seats.old
        → IsSlotOf (slot_of seats.old d sender r) (slice_index_or seats.old r d).inbox }
    ensures told { (r : ℕ) (d : SeatView) → r < length seats.old
        → Tells (slot_of seats.old d sender r) (slice_index_or seats.old r d)
        (slice_index_or seats.new r d) }
{
    let mut mouths = seats[sender].take_mouths();
    gather_row(rt, &mut mouths, seats);
    seats[sender].give_mouths(mouths);
}

// Holds the two ends of each link together.
pub(crate) fn gather_all<R: Wait>(rt: &R, seats: &mut [Seat])
    requires leads { AllLead (map frame_of seats.old) }
    requires differ { ActorsDiffer (map frame_of seats.old) }
    requires none_spent { NoneSpent seats.old }
    ensures frames { map frame_of seats.new ≡ map frame_of seats.old }
    ensures alike { (n : ℕ) (d : SeatView) → n < length seats.old
        → IsAlike (slice_index_or seats.old n d) (slice_index_or seats.new n d) }
    ensures gathered { AreGathered seats.new }
{
    for sender in 0..seats.len() {
        gather_from(rt, seats, sender);
    }
}
