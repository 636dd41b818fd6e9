// The two ends of each ring held together.

ghost use Rattle.std.specs.Prelude.{◌≡◌, ◌<◌, ℕ, None, length, slice_index_or};
ghost use Rattle.ring_runtime.specs.Seats.{RingSeatView};
ghost use Rattle.ring_runtime.specs.Wiring.{in_of, out_of};
ghost use Rattle.ring_runtime.specs.Joins.{AllHeld, AllHoldIn, AreEndsOf, AreEndsWith, HoldsBelow, HoldsFrom, IsHeldWith};

use crate::seat::RingSeat;
use ring_links::{Outlet, RingIn};

// Holds an outlet and the end to which it leads together.
fn hold(outlet: &mut Outlet, inn: &mut RingIn)
    requires { AreEndsWith outlet.old inn.old }
    ensures { IsHeldWith outlet.old inn.old outlet.new inn.new }
{
    outlet.beside(inn);
}

// The same, where there are two.
pub(crate) fn hold_at(out: &mut Option<Outlet>, inn: &mut Option<RingIn>)
    requires { AreEndsOf out.old inn.old }
    ensures { AllHeld out.old inn.old out.new inn.new }
{
    if let Some(outlet) = out {
        if let Some(inn) = inn {
            hold(outlet, inn);
        }
    }
}

// Holds each outlet of a row and the end to which it leads together.
fn hold_row(outs: &mut Vec<Option<Outlet>>, seats: &mut [RingSeat], sender: usize)
    requires many { length outs.old.items ≡ length seats.old }
    requires ends { (r : ℕ) (d : RingSeatView) → r < length seats.old
        → AreEndsOf (slice_index_or outs.old.items r None)
        (slice_index_or (slice_index_or seats.old r d).ins sender None) }
    ensures { AllHoldIn sender (length seats.old) outs.old.items seats.old
        outs.new.items seats.new }
{
    for place in 0..seats.len() {
        seats[place].hold_in(sender, &mut outs[place]);
    }
}

// Holds each outlet of one seat and the end to which it leads together.
fn hold_from(seats: &mut [RingSeat], sender: usize)
    requires sender { sender < length seats.old }
    requires many { (d : RingSeatView)
        → length (slice_index_or seats.old sender d).outs ≡ length seats.old }
    requires ends { (r : ℕ) (d : RingSeatView) → r < length seats.old
        → AreEndsOf (out_of seats.old d sender r) (in_of seats.old d r sender) }
    ensures { HoldsFrom sender seats.old seats.new }
{
    let mut outs = seats[sender].take_outs();
    hold_row(&mut outs, seats, sender);
    seats[sender].give_outs(outs);
}

// Holds the two ends of each ring together.
pub(crate) fn hold_all(seats: &mut [RingSeat])
    requires many { (n : ℕ) (d : RingSeatView) → n < length seats.old
        → length (slice_index_or seats.old n d).outs ≡ length seats.old }
    requires ends { (n r : ℕ) (d : RingSeatView) → n < length seats.old → r < length seats.old
        → AreEndsOf (out_of seats.old d n r) (in_of seats.old d r n) }
    ensures { HoldsBelow (length seats.old) seats.old seats.new }
{
    for sender in 0..seats.len() {
        hold_from(seats, sender);
    }
}
