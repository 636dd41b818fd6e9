// The seats of a run at its beginning.

ghost use Rattle.std.specs.Prelude.{◌≡◌, ◌<◌, ◌+◌, ◌^◌, ◌↔◌, ℕ, false, IsSome, IfOk, slice_index};
ghost use Rattle.epoch_tags.specs.declared.actor.Actor.{Actor as Actor'};
ghost use Rattle.epoch_tags.specs.Links.{HasLink};
ghost use Rattle.trace_law.specs.Validity.{IsValidInput, IsValidSetting};
ghost use Rattle.actor_core.specs.Lists.{no_lists};
ghost use Rattle.actor_core.specs.Numbers.{cast_of, count_of};
ghost use Rattle.actor_core.specs.Tasks.{task_of};
ghost use Rattle.ring_runtime.specs.Wiring.{AreNewSeats, IsNewSeat};
ghost use Rattle.ring_runtime.specs.Bouts.{StandsFor, given_in, lists_in, outlet_of};

use crate::bouts::RingSeats;
use crate::inlets::Inlets;
use crate::outlets::Outlets;
use crate::seat::RingSeat;
use crate::wiring::wire_all;
use actor_core::{Cast, core_at};
use std::alloc::{AllocError, Global};
use trace_law::{Input, Setting};

// The seat of the actor with this number, which has no end of any ring yet.
fn seat_at<'a>(
    alloc: Global,
    input: &'a Input,
    setting: &Setting,
    n: u32,
) -> Result<RingSeat<'a>, AllocError>
    requires input { IsValidInput input.now }
    requires setting { IsValidSetting setting.now }
    ensures { IfOk result (λ seat. IsNewSeat (task_of input.now setting.now) n seat) }
{
    let cast = Cast::of(setting);
    let count = cast.count();
    let actor = cast.actor_at(n);
    let ins = Inlets::new(alloc, count)?;
    let outs = Outlets::new(alloc, count)?;
    let core = core_at(alloc, input, setting, n)?;
    Ok(RingSeat::new(alloc, cast, actor, core, ins, outs))
}

// The seats of all actors, with no ring.
fn new_seats<'a>(
    alloc: Global,
    input: &'a Input,
    setting: &Setting,
) -> Result<Vec<RingSeat<'a>>, AllocError>
    requires input { IsValidInput input.now }
    requires setting { IsValidSetting setting.now }
    ensures { IfOk result (λ seats. AreNewSeats (task_of input.now setting.now)
        (count_of (cast_of setting.now)) seats.items) }
{
    let mut seats = Vec::new(alloc);
    for n in 0..Cast::of(setting).count() {
        seats.push(seat_at(alloc, input, setting, n)?)?;
    }
    Ok(seats)
}

impl<'a> RingSeats<'a> {
    /// The seats of all actors of a run before its first event: the feeders', the joiners', the controller's and the
    /// collector's, joined by a ring of 64 places for each link. The seats borrow the input. All memory that the rings
    /// need is taken here.
    pub fn start(
        alloc: Global,
        input: &'a Input,
        setting: &Setting,
    ) -> Result<RingSeats<'a>, AllocError>
        requires input { IsValidInput input.now }
        requires setting { IsValidSetting setting.now }
        ensures stands { IfOk result (StandsFor (task_of input.now setting.now)) }
        ensures empty { IfOk result (λ seats. (a : Actor') → lists_in seats a ≡ no_lists) }
        ensures links { IfOk result (λ seats. (from to : Actor') → (IsSome (outlet_of seats from to)
            ↔ HasLink setting.now.k setting.now.feeders from to)) }
        ensures given { IfOk result (λ seats. (j : ℕ) → j < 2 ^ setting.now.k
            → slice_index (given_in seats) j ≡ 0) }
        ensures at_work { IfOk result (λ seats. seats.spent ≡ false) }
    {
        let cast = Cast::of(setting);
        let mut seats = new_seats(alloc, input, setting)?;
        wire_all(alloc, &mut seats, cast)?;
        Ok(RingSeats {
            alloc,
            cast,
            seats,
            spent: false,
        })
    }
}
