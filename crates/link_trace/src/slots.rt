// What can happen next in a run, in the order in which a replay looks at it.

ghost use Rattle.std.specs.Prelude.{◌≡◌, ◌≤◌, ◌++◌, ◌^◌, map, flat_map, OnOk, IfOk};
ghost use Rattle.std.specs.List.{range_with_len};
ghost use Rattle.epoch_tags.specs.declared.actor.Actor.TheVariants.{Feeder as Feeder', Controller as Controller'};
ghost use Rattle.link_trace.specs.declared.slots.Slot.TheVariants.{Begin as Begin', Link as Link'};
ghost use Rattle.link_trace.specs.Order as order;

use actor_core::joiners_of;
use epoch_tags::Actor;
use std::alloc::{AllocError, Global};
use trace_law::Setting;

/// One thing that can happen next.
#[derive(Clone, Copy, Debug, PartialEq, Eq)]
pub enum Slot {
    /// A feeder begins.
    Begin(u32),
    /// The first message from one actor to another is handed on.
    Link(Actor, Actor),
}

fn add_begins(slots: &mut Vec<Slot>, feeders: u32) -> Result<(), AllocError>
    ensures { OnOk result
        (slots.new.items ≡ slots.old.items ++ map Begin' (range_with_len 0 feeders)) }
{
    for p in 0..feeders {
        slots.push(Slot::Begin(p))?;
    }
    Ok(())
}

fn add_to_joiners(slots: &mut Vec<Slot>, p: u32, joiners: u32) -> Result<(), AllocError>
    ensures { OnOk result (slots.new.items ≡ slots.old.items ++ order.to_joiners joiners p) }
{
    for j in 0..joiners {
        slots.push(Slot::Link(Actor::Feeder(p), Actor::Joiner(j)))?;
    }
    Ok(())
}

fn add_feeders_to_joiners(
    slots: &mut Vec<Slot>,
    feeders: u32,
    joiners: u32,
) -> Result<(), AllocError>
    ensures { OnOk result (slots.new.items ≡ slots.old.items
        ++ flat_map (order.to_joiners joiners) (range_with_len 0 feeders)) }
{
    for p in 0..feeders {
        add_to_joiners(slots, p, joiners)?;
    }
    Ok(())
}

fn add_to_partners(slots: &mut Vec<Slot>, i: u32, k: u32) -> Result<(), AllocError>
    requires { k ≤ 8 }
    ensures { OnOk result (slots.new.items ≡ slots.old.items ++ order.to_partners k i) }
{
    for bit in 0..k {
        slots.push(Slot::Link(Actor::Joiner(i), Actor::Joiner(i ^ (1u32 << bit))))?;
    }
    Ok(())
}

fn add_joiners_to_partners(slots: &mut Vec<Slot>, joiners: u32, k: u32) -> Result<(), AllocError>
    requires { k ≤ 8 }
    ensures { OnOk result (slots.new.items ≡ slots.old.items
        ++ flat_map (order.to_partners k) (range_with_len 0 joiners)) }
{
    for i in 0..joiners {
        add_to_partners(slots, i, k)?;
    }
    Ok(())
}

fn add_controller_to_feeders(slots: &mut Vec<Slot>, feeders: u32) -> Result<(), AllocError>
    ensures { OnOk result (slots.new.items ≡ slots.old.items
        ++ map (λ p. Link' Controller' (Feeder' p)) (range_with_len 0 feeders)) }
{
    for p in 0..feeders {
        slots.push(Slot::Link(Actor::Controller, Actor::Feeder(p)))?;
    }
    Ok(())
}

fn add_feeders_to_controller(slots: &mut Vec<Slot>, feeders: u32) -> Result<(), AllocError>
    ensures { OnOk result (slots.new.items ≡ slots.old.items
        ++ map (λ p. Link' (Feeder' p) Controller') (range_with_len 0 feeders)) }
{
    for p in 0..feeders {
        slots.push(Slot::Link(Actor::Feeder(p), Actor::Controller))?;
    }
    Ok(())
}

fn add_from_joiners(slots: &mut Vec<Slot>, joiners: u32, to: Actor) -> Result<(), AllocError>
    ensures { OnOk result (slots.new.items ≡ slots.old.items ++ order.from_joiners joiners to) }
{
    for i in 0..joiners {
        slots.push(Slot::Link(Actor::Joiner(i), to))?;
    }
    Ok(())
}

/// All slots of a run: the feeders' beginnings; the links from each feeder to each joiner, from each joiner to those
/// whose id differs in one bit, lowest bit first, from the controller to each feeder, from each feeder and then from
/// each joiner to the controller, from each joiner to the collector. Actors rise.
pub(crate) fn slots_of(alloc: Global, setting: &Setting) -> Result<Vec<Slot>, AllocError>
    requires { setting.now.k ≤ 8 }
    ensures { IfOk result (λ slots. slots.items ≡ order.slots_of setting.now) }
{
    let joiners = joiners_of(setting);
    let mut slots = Vec::new(alloc);
    add_begins(&mut slots, setting.feeders)?;
    add_feeders_to_joiners(&mut slots, setting.feeders, joiners)?;
    add_joiners_to_partners(&mut slots, joiners, setting.k)?;
    add_controller_to_feeders(&mut slots, setting.feeders)?;
    add_feeders_to_controller(&mut slots, setting.feeders)?;
    add_from_joiners(&mut slots, joiners, Actor::Controller)?;
    add_from_joiners(&mut slots, joiners, Actor::Collector)?;
    Ok(slots)
}
