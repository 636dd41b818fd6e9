// What the machines of a wave leave.

ghost use Rattle.std.specs.Prelude.{◌≡◌, ◌++◌, ◌∷◌, [], IfOk, IfSome, OnOk};
ghost use Rattle.actor_core.specs.declared.machines.Core.TheVariants.{Controller as TheController, Collector as TheCollector};
ghost use Rattle.actor_core.specs.Leavings.{AreLeft, AreStores, Gives, GivesStore};
ghost use Rattle.store_parts.specs.Stored.{Stored};

use crate::machines::Core;
use crate::rests::Stores;
use joiner_core::Joiner;
use load_controller::Controller;
use pair_collector::Collector;
use std::alloc::{AllocError, Global};
use store_parts::Store;

// The store of a joiner that isn't spent.
fn given_by(joiner: Joiner) -> Result<Store, AllocError>
    ensures { IfOk result (λ store. GivesStore joiner.entry store) }
{
    if joiner.is_spent() {
        drop(joiner);
        return Err(AllocError);
    }
    Ok(joiner.into_store())
}

// The store of a joiner's machine.
fn store_of(core: Core) -> Result<Store, AllocError>
    ensures { IfOk result (λ store. Gives core.entry store) }
{
    match core {
        Core::Joiner(joiner) => given_by(joiner),
        other => {
            drop(other);
            Err(AllocError)
        }
    }
}

// Appends the store of a joiner's machine.
fn add_store(core: Core, stores: &mut Stores) -> Result<(), AllocError>
    ensures { OnOk result ((given : Stored) × Gives core.entry given
        × (stores.new ≡ stores.old ++ given ∷ [])) }
{
    stores.push(store_of(core)?)?;
    Ok(())
}

// The stores of the machines behind so many, each of which is a joiner's.
fn stores_of<'a>(alloc: Global, feeders: u32, cores: Vec<Core<'a>>) -> Result<Stores, AllocError>
    ensures { IfOk result (λ stores. AreStores feeders cores.entry.items stores) }
{
    let mut stores = Stores::new(alloc);
    let mut before = feeders;
    for core in cores {
        if before > 0 {
            before -= 1;
            drop(core);
        } else {
            add_store(core, &mut stores)?;
        }
    }
    Ok(stores)
}

// Takes off the last two machines, where these are a controller's and a collector's.
fn last_two<'a>(cores: &mut Vec<Core<'a>>) -> Option<(Controller, Collector)>
    ensures { IfSome result (λ last. cores.old.items
        ≡ (cores.new.items ++ TheController last.0 ∷ []) ++ TheCollector last.1 ∷ []) }
{
    let collector = cores.pop()?.into_collector()?;
    let controller = cores.pop()?.into_controller()?;
    Some((controller, collector))
}

/// Of the machines of a wave with so many feeders that is over: the joiners' stores, by their numbers, the controller
/// and the collector.
pub fn machines_left<'a>(
    alloc: Global,
    feeders: u32,
    mut cores: Vec<Core<'a>>,
) -> Result<(Stores, Controller, Collector), AllocError>
    ensures { IfOk result (λ left. AreLeft feeders cores.entry.items left.0 left.1 left.2) }
{
    let Some((controller, collector)) = last_two(&mut cores) else {
        return Err(AllocError);
    };
    let stores = stores_of(alloc, feeders, cores)?;
    Ok((stores, controller, collector))
}
