// What a wave leaves for the next, and where a wave ends.

ghost use Rattle.std.specs.Prelude.{◌≡◌, ◌≤◌, ◌^◌, All, IfOk, length};
ghost use Rattle.std.specs.Option.{ForSome};
ghost use Rattle.trace_law.specs.declared.input.Input.{Input as Input'};
ghost use Rattle.trace_law.specs.declared.setting.Setting.{Setting as Setting'};
ghost use Rattle.trace_law.specs.Validity.{IsValid};
ghost use Rattle.trace_law.specs.Family.{first_rest};
ghost use Rattle.actor_core.specs.Rests.{IsFirstStore, IsRestOf, rest_of};

use crate::start::power;
use joiner_core::first_store;
use load_controller::{Cause, TurnLine};
use row_cells::Items;
use std::alloc::{AllocError, Global};
use store_parts::Store;
use theta_pred::Theta;

/// Where a wave ends: so many rows of each side, from the first on.
#[derive(Clone, Copy, Debug, PartialEq, Eq)]
pub struct Upto {
    pub rows_r: u64,
    pub rows_s: u64,
}

pub type Stores = Items<Store>;

/// What a wave leaves for the next: the controller's last line, and the store of each of 2^k joiners.
#[derive(Drop)]
pub struct Rest {
    pub k: u32,
    pub line: TurnLine,
    pub stores: Stores,
}

// So many stores with no tuples.
fn first_stores(alloc: Global, count: u32, theta: &Theta) -> Result<Stores, AllocError>
    ensures many { IfOk result (λ stores. length stores ≡ count) }
    ensures first { IfOk result (λ stores. All (IsFirstStore theta.now) stores) }
{
    let mut stores = Stores::new(alloc);
    for _ in 0..count {
        stores.push(first_store(alloc, theta)?)?;
    }
    Ok(stores)
}

impl Rest {
    /// What a run begins with, as the first of its waves: the line of a controller that has counted nothing, at the
    /// shift that is `fixed`, or else at half of k, and a store with no tuples for each of 2^k joiners.
    pub fn empty(
        alloc: Global,
        k: u32,
        fixed: Option<u32>,
        theta: &Theta,
    ) -> Result<Rest, AllocError>
        requires k { k ≤ 8 }
        requires fixed { ForSome fixed (λ shift. shift ≤ k) }
        ensures first { IfOk result (λ rest. (setting : Setting') → setting.k ≡ k
            → setting.fixed ≡ fixed → rest_of rest ≡ first_rest setting) }
        ensures epoch { IfOk result (λ rest. rest.line.epoch ≡ 0) }
        ensures stands { IfOk result (λ rest. (input : Input') (setting : Setting')
            → IsValid input setting → setting.k ≡ k → setting.fixed ≡ fixed
            → input.theta ≡ theta.now → IsRestOf input setting rest) }
    {
        let shift = fixed.unwrap_or(k / 2);
        let line = TurnLine {
            cause: Cause::Start,
            rows_r: 0,
            rows_s: 0,
            base_r: 0,
            base_s: 0,
            epoch: 0,
            shift,
            goal: shift,
            moving: false,
        };
        let stores = first_stores(alloc, power(k), theta)?;
        Ok(Rest { k, line, stores })
    }
}
