// The growth of a rest.

ghost use Rattle.std.specs.Prelude.{◌≡◌, ◌≢◌, ◌≤◌, ◌+◌, ◌^◌, All, None, length, IfOk};
ghost use Rattle.grid_map.specs.Load.{AreWeights};
ghost use Rattle.joiner_core.specs.State.{IsKeyOf};
ghost use Rattle.trace_law.specs.declared.input.Input.{Input as Input'};
ghost use Rattle.trace_law.specs.declared.setting.Setting.{Setting as Setting'};
ghost use Rattle.actor_core.specs.Rests.{IsRestOf};
ghost use Rattle.elastic_grow.specs.Growth as growth;
ghost use Rattle.elastic_grow.specs.Growth.{grown_setting, AreOfOne, AreOfParents};
ghost use Rattle.elastic_grow.specs.Stores.{AreKeptCopies, IsByIndex};

use crate::copies::{of_one, of_parents};
use crate::whole::whole;
use actor_core::{Rest, Stores};
use grid_map::{Shape, Weights, best_shift};
use load_controller::{Cause, TurnLine};
use std::alloc::{AllocError, Global};
use store_parts::Store;
use theta_pred::Theta;

// The line with which a wave begins in the grown grid.
fn grown_line(weights: Weights, k: u32, line: TurnLine) -> TurnLine
    requires weights { AreWeights weights }
    requires k { k ≤ 6 }
    requires shift { line.shift ≤ k }
    requires rows_r { line.rows_r ≤ 2 ^ 32 }
    requires rows_s { line.rows_s ≤ 2 ^ 32 }
    ensures line { result ≡ growth.grown_line weights k line }
    ensures within { result.shift ≤ k + 2 }
{
    let shape = Shape {
        k: k + 2,
        shift: line.shift + 1,
    };
    let shift = best_shift(shape, weights, line.rows_r, line.rows_s);
    TurnLine {
        cause: Cause::Wave,
        rows_r: line.rows_r,
        rows_s: line.rows_s,
        base_r: line.rows_r,
        base_s: line.rows_s,
        epoch: line.epoch,
        shift,
        goal: shift,
        moving: line.moving,
    }
}

// The stores, placed anew.
fn placed(
    alloc: Global,
    theta: &Theta,
    k: u32,
    old: u32,
    shift: u32,
    stores: &[Store],
) -> Result<Stores, AllocError>
    requires k { k ≤ 6 }
    requires old { old ≤ k }
    requires within { shift ≤ k + 2 }
    ensures { IfOk result (λ placed. AreOfOne theta.now k old shift stores.now placed) }
{
    let whole = whole(alloc, theta, k, old, stores)?;
    let parts = of_one(alloc, Shape { k: k + 2, shift }, &whole);
    drop(whole);
    parts
}

// The stores of the grown grid: parts of their parents' stores where the shift is one more, else placed anew.
fn grown_stores(
    alloc: Global,
    theta: &Theta,
    k: u32,
    old: u32,
    shift: u32,
    stores: &[Store],
) -> Result<Stores, AllocError>
    requires k { k ≤ 6 }
    requires old { old ≤ k }
    requires within { shift ≤ k + 2 }
    ensures parts { IfOk result (λ grown. shift ≡ old + 1
        → AreOfParents k old shift stores.now grown) }
    ensures anew { IfOk result (λ grown. shift ≢ old + 1
        → AreOfOne theta.now k old shift stores.now grown) }
{
    if shift == old + 1 {
        of_parents(alloc, Shape { k: k + 2, shift }, old, stores)
    } else {
        placed(alloc, theta, k, old, shift, stores)
    }
}

/// The rest with each joiner split into its four children. Where the best shift of the grown grid is one more, each
/// child's store is what it holds of its parent's; else the stores are placed anew, and their tuples stand by the
/// numbers of their rows, those of R before those of S.
pub fn grow(alloc: Global, rest: Rest, weights: Weights, theta: &Theta) -> Result<Rest, AllocError>
    requires k { rest.k ≤ 6 }
    requires weights { AreWeights weights }
    requires shift { rest.line.shift ≤ rest.k }
    requires rows_r { rest.line.rows_r ≤ 2 ^ 32 }
    requires rows_s { rest.line.rows_s ≤ 2 ^ 32 }
    requires many { length rest.stores ≡ 2 ^ rest.k }
    requires keys { All (λ store. IsKeyOf theta.now store.key) rest.stores }
    ensures k { IfOk result (λ grown. grown.k ≡ rest.k + 2) }
    ensures line { IfOk result (λ grown. grown.line ≡ growth.grown_line weights rest.k rest.line) }
    ensures copies { IfOk result (λ grown. grown.line.shift ≡ rest.line.shift + 1
        → AreKeptCopies rest.k rest.line.shift rest.stores grown.stores) }
    ensures order { IfOk result (λ grown. grown.line.shift ≢ rest.line.shift + 1
        → All IsByIndex grown.stores) }
    ensures stands { IfOk result (λ grown. (input : Input') (setting : Setting')
        → setting.fixed ≡ None → setting.weights ≡ weights → IsRestOf input setting rest
        → IsRestOf input (grown_setting setting) grown) }
{
    let line = grown_line(weights, rest.k, rest.line);
    let stores = grown_stores(
        alloc,
        theta,
        rest.k,
        rest.line.shift,
        line.shift,
        rest.stores.as_slice(),
    )?;
    Ok(Rest {
        k: rest.k + 2,
        line,
        stores,
    })
}
