// The predicates that the words ask for.

ghost use Rattle.std.specs.Prelude.{◌≡◌, ◌≤◌, ℕ, Option, Some, option_map, Result, Ok};
ghost use Rattle.std.specs.Prelude.{IfErr, IfOk, IfSome};
ghost use Rattle.theta_tree.specs.Grammar.{Tree};
ghost use Rattle.theta_tree.specs.Sizes.{longest_sum};
ghost use Rattle.theta_tree.specs.Texts.{IsFaultOf, TextReads, limits, tree_of};
ghost use Rattle.theta_tree.specs.declared.fault.PredFault.{PredFault};
ghost use Rattle.text_readings.specs.Readings.{IsReading};
ghost use Rattle.join_rows.specs.Shelves.{Spot, Told};
ghost use Rattle.join_words.specs.Words.{Asked, AskedChain, asked, chain_of};
ghost use Rattle.join_plan.specs.Causes.{IsTextOf, Refuses};
ghost use Rattle.join_plan.specs.Texts.{AreNarrow, AreRead, HasFurther, HaveTrees, IsReadFurther};
ghost use Rattle.join_plan.specs.Texts.{ReadAll, Readings, Reads, ReadsFurther};
ghost use Rattle.join_plan.specs.Texts.{RefusesText, trees_in};

use crate::fault::Refusal;
use crate::refusal_of_fault::{Which, text_refused};
use join_words::Options;
use std::alloc::Global;
use theta_text::parse;
use theta_tree::Pred;

/// The predicate, and that of a second join, where one is asked for.
#[derive(Drop)]
pub(crate) struct Preds {
    pub(crate) on: Pred,
    pub(crate) further: Option<Pred>,
}

/// The predicate of a text.
fn predicate(alloc: Global, which: Which, text: &str) -> Result<Pred, Refusal>
    ensures answer { (reading : Result Tree PredFault) → IsReading limits text.now reading
        → Reads which reading result }
    ensures early { (fault : PredFault) → IsFaultOf limits text.now fault
        → RefusesText which fault result }
    ensures reads { IfOk result (λ pred. TextReads limits text.now (tree_of pred)) }
    ensures narrow { IfOk result (λ pred. longest_sum pred ≤ 16) }
    ensures refused { (old new : ℕ) (told : Told) (spot : Spot) (asked : Asked)
        → IsTextOf which text.now asked → IfErr result (Refuses old new told spot asked) }
{
    match parse(alloc, text) {
        Ok(pred) => Ok(pred),
        Err(fault) => Err(text_refused(which, fault)),
    }
}

/// The predicate of a second join, where one is asked for.
fn further(alloc: Global, options: &Options<'_>) -> Result<Option<Pred>, Refusal>
    ensures answer { (reading : Option (Result Tree PredFault))
        → IsReadFurther (chain_of (asked options.now).kind) reading → ReadsFurther reading result }
    ensures early { (chain : AskedChain) (fault : PredFault)
        → chain_of (asked options.now).kind ≡ Some chain → IsFaultOf limits chain.on fault
        → RefusesText Which.Then fault result }
    ensures reads { IfOk result (λ pred.
        HasFurther (chain_of (asked options.now).kind) (option_map tree_of pred)) }
    ensures narrow { IfOk result (λ pred. IfSome pred (λ pred. longest_sum pred ≤ 16)) }
    ensures refused { (old new : ℕ) (told : Told) (spot : Spot)
        → IfErr result (Refuses old new told spot (asked options.now)) }
{
    let Some(chain) = options.kind.chain() else {
        return Ok(None);
    };
    match predicate(alloc, Which::Then, chain.on) {
        Ok(pred) => Ok(Some(pred)),
        Err(refusal) => Err(refusal),
    }
}

/// A predicate, and that of a second join, where one is asked for.
fn with_further(alloc: Global, options: &Options<'_>, on: Pred) -> Result<Preds, Refusal>
    requires reads { TextReads limits options.now.on.now (tree_of on) }
    requires narrow { longest_sum on ≤ 16 }
    ensures answer { (readings : Readings) → readings.on ≡ Ok (tree_of on)
        → IsReadFurther (chain_of (asked options.now).kind) readings.further
        → ReadAll readings result }
    ensures early { (chain : AskedChain) (fault : PredFault)
        → chain_of (asked options.now).kind ≡ Some chain → IsFaultOf limits chain.on fault
        → RefusesText Which.Then fault result }
    ensures have { IfOk result (λ preds. HaveTrees (asked options.now) (trees_in preds)) }
    ensures narrow { IfOk result AreNarrow }
    ensures refused { (old new : ℕ) (told : Told) (spot : Spot)
        → IfErr result (Refuses old new told spot (asked options.now)) }
{
    match further(alloc, options) {
        Ok(further) => Ok(Preds { on, further }),
        Err(refusal) => Err(refusal),
    }
}

/// The predicates of the texts, or the refusal of the first text that is none.
pub(crate) fn predicates(alloc: Global, options: &Options<'_>) -> Result<Preds, Refusal>
    ensures answer { (readings : Readings) → AreRead (asked options.now) readings
        → ReadAll readings result }
    ensures early { (fault : PredFault) → IsFaultOf limits options.now.on.now fault
        → RefusesText Which.On fault result }
    ensures further_early { (tree : Tree) (chain : AskedChain) (fault : PredFault)
        → TextReads limits options.now.on.now tree
        → chain_of (asked options.now).kind ≡ Some chain → IsFaultOf limits chain.on fault
        → RefusesText Which.Then fault result }
    ensures have { IfOk result (λ preds. HaveTrees (asked options.now) (trees_in preds)) }
    ensures narrow { IfOk result AreNarrow }
    ensures refused { (old new : ℕ) (told : Told) (spot : Spot)
        → IfErr result (Refuses old new told spot (asked options.now)) }
{
    match predicate(alloc, Which::On, options.on) {
        Ok(on) => with_further(alloc, options, on),
        Err(refusal) => Err(refusal),
    }
}
