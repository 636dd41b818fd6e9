// The stages in which what the words ask for is made ready, in the order of their refusals.

ghost use Rattle.std.specs.Prelude.{◌≡◌, ◌⊎◌, ◌<◌, ◌≤◌, ℕ, List, Option, Some, Err, IfErr, IfOk};
ghost use Rattle.join_rows.specs.Shelves.{last_fault};
ghost use Rattle.theta_tree.specs.Grammar.{Tree};
ghost use Rattle.theta_tree.specs.Texts.{IsFaultOf, TextReads, limits};
ghost use Rattle.theta_tree.specs.declared.fault.PredFault.{PredFault};
ghost use Rattle.join_words.specs.Words.{AskedChain, asked, chain_of};
ghost use Rattle.join_plan.specs.Causes.{Refuses};
ghost use Rattle.join_plan.specs.Later.{gathered_by};
ghost use Rattle.join_plan.specs.Plan.{IsAsked, IsFit, IsPlanOf, fitted as fitted'};
ghost use Rattle.join_plan.specs.Refusals.{then_of};
ghost use Rattle.join_plan.specs.Seen.{IsSeenPlan, PlanSeen};
ghost use Rattle.join_plan.specs.Texts.{AreNarrow, HaveTrees, RefusesText, trees_in};
ghost use Rattle.join_plan.specs.declared.refusal_of_fault.Which.TheVariants.{On, Then};

use crate::fault::Refusal;
use crate::files::all_tables;
use crate::fitting::{Planned, fitted};
use crate::predicate::{Preds, predicates};
use join_rows::Shelf;
use join_words::Options;
use std::alloc::Global;
use std::thread::Threads;

/// What the options ask for by these predicates, or the first refusal: of the files, of the
/// columns, of the numbers.
fn prepare_over<R: Threads, H: Shelf>(
    rt: &R,
    alloc: Global,
    options: &Options<'_>,
    preds: &Preds,
    shelf: &mut H,
) -> Result<Planned, Refusal>
    requires faults { H.faults shelf.old < last_fault }
    requires have { HaveTrees (asked options.now) (trees_in preds.now) }
    requires narrow { AreNarrow preds.now }
    ensures told { H.told shelf.new ≡ H.told shelf.old }
    ensures rises { H.faults shelf.old ≤ H.faults shelf.new }
    ensures answer { (files : List ℕ → Option (List ℕ)) → H.told shelf.old ≡ Some files
        → H.faults shelf.new ≡ H.faults shelf.old → (result ≡ Err Refusal.Memory)
        ⊎ (result ≡ then_of (gathered_by (asked options.now) files)
        (fitted' (trees_in preds.now))) }
    ensures seen { (result ≡ Err Refusal.Read → ⊥) → (result ≡ Err Refusal.Memory → ⊥)
        → PlanSeen (H.told shelf.old) (H.picked shelf.new) (asked options.now)
        (trees_in preds.now) result }
    ensures made { (count : ℕ) → options.now.make ≡ Some count → shelf.new ≡ shelf.old }
    ensures sound { H.sound shelf.old
        → H.sound shelf.new × (H.faults shelf.new ≡ H.faults shelf.old) }
    ensures asked { IfOk result (IsAsked (H.told shelf.old) (asked options.now)) }
    ensures fit { IfOk result IsFit }
    ensures refused { IfErr result (Refuses (H.faults shelf.old) (H.faults shelf.new)
        (H.told shelf.old) (H.picked shelf.new) (asked options.now)) }
    ensures counts { (result ≡ Err Refusal.Read → ⊥) → H.faults shelf.new ≡ H.faults shelf.old }
{
    match all_tables(rt, alloc, options, shelf) {
        Ok(found) => fitted(alloc, preds, found),
        Err(refusal) => Err(refusal),
    }
}

/// What the options ask for, or the first refusal: of the text of the predicate, of that of the
/// second, of the file of R, of that of S, of those of the later waves, of the third, of the columns,
/// of those of the second predicate, of the numbers, of those of the second predicate. A refusal of a
/// text comes before any call of the shelf, and where tables are made there is none.
pub fn prepare<R: Threads, H: Shelf>(
    rt: &R,
    alloc: Global,
    options: &Options<'_>,
    shelf: &mut H,
) -> Result<Planned, Refusal>
    requires faults { H.faults shelf.old < last_fault }
    ensures told { H.told shelf.new ≡ H.told shelf.old }
    ensures rises { H.faults shelf.old ≤ H.faults shelf.new }
    ensures answer { (files : List ℕ → Option (List ℕ)) → H.told shelf.old ≡ Some files
        → H.faults shelf.new ≡ H.faults shelf.old
        → (result ≡ Err Refusal.Memory) ⊎ IsPlanOf (asked options.now) files result }
    ensures seen { (result ≡ Err Refusal.Read → ⊥) → (result ≡ Err Refusal.Memory → ⊥)
        → IsSeenPlan (H.told shelf.old) (H.picked shelf.new) (asked options.now) result }
    ensures made { (count : ℕ) → options.now.make ≡ Some count → shelf.new ≡ shelf.old }
    ensures sound { H.sound shelf.old
        → H.sound shelf.new × (H.faults shelf.new ≡ H.faults shelf.old) }
    ensures early { (fault : PredFault) → IsFaultOf limits options.now.on.now fault
        → RefusesText On fault result × (shelf.new ≡ shelf.old) }
    ensures further_early { (tree : Tree) (chain : AskedChain) (fault : PredFault)
        → TextReads limits options.now.on.now tree
        → chain_of (asked options.now).kind ≡ Some chain → IsFaultOf limits chain.on fault
        → RefusesText Then fault result × (shelf.new ≡ shelf.old) }
    ensures asked { IfOk result (IsAsked (H.told shelf.old) (asked options.now)) }
    ensures fit { IfOk result IsFit }
    ensures refused { IfErr result (Refuses (H.faults shelf.old) (H.faults shelf.new)
        (H.told shelf.old) (H.picked shelf.new) (asked options.now)) }
    ensures counts { (result ≡ Err Refusal.Read → ⊥) → H.faults shelf.new ≡ H.faults shelf.old }
{
    match predicates(alloc, options) {
        Ok(preds) => {
            let planned = prepare_over(rt, alloc, options, &preds, shelf);
            drop(preds);
            planned
        }
        Err(refusal) => Err(refusal),
    }
}
