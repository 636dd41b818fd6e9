// Tables, and the predicates over their headers.

ghost use Rattle.std.specs.Prelude.{◌≡◌, ◌⊎◌, ◌+◌, ◌≤◌, ℕ, Ok, Err, IfErr, IfOk, IfSome, is_some, length, option_map};
ghost use Rattle.theta_tree.specs.Sizes.{longest_sum};
ghost use Rattle.theta_tree.specs.Texts.{tree_of};
ghost use Rattle.join_rows.specs.Records.{IsTable};
ghost use Rattle.join_rows.specs.Shelves.{Spot, Told};
ghost use Rattle.join_words.specs.Words.{Asked, chain_of};
ghost use Rattle.join_plan.specs.Causes.{HasText, Refuses};
ghost use Rattle.join_plan.specs.Plan;
ghost use Rattle.join_plan.specs.Plan.{IsFit, IsThirdFit, fitted as fitted', planned_with, second_theta as second_theta', third_fitted, third_over};
ghost use Rattle.join_plan.specs.Texts.{AreNarrow, trees_in};
ghost use Rattle.join_plan.specs.Waves.{AreEnds};

use crate::columns::theta;
use crate::fault::Refusal;
use crate::files::{Gathered, Tables};
use crate::numbers::number_fault;
use crate::predicate::Preds;
use crate::refusal_of_fault::Which;
use crate::waves::WaveEnds;
use joined_rows::joined_names;
use row_cells::Table;
use std::alloc::{AllocError, Global};
use theta_pred::Theta;
use theta_tree::Pred;

/// The third table of a second join, and its predicate, whose side R are the joined rows.
#[derive(Drop)]
pub struct Third {
    pub table: Table,
    pub theta: Theta,
}

/// Two tables with the rows of all waves and the ends of these, a predicate over them, and the third table of a second
/// join, where one is asked for.
#[derive(Drop)]
pub struct Planned {
    pub tables: Tables,
    pub ends: WaveEnds,
    pub theta: Theta,
    pub third: Option<Third>,
}

/// Refuses a cell that is to be a number and is none.
fn checked(planned: Planned) -> Result<Planned, Refusal>
    requires { IsFit planned }
    ensures answer { result ≡ Plan.checked planned }
    ensures fit { IfOk result IsFit }
    ensures third { IfOk result (λ checked. is_some checked.third ≡ is_some planned.third) }
    ensures ends { IfOk result (λ checked. checked.ends ≡ planned.ends) }
    ensures refused { (old new : ℕ) (told : Told) (spot : Spot) (asked : Asked)
        → IfErr result (Refuses old new told spot asked) }
{
    match number_fault(&planned) {
        Some(fault) => {
            drop(planned);
            Err(Refusal::Input(fault))
        }
        None => Ok(planned),
    }
}

/// The predicate over the joined header and that of the third table, or its first wrong name.
fn second_theta(
    alloc: Global,
    tables: &Tables,
    pred: &Pred,
    table: &Table,
) -> Result<Theta, Refusal>
    requires { longest_sum pred.now ≤ 16 }
    ensures answer { (result ≡ Err Refusal.Memory)
        ⊎ (result ≡ second_theta' tables.now (tree_of pred.now) table.now) }
    ensures found { IfOk result (λ theta.
        second_theta' tables.now (tree_of pred.now) table.now ≡ Ok theta) }
    ensures refused { (old new : ℕ) (told : Told) (spot : Spot) (asked : Asked)
        → HasText Which.Then asked → IfErr result (Refuses old new told spot asked) }
    ensures width_r { IfOk result (λ theta. theta.width_r
        ≡ length tables.now.of_r.names + length tables.now.of_s.names) }
    ensures width_s { IfOk result (λ theta. theta.width_s ≡ length table.now.names) }
{
    match joined_names(alloc, &tables.of_r.names, &tables.of_s.names) {
        Ok(names) => {
            let theta = theta(alloc, Which::Then, pred, &names, &table.names);
            drop(names);
            theta
        }
        Err(AllocError) => Err(Refusal::Memory),
    }
}

/// The third table with its predicate, or the predicate's first wrong name.
fn third_of(alloc: Global, tables: &Tables, pred: &Pred, table: Table) -> Result<Third, Refusal>
    requires narrow { longest_sum pred.now ≤ 16 }
    requires whole { IsTable table }
    ensures answer { (result ≡ Err Refusal.Memory)
        ⊎ (result ≡ third_over tables.now (tree_of pred.now) table) }
    ensures found { IfOk result
        (λ third. third_over tables.now (tree_of pred.now) table ≡ Ok third) }
    ensures refused { (old new : ℕ) (told : Told) (spot : Spot) (asked : Asked)
        → HasText Which.Then asked → IfErr result (Refuses old new told spot asked) }
    ensures fit { IfOk result (IsThirdFit tables.now) }
{
    match second_theta(alloc, tables, pred, &table) {
        Ok(theta) => Ok(Third { table, theta }),
        Err(refusal) => {
            drop(table);
            Err(refusal)
        }
    }
}

/// The third table with its predicate, where there are both.
fn fitted_third(
    alloc: Global,
    tables: &Tables,
    further: &Option<Pred>,
    table: Option<Table>,
) -> Result<Option<Third>, Refusal>
    requires narrow { IfSome further.now (λ pred. longest_sum pred ≤ 16) }
    requires whole { IfSome table IsTable }
    requires both { is_some further.now ≡ is_some table }
    ensures answer { (result ≡ Err Refusal.Memory)
        ⊎ (result ≡ third_fitted tables.now (option_map tree_of further.now) table) }
    ensures found { IfOk result (λ third.
        third_fitted tables.now (option_map tree_of further.now) table ≡ Ok third) }
    ensures refused { (old new : ℕ) (told : Told) (spot : Spot) (asked : Asked)
        → is_some (chain_of asked.kind) ≡ is_some table
        → IfErr result (Refuses old new told spot asked) }
    ensures fit { IfOk result (λ third. IfSome third (IsThirdFit tables.now)) }
    ensures third { IfOk result (λ third. is_some third ≡ is_some table) }
{
    let Some(pred) = further else {
        return Ok(None);
    };
    let Some(table) = table else {
        return Ok(None);
    };
    match third_of(alloc, tables, pred, table) {
        Ok(third) => Ok(Some(third)),
        Err(refusal) => Err(refusal),
    }
}

/// The plan of two tables and a predicate over them, with the third table and its predicate, where there are both.
fn planned_of(
    alloc: Global,
    tables: Tables,
    ends: WaveEnds,
    theta: Theta,
    further: &Option<Pred>,
    table: Option<Table>,
) -> Result<Planned, Refusal>
    requires narrow { IfSome further.now (λ pred. longest_sum pred ≤ 16) }
    requires whole { IfSome table IsTable }
    requires both { is_some further.now ≡ is_some table }
    requires table_r { IsTable tables.of_r }
    requires table_s { IsTable tables.of_s }
    requires ends { AreEnds tables ends }
    requires width_r { theta.width_r ≡ length tables.of_r.names }
    requires width_s { theta.width_s ≡ length tables.of_s.names }
    ensures answer { (result ≡ Err Refusal.Memory)
        ⊎ (result ≡ planned_with tables ends theta (option_map tree_of further.now) table) }
    ensures found { IfOk result (λ planned.
        planned_with tables ends theta (option_map tree_of further.now) table ≡ Ok planned) }
    ensures fit { IfOk result IsFit }
    ensures third { IfOk result (λ planned. is_some planned.third ≡ is_some table) }
    ensures ends { IfOk result (λ planned. planned.ends ≡ ends) }
    ensures refused { (old new : ℕ) (told : Told) (spot : Spot) (asked : Asked)
        → is_some (chain_of asked.kind) ≡ is_some table
        → IfErr result (Refuses old new told spot asked) }
{
    match fitted_third(alloc, &tables, further, table) {
        Ok(third) => checked(Planned {
            tables,
            ends,
            theta,
            third,
        }),
        Err(refusal) => {
            drop(tables);
            drop(ends);
            drop(theta);
            Err(refusal)
        }
    }
}

/// The plan of what was gathered, or the first name or cell that doesn't fit.
pub(crate) fn fitted(alloc: Global, preds: &Preds, found: Gathered) -> Result<Planned, Refusal>
    requires narrow { AreNarrow preds.now }
    requires whole_r { IsTable found.tables.of_r }
    requires whole_s { IsTable found.tables.of_s }
    requires ends { AreEnds found.tables found.ends }
    requires whole { IfSome found.third IsTable }
    requires both { is_some preds.now.further ≡ is_some found.third }
    ensures answer { (result ≡ Err Refusal.Memory)
        ⊎ (result ≡ fitted' (trees_in preds.now) found) }
    ensures found { IfOk result (λ planned. fitted' (trees_in preds.now) found ≡ Ok planned) }
    ensures fit { IfOk result IsFit }
    ensures third { IfOk result (λ planned. is_some planned.third ≡ is_some found.third) }
    ensures ends { IfOk result (λ planned. planned.ends ≡ found.ends) }
    ensures refused { (old new : ℕ) (told : Told) (spot : Spot) (asked : Asked)
        → is_some (chain_of asked.kind) ≡ is_some found.third
        → IfErr result (Refuses old new told spot asked) }
{
    let Gathered {
        tables,
        ends,
        third: table,
    } = found;
    match theta(
        alloc,
        Which::On,
        &preds.on,
        &tables.of_r.names,
        &tables.of_s.names,
    ) {
        Ok(theta) => planned_of(alloc, tables, ends, theta, &preds.further, table),
        Err(refusal) => {
            drop(tables);
            drop(ends);
            drop(table);
            Err(refusal)
        }
    }
}
