// The join in groups.

ghost use Rattle.std.specs.Prelude.{◌≡◌, ◌++◌, ◌∷◌, ◌^◌, ◌<◌, ◌≤◌, [], None, All, IfOk, OnOk, IsPermutation, length, map};
ghost use Rattle.pair_collector.specs.Order.{InOrder};
ghost use Rattle.trace_law.specs.Join.{nested_loop};
ghost use Rattle.trace_law.specs.Validity.{IsValidInput, IsValidSetting};
ghost use Rattle.group_split.specs.Groups.{AreGroups};
ghost use Rattle.group_split.specs.Dealt.{IsDealt};
ghost use Rattle.group_split.specs.Joining.{AddsRun, HasJoined};
ghost use Rattle.group_split.specs.Parts.{IsPartOf, pair_in, setting_of_group};
ghost use Rattle.group_split.specs.Sizes.{digits};

use crate::pairing::add_pairs;
use crate::parts::{Dealt, give_part, no_part};
use crate::sizing::digits;
use epoch_tags::{Counts, Pairs};
use join_runtime::{Told, Trail, run};
use pair_collector::in_order;
use row_cells::Items;
use std::alloc::{AllocError, Global};
use std::sync::Wait;
use std::thread::Threads;
use trace_law::{Input, Run, Setting, begins_with_all, limits_suffice, sorts_into_the_loop};
use worker_gate::{EarlierGate, Gate};

pub type Runs = Items<Run>;

/// What a join in groups answers.
#[derive(Drop)]
pub struct GroupsRun {
    /// The pairs of all groups, by the row of R and then by the row of S.
    pub pairs: Pairs,
    /// The run of each group, in whose pairs R's rows have their numbers within the group, counted from 0.
    pub runs: Runs,
    /// What the actors of each group's run leave.
    pub trail: Trail,
}

// Of no group.
fn no_groups(alloc: Global) -> GroupsRun
    ensures { result ≡ record { pairs = []; runs = []; trail = [] } }
{
    GroupsRun {
        pairs: Pairs::new(alloc),
        runs: Runs::new(alloc),
        trail: Trail::new(alloc),
    }
}

// The same, its pairs in order.
fn ordered(found: GroupsRun) -> Result<GroupsRun, AllocError>
    ensures permutation { IfOk result (λ all. IsPermutation found.pairs all.pairs) }
    ensures order { IfOk result (λ all. InOrder all.pairs) }
    ensures runs { IfOk result (λ all. all.runs ≡ found.runs) }
    ensures trail { IfOk result (λ all. all.trail ≡ found.trail) }
{
    let GroupsRun { pairs, runs, trail } = found;
    Ok(GroupsRun {
        pairs: in_order(pairs.into_vec()?),
        runs,
        trail,
    })
}

// The setting of the group of this digit.
fn setting_at(setting: &Setting, place: u64) -> Setting
    requires { place < 7 }
    ensures { result ≡ setting_of_group setting.now place }
{
    Setting {
        k: place as u32,
        ..*setting
    }
}

// Adds a group's run, and its pairs by the numbers that its rows have in R.
fn add_told(found: &mut GroupsRun, indices: &Counts, told: Told) -> Result<(), AllocError>
    requires there { All (λ pair. pair.i < length indices.now) told.run.pairs }
    requires small { All (λ index. index < 2 ^ 32) indices.now }
    ensures pairs { OnOk result
        (found.new.pairs ≡ found.old.pairs ++ map (pair_in indices.now) told.run.pairs) }
    ensures runs { OnOk result (found.new.runs ≡ found.old.runs ++ told.run ∷ []) }
    ensures trail { OnOk result (found.new.trail ≡ found.old.trail ++ told.ends ∷ []) }
{
    let Told { run, ends } = told;
    add_pairs(&mut found.pairs, indices, &run.pairs)?;
    found.runs.push(run)?;
    found.trail.push(ends)
}

// Runs a group's input, whose rows of R have these indices, and adds what it answers.
fn run_part<R: Threads + Wait + Sync, G: Gate + Sync>(
    rt: &R,
    alloc: Global,
    group_input: &Input,
    indices: &Counts,
    setting: &Setting,
    gate: &G,
    found: &mut GroupsRun,
) -> Result<(), AllocError>
    requires input { IsValidInput group_input.now }
    requires setting { IsValidSetting setting.now }
    requires rows { length group_input.now.table_r.rows ≡ length indices.now }
    requires small { All (λ index. index < 2 ^ 32) indices.now }
    ensures { OnOk result (AddsRun group_input.now setting.now
        (map (pair_in indices.now) (nested_loop group_input.now)) found.old found.new) }
{
    limits_suffice();
    begins_with_all();
    let told = run(rt, alloc, group_input, setting, &EarlierGate::new(gate))?;
    add_told(found, indices, told)
}

// Joins all groups, whose digits these are, one after the other, each over `group_input` with its rows.
fn join_all<R: Threads + Wait + Sync, G: Gate + Sync>(
    rt: &R,
    alloc: Global,
    dealt: &Dealt<'_>,
    places: &Counts,
    setting: &Setting,
    gate: &G,
    group_input: &mut Input,
) -> Result<GroupsRun, AllocError>
    requires dealt { IsDealt dealt.now }
    requires setting { IsValidSetting setting.now }
    requires free { setting.now.fixed ≡ None }
    requires places { places.now ≡ digits dealt.now.joiners }
    requires small { All (λ place. place < 7) places.now }
    requires part { IsPartOf dealt.now.input.now group_input.old }
    ensures { IfOk result (λ found. HasJoined dealt.now.input.now dealt.now.joiners
        dealt.now.numbers.now setting.now (length (digits dealt.now.joiners)) found) }
{
    let mut found = no_groups(alloc);
    for group in 0..places.len() {
        let its = setting_at(setting, *places.at(group));
        let indices = give_part(alloc, dealt, group, group_input)?;
        run_part(rt, alloc, group_input, &indices, &its, gate, &mut found)?;
    }
    Ok(found)
}

// Makes the input that the groups have one after the other, and joins them all.
fn join_parts<R: Threads + Wait + Sync, G: Gate + Sync>(
    rt: &R,
    alloc: Global,
    dealt: &Dealt<'_>,
    setting: &Setting,
    gate: &G,
) -> Result<GroupsRun, AllocError>
    requires dealt { IsDealt dealt.now }
    requires setting { IsValidSetting setting.now }
    requires free { setting.now.fixed ≡ None }
    ensures { IfOk result (λ found. HasJoined dealt.now.input.now dealt.now.joiners
        dealt.now.numbers.now setting.now (length (digits dealt.now.joiners)) found) }
{
    let places = digits(alloc, dealt.joiners)?;
    let mut group_input = no_part(alloc, dealt.input)?;
    let joined = join_all(rt, alloc, dealt, &places, setting, gate, &mut group_input);
    drop(group_input);
    joined
}

/// Joins in groups of joiners, so many in all: a run for each group, over the rows of R whose number is of the group
/// and all of S, one run after the other. The setting's `k` isn't used. What it promises holds if it returns.
pub fn run_groups<R: Threads + Wait + Sync, G: Gate + Sync>(
    rt: &R,
    alloc: Global,
    input: &Input,
    joiners: u32,
    numbers: &Counts,
    setting: &Setting,
    gate: &G,
) -> Result<GroupsRun, AllocError>
    requires input { IsValidInput input.now }
    requires setting { IsValidSetting setting.now }
    requires free { setting.now.fixed ≡ None }
    requires some { 1 ≤ joiners }
    requires few { joiners ≤ 64 }
    requires many { length numbers.now ≡ length input.now.table_r.rows }
    requires below { All (λ number. number < joiners) numbers.now }
    ensures pairs { IfOk result (λ answer. answer.pairs ≡ nested_loop input.now) }
    ensures groups { IfOk result (λ answer.
        AreGroups input.now joiners numbers.now setting.now answer.runs answer.trail) }
{
    limits_suffice();
    begins_with_all();
    sorts_into_the_loop();
    let dealt = Dealt {
        input,
        joiners,
        numbers,
    };
    let found = join_parts(rt, alloc, &dealt, setting, gate)?;
    let all = ordered(found)?;
    Ok(all)
}
