// The output that is asked for of a plan, made whole.

ghost use Rattle.std.specs.Prelude.{◌≡◌, false, is_some};
ghost use Rattle.join_words.specs.Words.{asked, chain_of, is_early};
ghost use Rattle.join_plan.specs.Plan.{IsFit};
ghost use Rattle.join_cli.specs.Steps.{IsAnswered, IsMadeOrHalted, IsThirdAsked};
ghost use Rattle.join_cli.specs.Works.{IsWorkOf};
ghost use Rattle.join_cli.specs.WaveSteps.{AreFewWaves};

use crate::chain::chain_output;
use crate::groups::groups_output;
use crate::growth_output::grown_output;
use crate::input::{input, setting};
use crate::outcome::Outcome;
use crate::rings::rings_output;
use crate::run::run_output;
use crate::wave_output::waves_output;
use crate::work::Work;
use join_plan::{Planned, Third, WaveEnd};
use join_words::{Kind, Options};
use row_cells::Bytes;
use std::alloc::{AllocError, Global};
use std::sync::Wait;
use std::thread::Threads;
use worker_gate::Gate;

/// The text of an output, and the outcome where it is written whole: how its run went.
#[derive(Drop)]
pub(crate) struct Joined {
    pub(crate) text: Bytes,
    pub(crate) done: Outcome,
}

/// The output that the options ask for of an input whose waves end there, by the kind of run, or why there is none.
fn output_over<R: Threads + Wait + Sync, G: Gate + Sync>(
    rt: &R,
    alloc: Global,
    options: &Options<'_>,
    work: &Work<'_>,
    ends: &[WaveEnd],
    third: Option<Third>,
    gate: &G,
) -> Result<Joined, Outcome>
    requires whole { is_early (asked options.now).kind ≡ false }
    requires work { IsWorkOf (asked options.now) work.now }
    requires ends { AreFewWaves work.now.input.now ends.now }
    requires third { IsThirdAsked (asked options.now) work.now.input.now third }
    ensures { IsAnswered (asked options.now) work.now.input.now ends.now third result }
{
    if let Some(third) = third {
        return chain_output(rt, alloc, options, work, third, gate);
    }
    match &options.kind {
        Kind::Waves { later, .. } if later.is_empty() => {
            match run_output(rt, alloc, options, work, gate) {
                Ok(joined) => Ok(joined),
                Err(AllocError) => Err(Outcome::Memory),
            }
        }
        Kind::Waves {
            grow: Some(wave),
            ..
        } => match grown_output(rt, alloc, options, work, *wave, ends, gate) {
            Ok(joined) => Ok(joined),
            Err(AllocError) => Err(Outcome::Memory),
        },
        Kind::Waves { .. } => match waves_output(rt, alloc, options, work, ends, gate) {
            Ok(joined) => Ok(joined),
            Err(AllocError) => Err(Outcome::Memory),
        },
        Kind::Groups { joiners } => {
            match groups_output(rt, alloc, options, *joiners, work, gate) {
                Ok(joined) => Ok(joined),
                Err(AllocError) => Err(Outcome::Memory),
            }
        }
        Kind::Rings { .. } => match rings_output(rt, alloc, options, work, gate) {
            Ok(joined) => Ok(joined),
            Err(AllocError) => Err(Outcome::Memory),
        },
        Kind::Chain { .. } | Kind::Early { .. } => unreachable!(),
    }
}

/// The output that the options ask for of a plan, or why there is none.
pub(crate) fn output<R: Threads + Wait + Sync, G: Gate + Sync>(
    rt: &R,
    alloc: Global,
    options: &Options<'_>,
    planned: Planned,
    gate: &G,
) -> Result<Joined, Outcome>
    requires whole { is_early (asked options.now).kind ≡ false }
    requires fit { IsFit planned }
    requires there { is_some planned.third ≡ is_some (chain_of (asked options.now).kind) }
    ensures { IsMadeOrHalted (asked options.now) planned result }
{
    let setting = setting(options);
    let Planned {
        tables,
        ends,
        theta,
        third,
    } = planned;
    match input(alloc, options.seed, tables, theta) {
        Ok(input) => {
            let work = Work {
                input: &input,
                setting: &setting,
                number: options.kind.replay(),
            };
            let made = output_over(rt, alloc, options, &work, ends.as_slice(), third, gate);
            gate.let_go(input);
            drop(ends);
            made
        }
        Err(AllocError) => {
            drop(ends);
            drop(third);
            Err(Outcome::Memory)
        }
    }
}
