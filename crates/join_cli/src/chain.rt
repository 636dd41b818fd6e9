// The output of a second join, of the joined rows with a third table.

ghost use Rattle.std.specs.Prelude.{◌≡◌, ◌++◌, [], ◌∷◌, IfErr, IfOk, OnOk, is_some, length};
ghost use Rattle.std.specs.Prelude.{string_bytes, true};
ghost use Rattle.join_words.specs.Words.{asked, chain_of};
ghost use Rattle.join_cli.specs.Chain.{IsStopped, IsThirdOver, bare_text, third_of};
ghost use Rattle.join_cli.specs.Chain.{triple_line, triple_lines};
ghost use Rattle.join_cli.specs.ChainSteps.{FitReports, HasParts, IsChainedOf};
ghost use Rattle.join_cli.specs.Plan.{bare_report_of, report_asked};
ghost use Rattle.join_cli.specs.Steps.{IsChained};
ghost use Rattle.join_cli.specs.Works.{IsWorkOf};

use crate::outcome::Outcome;
use crate::output::Joined;
use crate::texts::{add, bare_report, bytes_of, journal_of, report};
use crate::work::Work;
use chain_join::{ChainFault, ChainRun, Triple, run_chain};
use join_plan::{LimitFault, Third};
use join_runtime::{Ends, Told, Trail};
use join_words::Options;
use load_controller::Journal;
use row_cells::Bytes;
use std::alloc::{AllocError, Global};
use std::sync::Wait;
use std::thread::Threads;
use worker_gate::Gate;

/// Adds the line of a triple.
fn write_triple(text: &mut String, triple: Triple) -> Result<(), AllocError>
    ensures { OnOk result (string_bytes text.new ≡ string_bytes text.old ++ triple_line triple) }
{
    let i = u64::from(triple.i) + 1;
    let j = u64::from(triple.j) + 1;
    let l = u64::from(triple.l) + 1;
    write!(text, "{i},{j},{l}\n")
}

/// A line for each triple, in their order: the numbers of its rows, counted from 1.
fn triples_text(alloc: Global, triples: &[Triple]) -> Result<String, AllocError>
    ensures { IfOk result (λ text. string_bytes text ≡ triple_lines triples.now) }
{
    let mut text = String::new(alloc);
    for triple in triples {
        write_triple(&mut text, *triple)?;
    }
    Ok(text)
}

/// The text of a chain's output, the journals of its two runs, and what their seats left.
#[derive(Drop)]
struct Chained {
    text: Bytes,
    first: Journal,
    second: Journal,
    trail: Trail,
}

/// Appends the reports of both runs where they are asked for: the second over as many joined rows as the first has
/// pairs, and over so many rows of the third table.
fn add_reports(
    alloc: Global,
    options: &Options<'_>,
    work: &Work<'_>,
    run: &ChainRun,
    rows: u64,
    text: &mut Bytes,
) -> Result<(), AllocError>
    requires { FitReports work.now rows run.now }
    ensures { OnOk result (text.new ≡ (text.old ++ report_asked options.now.report
        work.now.input.now work.now.setting.now run.now.first.run.journal)
        ++ bare_report_of options.now.report work.now.setting.now
        (length run.now.first.run.pairs) rows run.now.second.run) }
{
    add(text, report(alloc, options, work, &run.first.run)?)?;
    let joined = run.first.run.pairs.len();
    add(
        text,
        bare_report(alloc, options, work, joined, rows, &run.second.run)?,
    )
}

/// The lines of all triples, and then the reports of both runs where they are asked for: the second over as many
/// joined rows as the first has pairs, and over so many rows of the third table.
fn text_of_chain(
    alloc: Global,
    options: &Options<'_>,
    work: &Work<'_>,
    run: &ChainRun,
    rows: u64,
) -> Result<Bytes, AllocError>
    requires { FitReports work.now rows run.now }
    ensures { IfOk result (λ text. text ≡ bare_text options.now.report
        work.now.input.now work.now.setting.now rows run.now) }
{
    let mut text = bytes_of(triples_text(alloc, run.triples.as_slice())?);
    match add_reports(alloc, options, work, run, rows, &mut text) {
        Ok(()) => Ok(text),
        Err(refused) => {
            drop(text);
            Err(refused)
        }
    }
}

/// Appends the ends of two runs.
fn add_both(trail: &mut Trail, first: Ends, second: Ends) -> Result<(), AllocError>
    ensures { OnOk result (trail.new ≡ (trail.old ++ first ∷ []) ++ second ∷ []) }
{
    match trail.push(first) {
        Ok(()) => trail.push(second),
        Err(refused) => {
            drop(second);
            Err(refused)
        }
    }
}

/// A trail of the ends of two runs.
fn trail_of_both(alloc: Global, first: Ends, second: Ends) -> Result<Trail, AllocError>
    ensures { IfOk result (λ trail. trail ≡ first ∷ second ∷ []) }
{
    let mut trail = Trail::new(alloc);
    match add_both(&mut trail, first, second) {
        Ok(()) => Ok(trail),
        Err(refused) => {
            drop(trail);
            Err(refused)
        }
    }
}

/// The journal of a run, and what its seats left.
fn parts(told: Told) -> (Journal, Ends)
    ensures journal { result.0 ≡ told.run.journal }
    ensures ends { result.1 ≡ told.ends }
{
    let Told { run, ends } = told;
    (journal_of(run), ends)
}

/// A chain's journals and trail, beside this text.
fn with_text(alloc: Global, text: Bytes, run: ChainRun) -> Result<Chained, AllocError>
    ensures { IfOk result (HasParts text run) }
{
    let ChainRun {
        triples,
        first,
        second,
    } = run;
    drop(triples);
    let (first, ends_first) = parts(first);
    let (second, ends_second) = parts(second);
    match trail_of_both(alloc, ends_first, ends_second) {
        Ok(trail) => Ok(Chained {
            text,
            first,
            second,
            trail,
        }),
        Err(refused) => {
            drop(text);
            drop(first);
            drop(second);
            Err(refused)
        }
    }
}

/// What a chain's runs come to.
fn chained_of(
    alloc: Global,
    options: &Options<'_>,
    work: &Work<'_>,
    run: ChainRun,
    rows: u64,
) -> Result<Chained, AllocError>
    requires { FitReports work.now rows run }
    ensures { IfOk result (HasParts (bare_text options.now.report
        work.now.input.now work.now.setting.now rows run) run) }
{
    match text_of_chain(alloc, options, work, &run, rows) {
        Ok(text) => with_text(alloc, text, run),
        Err(refused) => {
            drop(run);
            Err(refused)
        }
    }
}

/// The two runs of a chain over this input and a third table, and the text of its output, or why there is none.
fn run_both<R: Threads + Wait + Sync, G: Gate + Sync>(
    rt: &R,
    alloc: Global,
    options: &Options<'_>,
    work: &Work<'_>,
    third: Third,
    gate: &G,
) -> Result<Chained, Outcome>
    requires { IsThirdOver work.now.input.now third }
    ensures chained { IfOk result
        (IsChainedOf options.now.report options.now.seed work.now (third_of third)) }
    ensures stopped { IfErr result (IsStopped work.now.input.now) }
{
    let rows = third.table.rows.len();
    let third = chain_join::Third {
        table: third.table,
        theta: third.theta,
    };
    match run_chain(
        rt,
        alloc,
        work.input,
        third,
        work.setting,
        options.seed,
        gate,
    ) {
        Ok(run) => match chained_of(alloc, options, work, run, rows) {
            Ok(chained) => Ok(chained),
            Err(AllocError) => Err(Outcome::Memory),
        },
        Err(ChainFault::Between { pairs }) => Err(Outcome::Limit(LimitFault::Between { pairs })),
        Err(ChainFault::Memory) => Err(Outcome::Memory),
    }
}

/// The output that the options ask for of a second join, with this third table, or why there is none.
pub(crate) fn chain_output<R: Threads + Wait + Sync, G: Gate + Sync>(
    rt: &R,
    alloc: Global,
    options: &Options<'_>,
    work: &Work<'_>,
    third: Third,
    gate: &G,
) -> Result<Joined, Outcome>
    requires kind { is_some (chain_of (asked options.now).kind) ≡ true }
    requires work { IsWorkOf (asked options.now) work.now }
    requires third { IsThirdOver work.now.input.now third }
    ensures { IsChained (asked options.now) work.now.input.now third result }
{
    match run_both(rt, alloc, options, work, third, gate) {
        Ok(chained) => Ok(Joined {
            text: chained.text,
            done: Outcome::DoneChain {
                first: chained.first,
                second: chained.second,
                trail: chained.trail,
            },
        }),
        Err(outcome) => Err(outcome),
    }
}
