// The output of joiners in groups, each of which joins its part of R with all of S.

ghost use Rattle.std.specs.Prelude.{◌≡◌, ◌++◌, ◌<◌, ◌≤◌, ◌+◌, [], None, Some, All, IfOk, OnOk, if◌then◌else◌, length, map};
ghost use Rattle.trace_law.specs.Join.{nested_loop};
ghost use Rattle.group_split.specs.Parts.{part as part'};
ghost use Rattle.group_split.specs.Sizes.{digits as digits', numbers_of};
ghost use Rattle.join_words.specs.Words.{asked, members_of};
ghost use Rattle.join_cli.specs.Courses.{group_line, group_report, group_reports, groups_text};
ghost use Rattle.join_cli.specs.Dealt.{AreRunsFrom, IsRunOfGroup, MayDeal};
ghost use Rattle.join_cli.specs.Steps.{IsMadeOver};
ghost use Rattle.join_cli.specs.Works.{IsWorkOf};

use crate::outcome::{Journals, Outcome};
use crate::output::Joined;
use crate::texts::{add, answer, bytes_of, journal_of};
use crate::work::Work;
use crate::work_of_groups::Dealt;
use epoch_tags::Pair;
use group_split::{GroupsRun, Runs, digits, numbers, part, run_groups};
use join_report::report_text;
use join_words::Options;
use link_trace::{Run, Setting};
use row_cells::Bytes;
use std::alloc::{AllocError, Global};
use std::sync::Wait;
use std::thread::Threads;
use worker_gate::Gate;

/// The journals of these runs.
fn journals_of(alloc: Global, runs: Runs) -> Result<Journals, AllocError>
    ensures { IfOk result (λ journals. journals ≡ map (λ run. run.journal) runs) }
{
    let mut journals = Journals::new(alloc);
    for run in runs.into_vec() {
        if let Err(refused) = journals.push(journal_of(run)) {
            drop(journals);
            return Err(refused);
        }
    }
    Ok(journals)
}

/// How many rows of R a group joins.
fn rows_of_group(alloc: Global, dealt: &Dealt<'_>, group: u64) -> Result<u64, AllocError>
    ensures { IfOk result (λ count.
        count ≡ length (part' dealt.now.joiners dealt.now.numbers.now group)) }
{
    let rows = part(alloc, dealt.joiners, dealt.numbers, group)?;
    let count = rows.len();
    drop(rows);
    Ok(count)
}

/// The line before the report of a group, with its number and its size.
fn line_of_group(alloc: Global, group: u64, size: u64) -> Result<Bytes, AllocError>
    ensures { IfOk result (λ line. line ≡ group_line group size) }
{
    Ok(bytes_of(format!(in alloc; "group {group} {size}\n")?))
}

/// The report of a group of 2^exponent joiners, behind a line with its number and its size.
fn report_of_group(
    alloc: Global,
    dealt: &Dealt<'_>,
    group: u64,
    exponent: u32,
    run: &Run,
) -> Result<Bytes, AllocError>
    requires small { exponent < 7 }
    requires run { IsRunOfGroup dealt.now group exponent run.now }
    ensures { IfOk result (λ text. text ≡ group_report dealt.now.work.input.now dealt.now.joiners
        dealt.now.numbers.now dealt.now.work.setting.now group exponent run.now.journal) }
{
    let size = 1u64 << exponent;
    let setting = Setting {
        k: exponent,
        ..*dealt.work.setting
    };
    let rows_r = rows_of_group(alloc, dealt, group)?;
    let rows_s = dealt.work.input.table_s.rows.len();
    let mut text = line_of_group(alloc, group, size)?;
    match report_text(alloc, &setting, rows_r, rows_s, run) {
        Ok(lines) => match add(&mut text, bytes_of(lines)) {
            Ok(()) => Ok(text),
            Err(refused) => {
                drop(text);
                Err(refused)
            }
        },
        Err(refused) => {
            drop(text);
            Err(refused)
        }
    }
}

/// The reports of the groups from this one on, with these exponents.
fn reports_from(
    alloc: Global,
    dealt: &Dealt<'_>,
    group: u64,
    exponents: &[u64],
    runs: &[Run],
) -> Result<Bytes, AllocError>
    requires few { group + length exponents.now ≤ 64 }
    requires small { All (λ exponent. exponent < 7) exponents.now }
    requires runs { AreRunsFrom dealt.now group exponents.now runs.now }
    ensures { IfOk result (λ text. text ≡ group_reports dealt.now.work.input.now dealt.now.joiners
        dealt.now.numbers.now dealt.now.work.setting.now group exponents.now
        (map (λ run. run.journal) runs.now)) }
{
    let [exponent, exponents @ ..] = exponents else {
        return Ok(Bytes::new(alloc));
    };
    let [run, runs @ ..] = runs else {
        return Ok(Bytes::new(alloc));
    };
    let others = reports_from(alloc, dealt, group + 1, exponents, runs)?;
    match report_of_group(alloc, dealt, group, *exponent as u32, run) {
        Ok(mut text) => match add(&mut text, others) {
            Ok(()) => Ok(text),
            Err(refused) => {
                drop(text);
                Err(refused)
            }
        },
        Err(refused) => {
            drop(others);
            Err(refused)
        }
    }
}

/// The reports of all groups.
fn reports(alloc: Global, dealt: &Dealt<'_>, runs: &[Run]) -> Result<Bytes, AllocError>
    requires { AreRunsFrom dealt.now 0 (digits' dealt.now.joiners) runs.now }
    ensures { IfOk result (λ text. text ≡ group_reports dealt.now.work.input.now dealt.now.joiners
        dealt.now.numbers.now dealt.now.work.setting.now 0 (digits' dealt.now.joiners)
        (map (λ run. run.journal) runs.now)) }
{
    let exponents = digits(alloc, dealt.joiners)?;
    reports_from(alloc, dealt, 0, exponents.as_slice(), runs)
}

/// Appends the reports where they are asked for.
fn add_reports(
    alloc: Global,
    options: &Options<'_>,
    dealt: &Dealt<'_>,
    runs: &[Run],
    text: &mut Bytes,
) -> Result<(), AllocError>
    requires { AreRunsFrom dealt.now 0 (digits' dealt.now.joiners) runs.now }
    ensures { OnOk result (text.new ≡ text.old ++ (if options.now.report
        then group_reports dealt.now.work.input.now dealt.now.joiners dealt.now.numbers.now
        dealt.now.work.setting.now 0 (digits' dealt.now.joiners) (map (λ run. run.journal) runs.now)
        else [])) }
{
    if options.report {
        return add(text, reports(alloc, dealt, runs)?);
    }
    Ok(())
}

/// The text of the pairs, and then the reports where they are asked for.
fn text_of_groups(
    alloc: Global,
    options: &Options<'_>,
    dealt: &Dealt<'_>,
    pairs: &[Pair],
    runs: &[Run],
) -> Result<Bytes, AllocError>
    requires pairs { pairs.now ≡ nested_loop dealt.now.work.input.now }
    requires runs { AreRunsFrom dealt.now 0 (digits' dealt.now.joiners) runs.now }
    ensures { IfOk result (λ text. text ≡ groups_text (asked options.now)
        dealt.now.work.input.now dealt.now.work.setting.now dealt.now.joiners
        dealt.now.numbers.now (map (λ run. run.journal) runs.now)) }
{
    let mut text = answer(alloc, options, &dealt.work, pairs)?;
    match add_reports(alloc, options, dealt, runs, &mut text) {
        Ok(()) => Ok(text),
        Err(refused) => {
            drop(text);
            Err(refused)
        }
    }
}

/// That output over these numbers of R's rows.
fn output_of_dealt<R: Threads + Wait + Sync, G: Gate + Sync>(
    rt: &R,
    alloc: Global,
    options: &Options<'_>,
    dealt: &Dealt<'_>,
    gate: &G,
) -> Result<Joined, AllocError>
    requires kind { members_of (asked options.now).kind ≡ Some dealt.now.joiners }
    requires work { IsWorkOf (asked options.now) dealt.now.work }
    requires numbers { dealt.now.numbers.now ≡ numbers_of options.now.seed dealt.now.joiners
        (length dealt.now.work.input.now.table_r.rows) }
    requires some { 1 ≤ dealt.now.joiners }
    ensures { IfOk result (IsMadeOver (asked options.now) dealt.now.work.input.now) }
{
    let GroupsRun { pairs, runs, trail } = run_groups(
        rt,
        alloc,
        dealt.work.input,
        dealt.joiners,
        dealt.numbers,
        dealt.work.setting,
        gate,
    )?;
    let text = text_of_groups(alloc, options, dealt, pairs.as_slice(), runs.as_slice());
    drop(pairs);
    match text {
        Ok(text) => match journals_of(alloc, runs) {
            Ok(journals) => {
                let done = Outcome::DoneGroups { journals, trail };
                Ok(Joined { text, done })
            }
            Err(refused) => {
                drop(text);
                drop(trail);
                Err(refused)
            }
        },
        Err(refused) => {
            drop(runs);
            drop(trail);
            Err(refused)
        }
    }
}

/// The output that the options ask for of so many joiners in groups.
pub(crate) fn groups_output<R: Threads + Wait + Sync, G: Gate + Sync>(
    rt: &R,
    alloc: Global,
    options: &Options<'_>,
    joiners: u32,
    work: &Work<'_>,
    gate: &G,
) -> Result<Joined, AllocError>
    requires kind { members_of (asked options.now).kind ≡ Some joiners }
    requires work { IsWorkOf (asked options.now) work.now }
    requires deals { MayDeal work.now.setting.now joiners }
    ensures { IfOk result (IsMadeOver (asked options.now) work.now.input.now) }
{
    let rows = work.input.table_r.rows.len();
    let numbers = numbers(alloc, options.seed, joiners, rows)?;
    let dealt = Dealt {
        work: *work,
        joiners,
        numbers: &numbers,
    };
    let made = output_of_dealt(rt, alloc, options, &dealt, gate);
    drop(numbers);
    made
}
