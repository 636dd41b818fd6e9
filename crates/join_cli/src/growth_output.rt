// The output of a run of several waves with a growth.

ghost use Rattle.std.specs.Prelude.{◌≡◌, ◌++◌, IfOk, OnOk, Some};
ghost use Rattle.row_cells.specs.declared.table.Side.TheVariants.{R as R', S as S'};
ghost use Rattle.trace_law.specs.Join.{row_count};
ghost use Rattle.join_words.specs.Words.{asked};
ghost use Rattle.join_cli.specs.Courses.{by_run};
ghost use Rattle.join_cli.specs.Ends.{course_of};
ghost use Rattle.join_cli.specs.Grown.{bare_grown_report_of, placed_at};
ghost use Rattle.join_cli.specs.GrownSteps.{FitsGrid, IsGrownReportable, MayGrow};
ghost use Rattle.join_cli.specs.Kinds.{AreSeveralWaves};
ghost use Rattle.join_cli.specs.Steps.{IsMadeUpto};
ghost use Rattle.join_cli.specs.Works.{IsWorkOf};
ghost use Rattle.join_cli.specs.WaveSteps.{AreFewWaves};
ghost use Rattle.join_cli.specs.WaveTexts.{lines_of};

use crate::growth::{Grown, grown_waves};
use crate::in_one::journal_of_both;
use crate::outcome::Outcome;
use crate::output::Joined;
use crate::texts::{add, bytes_of, journal_of};
use crate::wave_output::lines;
use crate::work::Work;
use grid_map::{Shape, Weights, copies};
use join_plan::WaveEnd;
use join_report::{GrownRun, grown_report_text};
use join_words::Options;
use load_controller::TurnLine;
use row_cells::Bytes;
use std::alloc::{AllocError, Global};
use std::sync::Wait;
use std::thread::Threads;
use worker_gate::Gate;

/// How many tuples the joiners of a grid of this shape have stored together at this line.
fn placed(shape: Shape, line: TurnLine) -> u64
    requires { FitsGrid shape line }
    ensures { result ≡ placed_at shape line }
{
    copies(shape, Weights { r: 1, s: 1 }, line.rows_r, line.rows_s)
}

/// The report over both grids where it is asked for, and else no bytes.
fn report_of_both(
    alloc: Global,
    options: &Options<'_>,
    work: &Work<'_>,
    grown: &Grown,
) -> Result<Bytes, AllocError>
    requires { IsGrownReportable work.now.setting.now grown.now }
    ensures { IfOk result (λ lines. lines
        ≡ bare_grown_report_of options.now.report work.now.setting.now
        (row_count work.now.input.now R') (row_count work.now.input.now S')
        grown.now.before grown.now.line grown.now.since) }
{
    if !options.report {
        return Ok(Bytes::new(alloc));
    }
    let shape = Shape {
        k: work.setting.k + 2,
        shift: grown.line.shift,
    };
    let run = GrownRun {
        before: &grown.before,
        shape,
        placed: placed(shape, grown.line),
        after: &grown.since,
    };
    let rows_r = work.input.table_r.rows.len();
    let rows_s = work.input.table_s.rows.len();
    let text = grown_report_text(alloc, work.setting, rows_r, rows_s, &run)?;
    Ok(bytes_of(text))
}

/// Appends the lines of the pairs since the growth, and then the report where it is asked for.
fn add_since(
    alloc: Global,
    options: &Options<'_>,
    work: &Work<'_>,
    grown: &Grown,
    text: &mut Bytes,
) -> Result<(), AllocError>
    requires { IsGrownReportable work.now.setting.now grown.now }
    ensures { OnOk result (text.new
        ≡ (text.old ++ lines_of options.now.rows work.now.input.now grown.now.since.pairs)
        ++ bare_grown_report_of options.now.report work.now.setting.now
        (row_count work.now.input.now R') (row_count work.now.input.now S')
        grown.now.before grown.now.line grown.now.since) }
{
    add(
        text,
        lines(alloc, options, work.input, grown.since.pairs.as_slice())?,
    )?;
    add(text, report_of_both(alloc, options, work, grown)?)
}

/// The lines of all waves' pairs, and then the report where it is asked for.
fn text_of_both(
    alloc: Global,
    options: &Options<'_>,
    work: &Work<'_>,
    grown: &Grown,
) -> Result<Bytes, AllocError>
    requires { IsGrownReportable work.now.setting.now grown.now }
    ensures { IfOk result (λ text. text
        ≡ (lines_of options.now.rows work.now.input.now grown.now.before.pairs
        ++ lines_of options.now.rows work.now.input.now grown.now.since.pairs)
        ++ bare_grown_report_of options.now.report work.now.setting.now
        (row_count work.now.input.now R') (row_count work.now.input.now S')
        grown.now.before grown.now.line grown.now.since) }
{
    let mut text = lines(alloc, options, work.input, grown.before.pairs.as_slice())?;
    match add_since(alloc, options, work, grown, &mut text) {
        Ok(()) => Ok(text),
        Err(refused) => {
            drop(text);
            Err(refused)
        }
    }
}

/// The output with this text, of these waves.
fn joined_of(text: Bytes, grown: Grown) -> Result<Joined, AllocError>
    ensures { IfOk result (λ joined. (joined.text ≡ text) × (course_of joined.done
        ≡ Some (by_run (grown.before.journal ++ grown.since.journal) grown.trail))) }
{
    let Grown {
        before,
        since,
        trail,
        ..
    } = grown;
    let more = journal_of(since);
    let both = journal_of_both(journal_of(before), &more);
    drop(more);
    match both {
        Ok(journal) => {
            let done = Outcome::Done { journal, trail };
            Ok(Joined { text, done })
        }
        Err(refused) => {
            drop(text);
            drop(trail);
            Err(refused)
        }
    }
}

/// The output that the options ask for of several waves that end there, with a growth behind so many of them.
pub(crate) fn grown_output<R: Threads + Wait + Sync, G: Gate + Sync>(
    rt: &R,
    alloc: Global,
    options: &Options<'_>,
    work: &Work<'_>,
    wave: u32,
    ends: &[WaveEnd],
    gate: &G,
) -> Result<Joined, AllocError>
    requires kind { AreSeveralWaves (Some wave) options.now.kind }
    requires work { IsWorkOf (asked options.now) work.now }
    requires grows { MayGrow work.now.setting.now }
    requires ends { AreFewWaves work.now.input.now ends.now }
    ensures { IfOk result (IsMadeUpto (asked options.now) work.now.input.now ends.now) }
{
    let grown = grown_waves(rt, alloc, work, wave, ends, gate)?;
    match text_of_both(alloc, options, work, &grown) {
        Ok(text) => joined_of(text, grown),
        Err(refused) => {
            drop(grown);
            Err(refused)
        }
    }
}
