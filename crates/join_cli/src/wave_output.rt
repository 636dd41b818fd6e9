// The output of a run of several waves.

ghost use Rattle.std.specs.Prelude.{◌≡◌, ◌++◌, IfOk, OnOk, None};
ghost use Rattle.row_cells.specs.declared.table.Side.TheVariants.{R as R', S as S'};
ghost use Rattle.trace_law.specs.Join.{row_count};
ghost use Rattle.join_words.specs.Words.{asked};
ghost use Rattle.join_cli.specs.Kinds.{AreSeveralWaves};
ghost use Rattle.join_cli.specs.Plan.{bare_report_of};
ghost use Rattle.join_cli.specs.Steps.{IsMadeUpto, IsReportable};
ghost use Rattle.join_cli.specs.Works.{IsWorkOf};
ghost use Rattle.join_cli.specs.WaveSteps.{AreFewWaves};
ghost use Rattle.join_cli.specs.WaveTexts.{lines_of};

use crate::outcome::Outcome;
use crate::output::Joined;
use crate::texts::{add, bare_report, bytes_of, journal_of};
use crate::waves::{Waved, all_waves};
use crate::work::Work;
use epoch_tags::Pair;
use join_plan::WaveEnd;
use join_report::{pairs_text, rows_text};
use join_words::Options;
use link_trace::{Input, Run};
use row_cells::Bytes;
use std::alloc::{AllocError, Global};
use std::sync::Wait;
use std::thread::Threads;
use worker_gate::Gate;

/// The lines of pairs: the numbers of their rows, or the rows themselves.
pub(crate) fn lines(
    alloc: Global,
    options: &Options<'_>,
    input: &Input,
    pairs: &[Pair],
) -> Result<Bytes, AllocError>
    ensures { IfOk result (λ lines. lines ≡ lines_of options.now.rows input.now pairs.now) }
{
    if options.rows {
        rows_text(alloc, &input.table_r.rows, &input.table_s.rows, pairs)
    } else {
        Ok(bytes_of(pairs_text(alloc, pairs)?))
    }
}

/// Appends the report of all waves in one where it is asked for.
fn add_report(
    alloc: Global,
    options: &Options<'_>,
    work: &Work<'_>,
    run: &Run,
    text: &mut Bytes,
) -> Result<(), AllocError>
    requires { IsReportable work.now run.now }
    ensures { OnOk result (text.new ≡ text.old
        ++ bare_report_of options.now.report work.now.setting.now
        (row_count work.now.input.now R') (row_count work.now.input.now S') run.now) }
{
    let rows_r = work.input.table_r.rows.len();
    let rows_s = work.input.table_s.rows.len();
    add(
        text,
        bare_report(alloc, options, work, rows_r, rows_s, run)?,
    )
}

/// The lines of all waves' pairs, and then the report of all waves in one where it is asked for.
fn text_of_waves(
    alloc: Global,
    options: &Options<'_>,
    work: &Work<'_>,
    run: &Run,
) -> Result<Bytes, AllocError>
    requires { IsReportable work.now run.now }
    ensures { IfOk result (λ text. text ≡ lines_of options.now.rows work.now.input.now run.now.pairs
        ++ bare_report_of options.now.report work.now.setting.now
        (row_count work.now.input.now R') (row_count work.now.input.now S') run.now) }
{
    let mut text = lines(alloc, options, work.input, run.pairs.as_slice())?;
    match add_report(alloc, options, work, run, &mut text) {
        Ok(()) => Ok(text),
        Err(refused) => {
            drop(text);
            Err(refused)
        }
    }
}

/// The output that the options ask for of several waves that end there, without a growth.
pub(crate) fn waves_output<R: Threads + Wait + Sync, G: Gate + Sync>(
    rt: &R,
    alloc: Global,
    options: &Options<'_>,
    work: &Work<'_>,
    ends: &[WaveEnd],
    gate: &G,
) -> Result<Joined, AllocError>
    requires kind { AreSeveralWaves None options.now.kind }
    requires work { IsWorkOf (asked options.now) work.now }
    requires ends { AreFewWaves work.now.input.now ends.now }
    ensures { IfOk result (IsMadeUpto (asked options.now) work.now.input.now ends.now) }
{
    let Waved { run, trail, rest } = all_waves(rt, alloc, work, ends, gate)?;
    gate.let_go(rest);
    match text_of_waves(alloc, options, work, &run) {
        Ok(text) => {
            let journal = journal_of(run);
            let done = Outcome::Done { journal, trail };
            Ok(Joined { text, done })
        }
        Err(refused) => {
            drop(run);
            drop(trail);
            Err(refused)
        }
    }
}
