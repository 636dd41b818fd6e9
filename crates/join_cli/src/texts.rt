// The texts of a run: its pairs or the joined rows, and its report.

ghost use Rattle.std.specs.Prelude.{◌≡◌, ◌++◌, IfOk, OnOk, string_bytes};
ghost use Rattle.join_words.specs.Words.{asked};
ghost use Rattle.trace_law.specs.Join.{nested_loop};
ghost use Rattle.join_cli.specs.Plan.{answer_of, bare_report_of, report_asked, text_of};
ghost use Rattle.join_cli.specs.Steps.{FitsReport};
ghost use Rattle.join_cli.specs.Works.{IsWholeRun};

use crate::work::Work;
use epoch_tags::Pair;
use join_report::{pairs_text, report_text, rows_text, summary_text};
use join_words::Options;
use link_trace::Run;
use load_controller::Journal;
use row_cells::Bytes;
use std::alloc::{AllocError, Global};

/// The journal of a run.
pub(crate) fn journal_of(run: Run) -> Journal
    ensures { result ≡ run.journal }
{
    run.journal
}

/// These bytes.
pub(crate) fn bytes_of(text: String) -> Bytes
    ensures { result ≡ string_bytes text }
{
    Bytes::from_vec(text.into_bytes())
}

/// The text of the pairs: the numbers of their rows, or the rows themselves; of made tables a
/// summary.
pub(crate) fn answer(
    alloc: Global,
    options: &Options<'_>,
    work: &Work<'_>,
    pairs: &[Pair],
) -> Result<Bytes, AllocError>
    requires { pairs.now ≡ nested_loop work.now.input.now }
    ensures { IfOk result (λ text.
        text ≡ answer_of options.now.make options.now.rows work.now.input.now) }
{
    let rows_r = &work.input.table_r.rows;
    let rows_s = &work.input.table_s.rows;
    match options.make {
        Some(_) => Ok(bytes_of(summary_text(alloc, rows_r.len(), rows_s.len(), pairs)?)),
        None if options.rows => rows_text(alloc, rows_r, rows_s, pairs),
        None => Ok(bytes_of(pairs_text(alloc, pairs)?)),
    }
}

/// The report of a run over so many rows a side where it is asked for, and else no bytes.
pub(crate) fn bare_report(
    alloc: Global,
    options: &Options<'_>,
    work: &Work<'_>,
    rows_r: u64,
    rows_s: u64,
    run: &Run,
) -> Result<Bytes, AllocError>
    requires { FitsReport work.now.setting.now rows_r rows_s run.now }
    ensures { IfOk result (λ lines.
        lines ≡ bare_report_of options.now.report work.now.setting.now rows_r rows_s run.now) }
{
    if !options.report {
        return Ok(Bytes::new(alloc));
    }
    Ok(bytes_of(report_text(alloc, work.setting, rows_r, rows_s, run)?))
}

/// The report where one is asked for, and else no bytes.
pub(crate) fn report(
    alloc: Global,
    options: &Options<'_>,
    work: &Work<'_>,
    run: &Run,
) -> Result<Bytes, AllocError>
    requires { IsWholeRun work.now run.now }
    ensures { IfOk result (λ lines. lines ≡ report_asked options.now.report work.now.input.now
        work.now.setting.now run.now.journal) }
{
    let rows_r = work.input.table_r.rows.len();
    let rows_s = work.input.table_s.rows.len();
    bare_report(alloc, options, work, rows_r, rows_s, run)
}

/// Appends a text.
pub(crate) fn add(text: &mut Bytes, more: Bytes) -> Result<(), AllocError>
    ensures { OnOk result (text.new ≡ text.old ++ more) }
{
    let added = text.append(more.as_slice());
    drop(more);
    added
}

/// Appends the report where one is asked for.
fn add_report(
    alloc: Global,
    options: &Options<'_>,
    work: &Work<'_>,
    run: &Run,
    text: &mut Bytes,
) -> Result<(), AllocError>
    requires { IsWholeRun work.now run.now }
    ensures { OnOk result (text.new ≡ text.old ++ report_asked options.now.report
        work.now.input.now work.now.setting.now run.now.journal) }
{
    add(text, report(alloc, options, work, run)?)
}

/// The text of the pairs, and then the report where one is asked for.
pub(crate) fn text(
    alloc: Global,
    options: &Options<'_>,
    work: &Work<'_>,
    run: &Run,
) -> Result<Bytes, AllocError>
    requires { IsWholeRun work.now run.now }
    ensures { IfOk result (λ text. text ≡ text_of (asked options.now) work.now.input.now
        work.now.setting.now run.now.journal) }
{
    let mut text = answer(alloc, options, work, run.pairs.as_slice())?;
    match add_report(alloc, options, work, run, &mut text) {
        Ok(()) => Ok(text),
        Err(refused) => {
            drop(text);
            Err(refused)
        }
    }
}
