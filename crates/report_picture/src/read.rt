// A report's numbers, read back from its text: the text of the report that it comes nearest to is compared with it.

ghost use Rattle.std.specs.Prelude.{◌≡◌, ◌≢◌, ◌≤◌, ◌<◌, ◌+◌, ℕ, Err, IfOk, take};
ghost use Rattle.report_lines.specs.declared.report_numbers.Report.{Report as TheReport};
ghost use Rattle.report_lines.specs.Grids.{IsWhole};
ghost use Rattle.report_picture.specs.Texts.{EndsWithReport, MayBegin, feeds_in};
ghost use Rattle.report_picture.specs.Reading.{NumbersFit};
ghost use Rattle.report_picture.specs.declared.error.ReportError.TheVariants.{Line};

use crate::error::ReportError;
use crate::find::{alike, ends_with, line_at, report_start};
use crate::nearest::nearest;
use report_lines::Report;
use std::alloc::Global;

/// The report that a text ends with. Lines before it are passed over: it begins at the last line
/// that begins with `input `. A report has at most 65,536 `grid` lines, and as many behind a `grow` line.
pub fn read_report(alloc: Global, text: &[u8]) -> Result<Report, ReportError>
    ensures ok { IfOk result (EndsWithReport text.now) }
    ensures whole { IfOk result IsWhole }
    ensures line { (line : ℕ) → result ≡ Err (Line line)
        → (0 < line) × (line ≤ feeds_in text.now + 1) }
    ensures behind { (line place : ℕ) → result ≡ Err (Line line) → MayBegin text.now place
        → feeds_in (take place text.now) < line }
    ensures missing { (line : ℕ) → result ≡ Err (Line line)
        → ((place : ℕ) → MayBegin text.now place → ⊥) → line ≡ feeds_in text.now + 1 }
    ensures complete { (report : TheReport) (line : ℕ) → IsWhole report → NumbersFit report
        → EndsWithReport text.now report → result ≢ Err (Line line) }
    ensures same { (report : TheReport) → IsWhole report → NumbersFit report
        → EndsWithReport text.now report → IfOk result (λ read. read ≡ report) }
{
    let start = report_start(text);
    let rest = &text[start..];
    let report = nearest(alloc, rest)?;
    let wanted = report.text(alloc)?;
    if ends_with(text, start, wanted.as_bytes()) {
        return Ok(report);
    }
    let place = start + alike(rest, wanted.as_bytes());
    let line = line_at(text, place);
    Err(ReportError::Line { line })
}
