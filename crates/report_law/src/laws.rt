// What `join_report` writes of a run is read by `report_picture`, each law as the contract of a function with an
// empty body.

ghost use Rattle.report_law.specs.Readable.{GrownReportableIsRead, ReportableIsRead, ReportsAreRead};

/// The report of a run of a valid input and setting is the lines of a whole report with the run's numbers, which fit
/// 64 bits. So, by its clauses, `read_report` takes each text of lines that ends with it, and reads those numbers,
/// unless memory runs out.
pub fn reports_are_read()
    ensures { ReportsAreRead }
{}

/// So is the report of each run with few rows and steps, no shift past the grid, the load and the pairs of each joiner,
/// and numbers that fit 64 bits.
pub fn reportable_is_read()
    ensures { ReportableIsRead }
{}

/// So is that of two such runs between which each joiner has split into four.
pub fn grown_reports_are_read()
    ensures { GrownReportableIsRead }
{}
