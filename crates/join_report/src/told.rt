// What the report of a run tells, as a value and as a text, and that of one whose joiners have split.

ghost use Rattle.std.specs.Prelude.{◌≡◌, ◌<◌, ◌≤◌, ◌+◌, ◌^◌, [], None as None', Some as Some', IfOk, length};
ghost use Rattle.std.specs.Prelude.{string_bytes};
ghost use Rattle.grid_map.specs.Load.{AreWeights};
ghost use Rattle.trace_law.specs.Validity.{IsValidSetting};
ghost use Rattle.join_report.specs.Report.{AreWithin, IsGrownWithin, grown_told, growth_told, joiner_told};
ghost use Rattle.join_report.specs.Report.{joiners_told, step_at as step_at', steps_told, told, told_at};
ghost use Rattle.join_report.specs.Report.{grown_report_of, report_of};

use crate::grids::{columns, first_grid, last_grid, least_copies, rows, shift_at};
use epoch_tags::Counts;
use grid_map::{Shape, Weights, copies};
use load_controller::Journal;
use pair_collector::{Held, Loads};
use report_lines::{Growth, Joiner, Joiners, Report, Step, Steps};
use std::alloc::{AllocError, Global};
use trace_law::{Run, Setting};

fn step_at(shape: Shape, moved: u64) -> Step
    requires shift { shape.shift ≤ shape.k }
    requires k { shape.k ≤ 8 }
    ensures { result ≡ step_at' shape.k shape.shift moved }
{
    let n = rows(shape);
    let m = columns(shape);
    Step { n, m, moved }
}

/// The steps of waves that begin at this grid and behind so many steps.
fn steps_of(
    alloc: Global,
    first: Shape,
    before: u64,
    journal: &Journal,
    moved: &Counts,
) -> Result<Steps, AllocError>
    requires first { first.shift ≤ first.k }
    requires k { first.k ≤ 8 }
    requires shifts { AreWithin first.k journal.now }
    requires few { before + length moved.now < 2 ^ 32 }
    ensures steps { IfOk result (λ steps. steps
        ≡ steps_told first.k first.shift before journal.now moved.now) }
    ensures count { IfOk result (λ steps. length steps ≡ length moved.now) }
{
    let mut steps = Steps::new(alloc);
    for place in 0..moved.len() {
        let epoch = before + place + 1;
        let shift = shift_at(journal, first.shift, epoch as u32);
        let shape = Shape { k: first.k, shift };
        let step = step_at(shape, *moved.at(place));
        steps.push(step)?;
    }
    Ok(steps)
}

fn growth_of(shape: Shape, placed: u64) -> Growth
    requires shift { shape.shift ≤ shape.k }
    requires k { shape.k ≤ 8 }
    ensures { result ≡ growth_told shape placed }
{
    let n = rows(shape);
    let m = columns(shape);
    Growth { n, m, placed }
}

fn joiner_of(held: Held, made: u64) -> Joiner
    ensures { result ≡ joiner_told held made }
{
    Joiner {
        rows_r: held.rows_r,
        rows_s: held.rows_s,
        made,
    }
}

/// The joiners by their ids, as far as both lists go.
fn joiners_of(alloc: Global, loads: &Loads, made: &Counts) -> Result<Joiners, AllocError>
    ensures { IfOk result (λ joiners. joiners ≡ joiners_told loads.now made.now) }
{
    let mut joiners = Joiners::new(alloc);
    let count = loads.len().min(made.len());
    for id in 0..count {
        let held = loads.at(id);
        let pairs = made.at(id);
        joiners.push(joiner_of(*held, *pairs))?;
    }
    Ok(joiners)
}

/// How the grid changed, as far as to its last shape.
struct Changes {
    steps: Steps,
    growth: Option<Growth>,
    later: Steps,
    last: Shape,
}

/// What is told of these changes.
fn report_at(
    weights: Weights,
    rows_r: u64,
    rows_s: u64,
    changes: Changes,
    joiners: Joiners,
) -> Report
    requires weights { AreWeights weights }
    requires rows_r { rows_r ≤ 2 ^ 32 }
    requires rows_s { rows_s ≤ 2 ^ 32 }
    requires shift { changes.last.shift ≤ changes.last.k }
    requires k { changes.last.k ≤ 8 }
    ensures { result ≡ told_at weights rows_r rows_s
        changes.steps changes.growth changes.later changes.last.k changes.last.shift joiners }
{
    let Changes {
        steps,
        growth,
        later,
        last,
    } = changes;
    Report {
        x: rows_r,
        y: rows_s,
        steps,
        growth,
        later,
        n: rows(last),
        m: columns(last),
        copies: copies(last, weights, rows_r, rows_s),
        best: least_copies(last, weights, rows_r, rows_s),
        joiners,
    }
}

/// What the report of a run of this setting tells, with `rows_r` rows of R and `rows_s` of S: these numbers; its steps;
/// its last grid with its copies and the fewest at any shift, each copy counting the weight of its side; and what each
/// joiner holds and made. Of the run's `made` and `loads`, what the longer one has past the end of the other is passed
/// over.
pub fn report_of_run(
    alloc: Global,
    setting: &Setting,
    rows_r: u64,
    rows_s: u64,
    run: &Run,
) -> Result<Report, AllocError>
    requires setting { IsValidSetting setting.now }
    requires shifts { AreWithin setting.now.k run.now.journal }
    requires steps { length run.now.moved < 2 ^ 32 }
    requires rows_r { rows_r ≤ 2 ^ 32 }
    requires rows_s { rows_s ≤ 2 ^ 32 }
    ensures told { IfOk result (λ report. report ≡ told setting.now rows_r rows_s run.now) }
    ensures few { IfOk result (λ report. length report.steps + length report.later < 2 ^ 32) }
{
    let first = first_grid(setting);
    let steps = steps_of(alloc, first, 0, &run.journal, &run.moved)?;
    let last = last_grid(first, &run.journal);
    let joiners = joiners_of(alloc, &run.loads, &run.made)?;
    let changes = Changes {
        steps,
        growth: None,
        later: Steps::new(alloc),
        last,
    };
    Ok(report_at(setting.weights, rows_r, rows_s, changes, joiners))
}

/// A run in several waves, between two of which each joiner split into four.
#[derive(Clone, Copy)]
pub struct GrownRun<'a> {
    /// The waves that the setting's own grid ran.
    pub before: &'a Run,
    /// The grid that the joiners split into.
    pub shape: Shape,
    /// How many tuples the new joiners were given.
    pub placed: u64,
    /// The waves since.
    pub after: &'a Run,
}

/// What the report of a grown run tells: the steps before the growth, and nothing else of the waves before it; the grid
/// that the joiners split into, and how many tuples the new ones were given; and of the waves since, the steps, the
/// last grid and the joiners. Each is as in `report_of_run`.
pub fn report_of_grown_run(
    alloc: Global,
    setting: &Setting,
    rows_r: u64,
    rows_s: u64,
    grown: &GrownRun<'_>,
) -> Result<Report, AllocError>
    requires setting { IsValidSetting setting.now }
    requires grown { IsGrownWithin setting.now.k grown.now }
    requires rows_r { rows_r ≤ 2 ^ 32 }
    requires rows_s { rows_s ≤ 2 ^ 32 }
    ensures told { IfOk result (λ report. report ≡ grown_told setting.now rows_r rows_s
        grown.now.before.now grown.now.shape grown.now.placed grown.now.after.now) }
    ensures few { IfOk result (λ report. length report.steps + length report.later < 2 ^ 32) }
{
    let GrownRun {
        before,
        shape,
        placed,
        after,
    } = *grown;
    let first = first_grid(setting);
    let steps = steps_of(alloc, first, 0, &before.journal, &before.moved)?;
    let earlier = before.moved.len();
    let later = steps_of(alloc, shape, earlier, &after.journal, &after.moved)?;
    let last = last_grid(shape, &after.journal);
    let joiners = joiners_of(alloc, &after.loads, &after.made)?;
    let changes = Changes {
        steps,
        growth: Some(growth_of(shape, placed)),
        later,
        last,
    };
    Ok(report_at(setting.weights, rows_r, rows_s, changes, joiners))
}

/// The report of a run of this setting, with `rows_r` rows of R and `rows_s` of S: the lines of what `report_of_run`
/// tells, as `report_lines` writes them.
pub fn report_text(
    alloc: Global,
    setting: &Setting,
    rows_r: u64,
    rows_s: u64,
    run: &Run,
) -> Result<String, AllocError>
    requires setting { IsValidSetting setting.now }
    requires shifts { AreWithin setting.now.k run.now.journal }
    requires steps { length run.now.moved < 2 ^ 32 }
    requires rows_r { rows_r ≤ 2 ^ 32 }
    requires rows_s { rows_s ≤ 2 ^ 32 }
    ensures { IfOk result (λ text.
        string_bytes text ≡ report_of setting.now rows_r rows_s run.now) }
{
    let report = report_of_run(alloc, setting, rows_r, rows_s, run)?;
    report.text(alloc)
}

/// The report of a grown run: the lines of what `report_of_grown_run` tells.
pub fn grown_report_text(
    alloc: Global,
    setting: &Setting,
    rows_r: u64,
    rows_s: u64,
    grown: &GrownRun<'_>,
) -> Result<String, AllocError>
    requires setting { IsValidSetting setting.now }
    requires grown { IsGrownWithin setting.now.k grown.now }
    requires rows_r { rows_r ≤ 2 ^ 32 }
    requires rows_s { rows_s ≤ 2 ^ 32 }
    ensures { IfOk result (λ text. string_bytes text ≡ grown_report_of setting.now rows_r rows_s
        grown.now.before.now grown.now.shape grown.now.placed grown.now.after.now) }
{
    let report = report_of_grown_run(alloc, setting, rows_r, rows_s, grown)?;
    report.text(alloc)
}
