ghost use Rattle.std.specs.Prelude.{◌≡◌, ◌<◌, ◌≤◌, ◌^◌, [], length, IfOk};
ghost use Rattle.trace_law.specs.Validity.{IsValidSetting};
ghost use Rattle.join_report.specs.Report.{AreWithin};

use super::has_text;
use crate::runs::run_of;
use grid_map::Weights;
use join_report::{report_of_run, report_text};
use report_lines::Report;
use row_tickets::Feed;
use std::alloc::{AllocError, Global};
use std::process::Abort;
use std::test::Fail;
use trace_law::{Run, Setting};

// The report of a run that nobody needs any more.
fn report_of(
    alloc: Global,
    setting: &Setting,
    rows_r: u64,
    rows_s: u64,
    run: Run,
) -> Result<String, AllocError>
    requires setting { IsValidSetting setting.now }
    requires shifts { AreWithin setting.now.k run.journal }
    requires steps { length run.moved < 2 ^ 32 }
    requires rows_r { rows_r ≤ 2 ^ 32 }
    requires rows_s { rows_s ≤ 2 ^ 32 }
{
    let text = report_text(alloc, setting, rows_r, rows_s, &run);
    drop(run);
    text
}

// Eight rows a side in a grid of four that goes to shift 0 and back.
fn report_of_steps(alloc: Global) -> Result<String, AllocError> {
    let setting = Setting {
        k: 2,
        feeders: 1,
        workers: 4,
        batch: 4,
        feed: Feed::RFirst,
        fixed: None,
        weights: Weights { r: 1, s: 1 },
    };
    let run = run_of(
        alloc,
        &[16, 16, 16, 16],
        &[(4, 4), (4, 4), (4, 4), (4, 4)],
        &[0, 8],
        2,
        &[(0, 1), (1, 0), (1, 0), (2, 1)],
    )?;
    report_of(alloc, &setting, 8, 8, run)
}

#[test]
fn a_report_tells_of_steps_and_joiners(rt: HostRuntime) -> Result<(), Fail> {
    let text = report_of_steps(rt.alloc())?;
    let wanted =
        "input 8 8\ngrid 1 4 1 moved 0\ngrid 2 2 2 moved 8\nfinal 2 2 copies 32 best 32\njoiner 0 held 4 4 made 16\njoiner 1 held 4 4 made 16\njoiner 2 held 4 4 made 16\njoiner 3 held 4 4 made 16\n";
    has_text(&rt, text.as_str(), wanted);
    drop(text);
    Ok(())
}

// Three rows a side in a grid of four that stays at shift 0.
fn fixed_run(alloc: Global) -> Result<Run, AllocError>
    ensures moved { IfOk result (λ run. run.moved ≡ []) }
    ensures journal { IfOk result (λ run. AreWithin 2 run.journal) }
{
    run_of(
        alloc,
        &[0, 2, 1, 0],
        &[(0, 3), (1, 3), (2, 3), (0, 3)],
        &[],
        2,
        &[],
    )
}

// Its report where a row of R weighs so much.
fn fixed_report(alloc: Global, weight_r: u32) -> Result<String, AllocError>
    requires some { 1 ≤ weight_r }
    requires few { weight_r ≤ 1024 }
{
    let setting = Setting {
        k: 2,
        feeders: 2,
        workers: 4,
        batch: 64,
        feed: Feed::Alternate,
        fixed: Some(0),
        weights: Weights { r: weight_r, s: 1 },
    };
    report_of(alloc, &setting, 3, 3, fixed_run(alloc)?)
}

fn wanted_of_fixed(alloc: Global, costs: &str) -> Result<String, AllocError> {
    let joiners =
        "joiner 0 held 0 3 made 0\njoiner 1 held 1 3 made 2\njoiner 2 held 2 3 made 1\njoiner 3 held 0 3 made 0\n";
    format!(in alloc; "input 3 3\nfinal 4 1 {costs}\n{joiners}")
}

fn has_fixed_text(rt: &impl Abort, text: &str, wanted: &str, weight_r: u32) {
    assert!(rt; text == wanted, "rows of R weigh {weight_r}");
}

fn tells_fixed(
    rt: &impl Abort,
    alloc: Global,
    text: &str,
    weight_r: u32,
    costs: &str,
) -> Result<(), AllocError> {
    let wanted = wanted_of_fixed(alloc, costs)?;
    has_fixed_text(rt, text, wanted.as_str(), weight_r);
    drop(wanted);
    Ok(())
}

fn reports_fixed(
    rt: &impl Abort,
    alloc: Global,
    weight_r: u32,
    costs: &str,
) -> Result<(), AllocError>
    requires some { 1 ≤ weight_r }
    requires few { weight_r ≤ 1024 }
{
    let text = fixed_report(alloc, weight_r)?;
    let outcome = tells_fixed(rt, alloc, text.as_str(), weight_r, costs);
    drop(text);
    outcome
}

// A heavy side R changes what is best, and nothing else.
#[test]
fn a_fixed_grid_has_no_steps(rt: HostRuntime) -> Result<(), Fail> {
    reports_fixed(&rt, rt.alloc(), 1, "copies 15 best 12")?;
    reports_fixed(&rt, rt.alloc(), 4, "copies 24 best 24")?;
    Ok(())
}

// What the report of the same grid tells, as a value.
fn told_of_fixed(alloc: Global) -> Result<Report, AllocError> {
    let setting = Setting {
        k: 2,
        feeders: 2,
        workers: 4,
        batch: 64,
        feed: Feed::Alternate,
        fixed: Some(0),
        weights: Weights { r: 1, s: 1 },
    };
    let run = fixed_run(alloc)?;
    let report = report_of_run(alloc, &setting, 3, 3, &run);
    drop(run);
    report
}

#[test]
fn a_report_is_a_value(rt: HostRuntime) -> Result<(), Fail> {
    let report = told_of_fixed(rt.alloc())?;
    assert!(rt; report.x == 3 && report.y == 3);
    assert!(rt; report.n == 4 && report.m == 1);
    assert!(rt; report.copies == 15 && report.best == 12);
    assert!(rt; report.steps.len() == 0 && report.growth.is_none());
    assert!(rt; report.joiners.len() == 4);
    drop(report);
    Ok(())
}

// Eight rows a side, those of R twice as heavy, in a grid that goes to shift 0 and stays there.
fn report_of_weights(alloc: Global) -> Result<String, AllocError> {
    let setting = Setting {
        k: 2,
        feeders: 1,
        workers: 4,
        batch: 4,
        feed: Feed::RFirst,
        fixed: None,
        weights: Weights { r: 2, s: 1 },
    };
    let run = run_of(
        alloc,
        &[16, 16, 16, 16],
        &[(2, 8), (2, 8), (2, 8), (2, 8)],
        &[0],
        2,
        &[(0, 1), (1, 0), (1, 0)],
    )?;
    report_of(alloc, &setting, 8, 8, run)
}

#[test]
fn a_heavy_side_counts_its_weight(rt: HostRuntime) -> Result<(), Fail> {
    let text = report_of_weights(rt.alloc())?;
    let wanted =
        "input 8 8\ngrid 1 4 1 moved 0\nfinal 4 1 copies 48 best 48\njoiner 0 held 2 8 made 16\njoiner 1 held 2 8 made 16\njoiner 2 held 2 8 made 16\njoiner 3 held 2 8 made 16\n";
    has_text(&rt, text.as_str(), wanted);
    drop(text);
    Ok(())
}
