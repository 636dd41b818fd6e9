ghost use Rattle.std.specs.Prelude.{◌≤◌, length};
ghost use Rattle.join_report.specs.Report.{AreWithin};

use super::has_text;
use crate::runs::run_of;
use grid_map::{Shape, Weights};
use join_report::{GrownRun, grown_report_text, report_of_grown_run};
use report_lines::Report;
use row_tickets::Feed;
use std::alloc::{AllocError, Global};
use std::test::Fail;
use trace_law::{Run, Setting};

// The report of two joiners that split into eight, which take a step to one row.
fn report_from_two(alloc: Global, before: &Run) -> Result<String, AllocError>
    requires moved { length before.now.moved ≤ 1 }
    requires journal { AreWithin 1 before.now.journal }
{
    let setting = Setting {
        k: 1,
        feeders: 1,
        workers: 2,
        batch: 4,
        feed: Feed::RFirst,
        fixed: None,
        weights: Weights { r: 1, s: 1 },
    };
    let after = run_of(
        alloc,
        &[3, 4],
        &[(1, 2), (1, 1)],
        &[8],
        3,
        &[(1, 2), (2, 3), (2, 3)],
    )?;
    let shape = Shape { k: 3, shift: 2 };
    let grown = GrownRun {
        before,
        shape,
        placed: 22,
        after: &after,
    };
    let text = grown_report_text(alloc, &setting, 1, 9, &grown);
    drop(after);
    text
}

// Before that they take a step to two columns.
fn report_of_two(alloc: Global) -> Result<String, AllocError> {
    let before = run_of(
        alloc,
        &[4, 4],
        &[(1, 4), (1, 4)],
        &[2],
        1,
        &[(0, 0), (1, 1)],
    )?;
    let text = report_from_two(alloc, &before);
    drop(before);
    text
}

#[test]
fn a_grown_report_counts_its_steps_on(rt: HostRuntime) -> Result<(), Fail> {
    let text = report_of_two(rt.alloc())?;
    let wanted =
        "input 1 9\ngrid 1 1 2 moved 2\ngrow 2 4 placed 22\ngrid 2 1 8 moved 8\nfinal 1 8 copies 17 best 17\njoiner 0 held 1 2 made 3\njoiner 1 held 1 1 made 4\n";
    has_text(&rt, text.as_str(), wanted);
    drop(text);
    Ok(())
}

// The report of one joiner that splits into four.
fn report_from_one(alloc: Global, before: &Run) -> Result<String, AllocError>
    requires moved { length before.now.moved ≤ 1 }
    requires journal { AreWithin 0 before.now.journal }
{
    let setting = Setting {
        k: 0,
        feeders: 1,
        workers: 1,
        batch: 64,
        feed: Feed::Alternate,
        fixed: None,
        weights: Weights { r: 1, s: 1 },
    };
    let after = run_of(
        alloc,
        &[1, 0, 0, 1],
        &[(1, 1), (1, 1), (1, 1), (1, 1)],
        &[],
        2,
        &[(0, 1), (0, 1)],
    )?;
    let shape = Shape { k: 2, shift: 1 };
    let grown = GrownRun {
        before,
        shape,
        placed: 8,
        after: &after,
    };
    let text = grown_report_text(alloc, &setting, 2, 2, &grown);
    drop(after);
    text
}

// It has two rows a side.
fn report_of_one(alloc: Global) -> Result<String, AllocError> {
    let before = run_of(alloc, &[1], &[(2, 2)], &[], 0, &[(0, 0), (0, 0)])?;
    let text = report_from_one(alloc, &before);
    drop(before);
    text
}

#[test]
fn a_grid_grows_without_a_step(rt: HostRuntime) -> Result<(), Fail> {
    let text = report_of_one(rt.alloc())?;
    let wanted =
        "input 2 2\ngrow 2 2 placed 8\nfinal 2 2 copies 8 best 8\njoiner 0 held 1 1 made 1\njoiner 1 held 1 1 made 0\njoiner 2 held 1 1 made 0\njoiner 3 held 1 1 made 1\n";
    has_text(&rt, text.as_str(), wanted);
    drop(text);
    Ok(())
}

// What is told of one joiner that splits into four, which hold nothing.
fn told_from_one(alloc: Global, run: &Run) -> Result<Report, AllocError>
    requires moved { length run.now.moved ≤ 1 }
    requires journal { AreWithin 0 run.now.journal }
{
    let setting = Setting {
        k: 0,
        feeders: 1,
        workers: 1,
        batch: 64,
        feed: Feed::Alternate,
        fixed: None,
        weights: Weights { r: 1, s: 1 },
    };
    let after = run_of(alloc, &[0], &[(0, 0)], &[], 2, &[(0, 1)])?;
    let shape = Shape { k: 2, shift: 1 };
    let grown = GrownRun {
        before: run,
        shape,
        placed: 8,
        after: &after,
    };
    let report = report_of_grown_run(alloc, &setting, 2, 2, &grown);
    drop(after);
    report
}

fn told_of_one(alloc: Global) -> Result<Report, AllocError> {
    let before = run_of(alloc, &[1], &[(2, 2)], &[], 0, &[(0, 0)])?;
    let report = told_from_one(alloc, &before);
    drop(before);
    report
}

#[test]
fn a_grown_report_is_a_value(rt: HostRuntime) -> Result<(), Fail> {
    let report = told_of_one(rt.alloc())?;
    let placed = match report.growth {
        None => 0,
        Some(growth) => growth.placed,
    };
    assert!(rt; placed == 8);
    assert!(rt; report.later.len() == 0 && report.copies == 8);
    drop(report);
    Ok(())
}
