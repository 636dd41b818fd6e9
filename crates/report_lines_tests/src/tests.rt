use report_lines::{Growth, Joiner, Report, Step};
use row_cells::Items;
use std::alloc::{AllocError, Global};
use std::test::Fail;

// One joiner that holds all, and takes no step.
fn of_one_joiner(alloc: Global) -> Result<String, AllocError> {
    let mut report = Report {
        x: 2,
        y: 3,
        steps: Items::new(alloc),
        growth: None,
        later: Items::new(alloc),
        n: 1,
        m: 1,
        copies: 5,
        best: 5,
        joiners: Items::new(alloc),
    };
    report.joiners.push(Joiner {
        rows_r: 2,
        rows_s: 3,
        made: 4,
    })?;
    report.text(alloc)
}

// Two joiners that take a step, split into eight and take another; two of the eight are told.
fn of_growth(alloc: Global) -> Result<String, AllocError> {
    let mut report = Report {
        x: 1,
        y: 9,
        steps: Items::new(alloc),
        growth: Some(Growth {
            n: 2,
            m: 4,
            placed: 22,
        }),
        later: Items::new(alloc),
        n: 1,
        m: 8,
        copies: 17,
        best: 16,
        joiners: Items::new(alloc),
    };
    report.steps.push(Step {
        n: 1,
        m: 2,
        moved: 3,
    })?;
    report.later.push(Step {
        n: 1,
        m: 8,
        moved: 7,
    })?;
    report.joiners.push(Joiner {
        rows_r: 1,
        rows_s: 2,
        made: 5,
    })?;
    report.joiners.push(Joiner {
        rows_r: 1,
        rows_s: 2,
        made: 6,
    })?;
    report.text(alloc)
}

#[test]
fn reports_are_written(rt: HostRuntime) -> Result<(), Fail> {
    let text = of_one_joiner(rt.alloc())?;
    let wanted = "input 2 3\nfinal 1 1 copies 5 best 5\njoiner 0 held 2 3 made 4\n";
    assert!(rt; text.as_str() == wanted);
    let text = of_growth(rt.alloc())?;
    let wanted =
        "input 1 9\ngrid 1 1 2 moved 3\ngrow 2 4 placed 22\ngrid 2 1 8 moved 7\nfinal 1 8 copies 17 best 16\njoiner 0 held 1 2 made 5\njoiner 1 held 1 2 made 6\n";
    assert!(rt; text.as_str() == wanted);
    Ok(())
}
