// What runs answer, for the tests.

ghost use Rattle.std.specs.Prelude.{◌≡◌, ◌++◌, IfOk, OnOk};
ghost use Rattle.join_report.specs.Report.{AreWithin};

use epoch_tags::{Counts, Pairs};
use load_controller::{Cause, Journal, TurnLine};
use pair_collector::{Held, Loads};
use std::alloc::{AllocError, Global};
use trace_law::Run;

pub(crate) fn push_counts(counts: &mut Counts, numbers: &[u64]) -> Result<(), AllocError>
    ensures { OnOk result (counts.new ≡ counts.old ++ numbers.now) }
{
    for number in numbers {
        counts.push(*number)?;
    }
    Ok(())
}

// What joiners hold: numbers of rows of R and of S.
fn push_loads(loads: &mut Loads, held: &[(u64, u64)]) -> Result<(), AllocError> {
    for (rows_r, rows_s) in held {
        loads.push(Held {
            rows_r: *rows_r,
            rows_s: *rows_s,
        })?;
    }
    Ok(())
}

fn line(epoch: u32, shift: u32) -> TurnLine
    ensures { result.shift ≡ shift }
{
    TurnLine {
        cause: Cause::Start,
        rows_r: 0,
        rows_s: 0,
        base_r: 0,
        base_s: 0,
        epoch,
        shift,
        goal: shift,
        moving: false,
    }
}

// Lines of these epochs and shifts, k at most.
fn push_lines(journal: &mut Journal, k: u32, lines: &[(u32, u32)]) -> Result<(), AllocError>
    requires { AreWithin k journal.old }
    ensures { AreWithin k journal.new }
{
    for (epoch, shift) in lines {
        journal.push(line(*epoch, (*shift).min(k)))?;
    }
    Ok(())
}

// Adds these to what a run answers.
fn add(
    run: &mut Run,
    made: &[u64],
    held: &[(u64, u64)],
    moved: &[u64],
    k: u32,
    lines: &[(u32, u32)],
) -> Result<(), AllocError>
    requires { AreWithin k run.old.journal }
    ensures moved { OnOk result (run.new.moved ≡ run.old.moved ++ moved.now) }
    ensures journal { AreWithin k run.new.journal }
{
    push_counts(&mut run.made, made)?;
    push_loads(&mut run.loads, held)?;
    push_counts(&mut run.moved, moved)?;
    push_lines(&mut run.journal, k, lines)
}

// What a run in a grid of 2^k joiners answers: the pairs that each made, what each holds, how many rows moved in each
// step, and the epochs and shifts of the journal's lines.
pub(crate) fn run_of(
    alloc: Global,
    made: &[u64],
    held: &[(u64, u64)],
    moved: &[u64],
    k: u32,
    lines: &[(u32, u32)],
) -> Result<Run, AllocError>
    ensures moved { IfOk result (λ run. run.moved ≡ moved.now) }
    ensures journal { IfOk result (λ run. AreWithin k run.journal) }
{
    let mut run = Run {
        pairs: Pairs::new(alloc),
        made: Counts::new(alloc),
        loads: Loads::new(alloc),
        moved: Counts::new(alloc),
        journal: Journal::new(alloc),
        bouts: 0,
    };
    match add(&mut run, made, held, moved, k, lines) {
        Ok(()) => Ok(run),
        Err(refused) => {
            drop(run);
            Err(refused)
        }
    }
}
