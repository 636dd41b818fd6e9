// The journal that is answered is the one of a replay.

ghost use Rattle.std.specs.Prelude.{◌<◌};
ghost use Rattle.join_rows.specs.Shelves.{last_fault};

use super::calls::forty;
use super::{outcome_of, shelf_of};
use grid_map::Weights;
use join_cli::Outcome;
use join_rows::{ListSink, MapShelf, read_table};
use link_trace::{Input, Run, Setting, replay};
use load_controller::Journal;
use row_cells::{Side, Table};
use row_tickets::{Feed, tickets};
use std::alloc::{AllocError, Global};
use std::process::Abort;
use std::sync::Wait;
use std::test::Fail;
use std::thread::Threads;
use theta_pred::{Theta, resolve};
use theta_text::parse;
use worker_gate::NoGate;

// The table of a file of 40 rows.
fn table(alloc: Global, header: &str) -> Result<Table, AllocError> {
    let file = forty(alloc, header)?;
    let mut shelf = MapShelf::new(alloc);
    shelf.add("t", file.as_bytes())?;
    match read_table(alloc, &mut shelf, "t") {
        Ok(table) => Ok(table),
        Err(_) => Err(AllocError),
    }
}

fn all_pairs(alloc: Global, table_r: &Table, table_s: &Table) -> Result<Theta, AllocError> {
    let Ok(pred) = parse(alloc, "1 = 1") else {
        return Err(AllocError);
    };
    match resolve(alloc, &pred, &table_r.names, &table_s.names) {
        Ok(theta) => Ok(theta),
        Err(_) => Err(AllocError),
    }
}

fn forty_a_side(alloc: Global) -> Result<Input, AllocError> {
    let tickets_r = tickets(alloc, 1, Side::R, 40)?;
    let tickets_s = tickets(alloc, 1, Side::S, 40)?;
    let table_r = table(alloc, "x\n")?;
    let table_s = table(alloc, "y\n")?;
    let theta = all_pairs(alloc, &table_r, &table_s)?;
    Ok(Input {
        table_r,
        table_s,
        theta,
        tickets_r,
        tickets_s,
    })
}

fn batches_of_four() -> Setting {
    Setting {
        k: 2,
        feeders: 2,
        workers: 4,
        batch: 4,
        feed: Feed::Alternate,
        fixed: None,
        weights: Weights { r: 1, s: 1 },
    }
}

// The journal of the replay of this number.
fn replayed<R: Wait>(
    rt: &R,
    alloc: Global,
    input: &Input,
    setting: &Setting,
    number: u64,
) -> Result<Journal, AllocError> {
    if !input.valid() || !setting.valid() {
        return Err(AllocError);
    }
    let Run { journal, .. } = replay(rt, alloc, input, setting, number)?;
    Ok(journal)
}

// The journal of a run with these words.
fn journal_of<R: Threads + Wait + Sync>(
    rt: &R,
    alloc: Global,
    line: &str,
    shelf: &mut MapShelf,
    sink: &mut ListSink,
) -> Result<Journal, AllocError>
    requires shelf { shelf.old.faults < last_fault }
    requires sink { sink.old.faults < last_fault }
{
    match outcome_of(rt, alloc, line, shelf, sink, &NoGate)? {
        Outcome::Done { journal, .. } => Ok(journal),
        _ => Err(AllocError),
    }
}

// The journal of a call with this number.
fn answered<R: Threads + Wait + Sync>(
    rt: &R,
    alloc: Global,
    number: u64,
) -> Result<Journal, AllocError> {
    let r = forty(alloc, "x\n")?;
    let s = forty(alloc, "y\n")?;
    let mut shelf = shelf_of(alloc, &r, &s)?;
    let mut sink = ListSink::new(alloc, 10000)?;
    let line = format!(in alloc; "jm|--on|1 = 1|--batch|4|--replay|{number}|r|s")?;
    journal_of(rt, alloc, &line, &mut shelf, &mut sink)
}

fn answers_the_replay<R: Abort + Threads + Wait + Sync>(
    rt: &R,
    alloc: Global,
    input: &Input,
    setting: &Setting,
    number: u64,
) -> Result<(), AllocError> {
    let wanted = replayed(rt, alloc, input, setting, number)?;
    let journal = answered(rt, alloc, number)?;
    assert!(rt; journal.as_slice() == wanted.as_slice(), "of {number}");
    Ok(())
}

fn answers_each_replay<R: Abort + Threads + Wait + Sync>(
    rt: &R,
    alloc: Global,
    input: &Input,
) -> Result<(), Fail> {
    let setting = batches_of_four();
    for number in 0..32u64 {
        answers_the_replay(rt, alloc, input, &setting, number)?;
    }
    Ok(())
}

#[test]
fn answers_the_journal_of_its_number(rt: HostRuntime) -> Result<(), Fail> {
    let alloc = rt.alloc();
    let input = forty_a_side(alloc)?;
    answers_each_replay(&rt, alloc, &input)
}
