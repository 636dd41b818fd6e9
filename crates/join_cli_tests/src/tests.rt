ghost use Rattle.std.specs.Prelude.{◌≡◌, ◌<◌, IfOk};
ghost use Rattle.join_rows.specs.Shelves.{last_fault};

use join_cli::{Outcome, jm_main, join_main};
use join_rows::{ListSink, MapShelf, Sink};
use std::alloc::{AllocError, Global};
use std::sync::Wait;
use std::thread::Threads;
use worker_gate::{Gate, NoGate};

mod calls;
mod chain;
mod chain_faults;
mod early;
mod extremes;
mod faults;
mod groups;
mod growth;
mod limits;
mod made;
mod pieces;
mod programs;
mod replays;
mod rings;
mod rows;
mod threads;
mod waves;

// The number of a call that isn't made.
const NEVER: u64 = 1000000;

// A room that each output here fits.
const ROOM: u64 = 10000;

// The words of a line, between bars. An empty line has none.
fn words(alloc: Global, line: &str) -> Result<Vec<String>, AllocError> {
    let mut words = Vec::new(alloc);
    if line.is_empty() {
        return Ok(words);
    }
    for word in line.split('|') {
        words.push(String::from_str(alloc, word)?)?;
    }
    Ok(words)
}

// A shelf with these files `r` and `s`.
fn shelf_of(alloc: Global, r: &str, s: &str) -> Result<MapShelf, AllocError>
    ensures { IfOk result (λ shelf. shelf.faults ≡ 0) }
{
    let mut shelf = MapShelf::new(alloc);
    shelf.add("r", r.as_bytes())?;
    shelf.add("s", s.as_bytes())?;
    Ok(shelf)
}

// The same, where a pick and a read of these numbers fail.
fn failing_shelf(
    alloc: Global,
    files: (&str, &str),
    pick: u64,
    read: u64,
) -> Result<MapShelf, AllocError>
    ensures { IfOk result (λ shelf. shelf.faults ≡ 0) }
{
    let mut shelf = shelf_of(alloc, files.0, files.1)?;
    shelf.fail_pick(pick)?;
    shelf.fail_read(read)?;
    Ok(shelf)
}

// A sink with so much room, where the put of this number fails.
fn failing_sink(alloc: Global, room: u64, put: u64) -> Result<ListSink, AllocError>
    ensures { IfOk result (λ sink. sink.faults ≡ 0) }
{
    let mut sink = ListSink::new(alloc, room)?;
    sink.fail_put(put)?;
    Ok(sink)
}

// How a run with the words of this line ends.
fn outcome_of<R: Threads + Wait + Sync, K: Sink, G: Gate + Sync>(
    rt: &R,
    alloc: Global,
    line: &str,
    shelf: &mut MapShelf,
    sink: &mut K,
    gate: &G,
) -> Result<Outcome, AllocError>
    requires shelf { shelf.old.faults < last_fault }
    requires sink { K.faults sink.old < last_fault }
{
    let words = words(alloc, line)?;
    Ok(join_main(rt, alloc, &words, shelf, sink, gate))
}

fn status_of<R: Threads + Wait + Sync, K: Sink, G: Gate + Sync>(
    rt: &R,
    alloc: Global,
    line: &str,
    shelf: &mut MapShelf,
    sink: &mut K,
    gate: &G,
) -> Result<u8, AllocError>
    requires shelf { shelf.old.faults < last_fault }
    requires sink { K.faults sink.old < last_fault }
{
    let outcome = outcome_of(rt, alloc, line, shelf, sink, gate)?;
    Ok(outcome.status())
}

// How many ends a run that is done leaves.
fn ends_left<R: Threads + Wait + Sync, K: Sink, G: Gate + Sync>(
    rt: &R,
    alloc: Global,
    line: &str,
    shelf: &mut MapShelf,
    sink: &mut K,
    gate: &G,
) -> Result<Option<u64>, AllocError>
    requires shelf { shelf.old.faults < last_fault }
    requires sink { K.faults sink.old < last_fault }
{
    match outcome_of(rt, alloc, line, shelf, sink, gate)? {
        Outcome::Done { trail, .. } => Ok(Some(trail.len())),
        _ => Ok(None),
    }
}

// The status of a run that has its line put on `errors`.
fn main_status<R: Threads + Wait + Sync>(
    rt: &R,
    alloc: Global,
    line: &str,
    shelf: &mut MapShelf,
    sink: &mut ListSink,
    errors: &mut ListSink,
) -> Result<u8, AllocError>
    requires shelf { shelf.old.faults < last_fault }
    requires sink { sink.old.faults < last_fault }
{
    let words = words(alloc, line)?;
    let outcome = jm_main(rt, alloc, &words, shelf, sink, errors, &NoGate);
    Ok(outcome.status())
}

// Whether a run over these files `r` and `s` ends with this status, puts this line alone on
// standard error and writes these bytes, where a pick, a read and a put of these numbers fail.
fn ends<R: Threads + Wait + Sync>(
    rt: &R,
    alloc: Global,
    line: &str,
    files: (&str, &str),
    calls: (u64, u64, u64),
    wanted: (u8, &str, &str),
) -> Result<bool, AllocError> {
    ends_within(rt, alloc, line, files, calls, ROOM, wanted)
}

// The same with a sink that has room for so many bytes.
fn ends_within<R: Threads + Wait + Sync>(
    rt: &R,
    alloc: Global,
    line: &str,
    files: (&str, &str),
    calls: (u64, u64, u64),
    room: u64,
    wanted: (u8, &str, &str),
) -> Result<bool, AllocError> {
    let (pick, read, put) = calls;
    let mut shelf = failing_shelf(alloc, files, pick, read)?;
    let mut sink = failing_sink(alloc, room, put)?;
    let mut errors = ListSink::new(alloc, 200)?;
    let status = main_status(rt, alloc, line, &mut shelf, &mut sink, &mut errors)?;
    let (wanted_status, told, written) = wanted;
    Ok(
        status == wanted_status
            && errors.written() == told.as_bytes()
            && sink.written() == written.as_bytes(),
    )
}
