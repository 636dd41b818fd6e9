// The top call.

ghost use Rattle.std.specs.Prelude.{◌≡◌, ◌<◌, Some, map, string_bytes};
ghost use Rattle.join_rows.specs.Shelves.{last_fault};
ghost use Rattle.join_words.specs.Words.{asked};
ghost use Rattle.join_cli.specs.Courses.{Course};
ghost use Rattle.join_cli.specs.Ends.{course_of};
ghost use Rattle.join_cli.specs.Programs.{WroteOver};
ghost use Rattle.join_cli.specs.Promises.{Promises, PromisesOf};

use crate::conclude::conclude;
use crate::outcome::{Outcome, refused};
use join_plan::prepare;
use join_rows::{Shelf, Sink};
use join_words::{Options, WordsError, read_words};
use std::alloc::Global;
use std::sync::Wait;
use std::thread::Threads;
use worker_gate::Gate;

/// Joins what the options ask for. What it promises holds if it returns.
fn join_files<R: Threads + Wait + Sync, H: Shelf, K: Sink, G: Gate + Sync>(
    rt: &R,
    alloc: Global,
    options: &Options<'_>,
    shelf: &mut H,
    sink: &mut K,
    gate: &G,
) -> Outcome
    requires shelf { H.faults shelf.old < last_fault }
    requires sink { K.faults sink.old < last_fault }
    ensures { PromisesOf H.Shelf K.Sink (asked options.now)
        shelf.old shelf.new sink.old sink.new result }
{
    match prepare(rt, alloc, options, shelf) {
        Ok(planned) => conclude(rt, alloc, options, planned, sink, gate),
        Err(refusal) => refused(refusal),
    }
}

/// Runs `jm` with these words, the program's name first. The first of these that applies is
/// answered: the words, the text of the predicate, that of the second, the file of R, the file of S, those of the later
/// waves, the third, the columns, those of the second predicate, the numbers of R and then of S, those of the second
/// predicate; then the join is run, and the second behind it, and the output made whole, and then it is
/// written. Early output is written while the join is run. Memory may run out at each of them. The
/// run is one in as many threads as there are workers, whose seats pass the gate at each turn, or a
/// replay in one thread, of several waves one behind the other; where joiners form groups there is such a run for each;
/// with `--rings` it is one over rings.
/// What it promises holds if it returns.
pub fn join_main<R: Threads + Wait + Sync, H: Shelf, K: Sink, G: Gate + Sync>(
    rt: &R,
    alloc: Global,
    words: &[String],
    shelf: &mut H,
    sink: &mut K,
    gate: &G,
) -> Outcome
    requires shelf { H.faults shelf.old < last_fault }
    requires sink { K.faults sink.old < last_fault }
    ensures promises { Promises H.Shelf K.Sink (map string_bytes words.now)
        shelf.old shelf.new sink.old sink.new result }
    // the headline: what WroteOver says stands in specs/Programs, Ends and Courses
    ensures done { (way : Course) → course_of result ≡ Some way
        → WroteOver (map string_bytes words.now) (H.told shelf.old) way
        (K.written sink.old) (K.written sink.new) }
{
    match read_words(alloc, words) {
        Ok(options) => join_files(rt, alloc, &options, shelf, sink, gate),
        Err(WordsError::Fault(fault)) => Outcome::Words(fault),
        Err(WordsError::Memory) => Outcome::Memory,
    }
}
