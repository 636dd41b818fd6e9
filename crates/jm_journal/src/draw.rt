// A run, and the picture of its journal.

ghost use Rattle.std.specs.Prelude.{◌≡◌, ◌≢◌, ◌<◌};
ghost use Rattle.join_rows.specs.Shelves.{last_fault};
ghost use Rattle.join_cli.specs.Ends.{IsDone};

use crate::journals::picture;
use crate::nothing::Nothing;
use join_cli::{Outcome, join_main};
use join_rows::{Failed, Shelf, Sink};
use join_words::{Options, WordsError, read_words};
use std::alloc::{AllocError, Global};
use std::sync::Wait;
use std::thread::Threads;
use worker_gate::Gate;

/// Puts the picture of an outcome that is done, once it is made whole, and answers that outcome; or that memory ran
/// out, or that the picture couldn't be put. Another outcome is answered as it is.
fn drawn<K: Sink>(alloc: Global, options: &Options<'_>, outcome: Outcome, sink: &mut K) -> Outcome
    ensures refused { (IsDone outcome → ⊥) → IsDone result → ⊥ }
    ensures nothing { (IsDone result → ⊥) → result ≢ Outcome.Write → sink.new ≡ sink.old }
{
    match picture(alloc, options, &outcome) {
        Ok(Some(svg)) => match sink.put(svg.as_bytes()) {
            Ok(()) => outcome,
            Err(Failed) => Outcome::Write,
        },
        Ok(None) => outcome,
        Err(AllocError) => Outcome::Memory,
    }
}

/// Makes the run that `jm` makes for these words, the program's name first, with pairs that go nowhere, and puts the
/// picture of its journal on the sink. It answers as `join_main` does, and `Outcome::Write` where the picture can't
/// be put whole.
pub(crate) fn draw<R: Threads + Wait + Sync, H: Shelf, K: Sink, G: Gate + Sync>(
    rt: &R,
    alloc: Global,
    words: &[String],
    shelf: &mut H,
    sink: &mut K,
    gate: &G,
) -> Outcome
    requires { H.faults shelf.old < last_fault }
    ensures { (IsDone result → ⊥) → result ≢ Outcome.Write → sink.new ≡ sink.old }
{
    match read_words(alloc, words) {
        Ok(options) => {
            let outcome = join_main(rt, alloc, words, shelf, &mut Nothing, gate);
            drawn(alloc, &options, outcome, sink)
        }
        Err(WordsError::Fault(fault)) => Outcome::Words(fault),
        Err(WordsError::Memory) => Outcome::Memory,
    }
}
