// The whole program, over its words, a shelf and two streams.

ghost use Rattle.std.specs.Prelude.{◌≡◌, ◌≢◌, ◌⊎◌, ◌<◌, ◌≤◌, ℕ, List, map, Option, Some, Ok};
ghost use Rattle.std.specs.Prelude.{IfErr, IfOk, IsOkAnd, string_bytes};
ghost use Rattle.std.specs.Process.{exit_status};
ghost use Rattle.join_rows.specs.Shelves.{last_fault};
ghost use Rattle.join_words.specs.Words.{Asked, asked_of};
ghost use Rattle.join_cli.specs.ExitStatus.{status_of};
ghost use Rattle.join_cli.specs.Programs.{WroteBy};
ghost use Rattle.join_cli.specs.Lines.{TellsLine};
ghost use Rattle.join_cli.specs.Promises.{RanAs};
ghost use Rattle.join_cli.specs.StatusOfWords.{IsStatusOver};

use crate::outcome::Outcome;
use crate::program::{exit_code, jm_main, tell};
use join_rows::{Shelf, Sink};
use std::alloc::{AllocError, Global};
use std::marker::Model;
use std::process::{ExitCode, Termination};
use std::sync::Wait;
use std::thread::Threads;
use worker_gate::{Gate, NoGate};

/// The exit status of a run of the program. Only `jm_program` makes one, so a `main` that answers
/// it ends with no other.
#[derive(Drop)]
pub struct Ended {
    code: ExitCode,
}

impl Model for Ended {
    ghost use Rattle.std.specs.Prelude.{ℕ};
    ghost use Rattle.std.specs.Process.{exit_status};

    ghost Value = { ℕ };

    ghost view = { λ ended. exit_status ended.code };
}

impl Ended {
    /// The exit code.
    pub fn code(&self) -> ExitCode
        ensures { exit_status result ≡ self.now }
    {
        self.code
    }
}

impl Termination for Ended {
    fn report<R: Eprint>(self, _rt: &R) -> ExitCode
        ensures { exit_status result ≡ self }
    {
        self.code
    }
}

/// The end with the status of an outcome, which is let go.
fn end_of<G: Gate>(outcome: Outcome, gate: &G) -> Ended
    ensures { result ≡ status_of outcome }
{
    let code = exit_code(&outcome);
    gate.let_go(outcome);
    Ended { code }
}

/// Ends where there are no words for want of memory.
fn lacks_words<E: Sink>(alloc: Global, errors: &mut E) -> Ended
    ensures status { result ≡ 8 }
    ensures line { TellsLine E.Sink errors.old errors.new Outcome.Memory }
{
    tell(alloc, &Outcome::Memory, errors);
    end_of(Outcome::Memory, &NoGate)
}

/// Runs what these words ask for, and ends with the status of its outcome.
fn run_words<R: Threads + Wait + Sync, H: Shelf, K: Sink, E: Sink, G: Gate + Sync>(
    rt: &R,
    alloc: Global,
    words: Vec<String>,
    shelf: &mut H,
    sink: &mut K,
    errors: &mut E,
    gate: &G,
) -> Ended
    requires shelf { H.faults shelf.old < last_fault }
    requires sink { K.faults sink.old < last_fault }
    ensures ran { RanAs H.Shelf K.Sink (map string_bytes words.items)
        shelf.old shelf.new sink.old sink.new (TellsLine E.Sink errors.old errors.new) result }
    ensures quiet { result ≡ 0 → errors.new ≡ errors.old }
{
    let outcome = jm_main(rt, alloc, &words, shelf, sink, errors, gate);
    end_of(outcome, gate)
}

/// The program `jm`: runs what the words ask for, puts the output on `sink` and the one line of an
/// outcome that isn't done on `errors`, and answers the exit status; with no words for want of
/// memory, too. What it promises holds if it returns.
pub fn jm_program<R: Threads + Wait + Sync, H: Shelf, K: Sink, E: Sink, G: Gate + Sync>(
    rt: &R,
    alloc: Global,
    words: Result<Vec<String>, AllocError>,
    shelf: &mut H,
    sink: &mut K,
    errors: &mut E,
    gate: &G,
) -> Ended
    requires shelf { H.faults shelf.old < last_fault }
    requires sink { K.faults sink.old < last_fault }
    ensures ran { IfOk words (λ given. RanAs H.Shelf K.Sink (map string_bytes given.items)
        shelf.old shelf.new sink.old sink.new (TellsLine E.Sink errors.old errors.new) result) }
    ensures done { result ≡ 0 → IsOkAnd words (λ given.
        WroteBy (map string_bytes given.items) (H.told shelf.old)
        (K.written sink.old) (K.written sink.new)) }
    ensures answer { IfOk words (λ given. (files : List ℕ → Option (List ℕ))
        → H.told shelf.old ≡ Some files → H.faults shelf.new ≡ H.faults shelf.old
        → K.faults sink.new ≡ K.faults sink.old → (result ≡ 8)
        ⊎ IsStatusOver (asked_of (map string_bytes given.items)) files result) }
    ensures made { IfOk words (λ given. (asked : Asked) (count : ℕ)
        → asked_of (map string_bytes given.items) ≡ Ok asked → asked.make ≡ Some count
        → (result ≢ 6) × (shelf.new ≡ shelf.old)) }
    ensures nothing { result ≢ 0 → result ≢ 7 → result ≢ 8 → sink.new ≡ sink.old }
    ensures quiet { result ≡ 0 → errors.new ≡ errors.old }
    ensures memory { IfErr words (λ fault. (result ≡ 8) × (shelf.new ≡ shelf.old)
        × (sink.new ≡ sink.old) × TellsLine E.Sink errors.old errors.new Outcome.Memory) }
    ensures statuses { (result ≡ 0) ⊎ ((2 ≤ result) × (result ≤ 8)) }
{
    match words {
        Ok(words) => run_words(rt, alloc, words, shelf, sink, errors, gate),
        Err(AllocError) => lacks_words(alloc, errors),
    }
}
