// What the program does with the outcome.

ghost use Rattle.std.specs.Prelude.{◌≡◌, ◌<◌, ◌++◌, codes, map, string_bytes};
ghost use Rattle.std.specs.Process.{exit_status};
ghost use Rattle.join_rows.specs.Shelves.{last_fault};
ghost use Rattle.join_cli.specs.ExitStatus.{status_of};
ghost use Rattle.join_cli.specs.Ends.{IsDone};
ghost use Rattle.join_cli.specs.Lines.{PutsLine, TellsLine, said_of};
ghost use Rattle.join_cli.specs.Promises.{Promises};

use crate::outcome::Outcome;
use crate::top::join_main;
use join_rows::{Shelf, Sink};
use std::alloc::Global;
use std::process::ExitCode;
use std::sync::Wait;
use std::thread::Threads;
use worker_gate::Gate;

/// The exit code of an outcome. It takes no memory.
pub fn exit_code(outcome: &Outcome) -> ExitCode
    ensures { exit_status result ≡ status_of outcome.now }
{
    ExitCode::from(outcome.status())
}

/// Puts what is said of the outcome, ended by LF.
#[tactic(auto, using(crate::proofs::Lines::puts_line, crate::proofs::Lines::puts_none))]
fn put_line<E: Sink>(alloc: Global, outcome: &Outcome, errors: &mut E)
    ensures { PutsLine E.Sink errors.old errors.new (said_of outcome.now ++ codes "\n") }
{
    if let Ok(line) = format!(in alloc; "{outcome}\n") {
        let _ = errors.put(line.as_bytes());
    }
}

/// Puts the outcome's line, ended by LF, on standard error; one whose output was written whole has
/// none. A line that can't be put is passed over, since the status says the rest.
#[tactic(auto, using(crate::proofs::Lines::puts_none))]
pub fn tell<E: Sink>(alloc: Global, outcome: &Outcome, errors: &mut E)
    ensures quiet { IsDone outcome.now → errors.new ≡ errors.old }
    ensures line { TellsLine E.Sink errors.old errors.new outcome.now }
{
    if let Outcome::Done { .. }
    | Outcome::DoneGroups { .. }
    | Outcome::DoneChain { .. }
    | Outcome::DoneRings { .. } = outcome
    {
        return;
    }
    put_line(alloc, outcome, errors);
}

/// Runs `jm` with these words, the program's name first, as `join_main` does, and puts the line of
/// an outcome that isn't done on `errors`. Nothing else is put there, and the line is put nowhere
/// else. What it promises holds if it returns.
pub fn jm_main<R: Threads + Wait + Sync, H: Shelf, K: Sink, E: Sink, G: Gate + Sync>(
    rt: &R,
    alloc: Global,
    words: &[String],
    shelf: &mut H,
    sink: &mut K,
    errors: &mut E,
    gate: &G,
) -> Outcome
    requires shelf { H.faults shelf.old < last_fault }
    requires sink { K.faults sink.old < last_fault }
    ensures promises { Promises H.Shelf K.Sink (map string_bytes words.now)
        shelf.old shelf.new sink.old sink.new result }
    ensures quiet { IsDone result → errors.new ≡ errors.old }
    ensures line { TellsLine E.Sink errors.old errors.new result }
{
    let outcome = join_main(rt, alloc, words, shelf, sink, gate);
    tell(alloc, &outcome, errors);
    outcome
}
