// The whole program, over its words, a shelf, the system's files and a sink.

ghost use Rattle.std.specs.Prelude.{◌≡◌, ◌⊎◌, ◌<◌, IfOk, map, string_bytes};
ghost use Rattle.std.specs.Process.{exit_status};
ghost use Rattle.join_rows.specs.Shelves.{last_fault};
ghost use Rattle.join_why.specs.Verdicts.{IsJudgedBy, Judges, status_of};

use crate::cause::cause_of;
use crate::kept::Keeps;
use crate::reasons::explain;
use crate::verdict::{Verdict, judge};
use join_plan::Refusal;
use join_rows::{Shelf, Sink};
use std::alloc::{AllocError, Global};
use std::process::ExitCode;
use std::rt::Files;
use std::thread::Threads;

/// What no file has a cause for.
const NO_CAUSE: &str = "";

/// Why the file that was picked last can't be read, where that is the verdict.
fn cause<H: Keeps, F: Files>(verdict: &Verdict, shelf: &H, files: &F) -> &'static str {
    match (verdict, shelf.files().last()) {
        (Verdict::Refuses(Refusal::Read), Some(file)) => cause_of(files, file.name.as_str()),
        _ => NO_CAUSE,
    }
}

/// Puts the explanation of a verdict, and ends with the verdict's status; with 8 where memory is wanting for it, and
/// with 7 where it can't be put.
fn tell<K: Sink>(verdict: &Verdict, explained: Result<String, AllocError>, sink: &mut K) -> u8
    ensures { (result ≡ status_of verdict.now) ⊎ (result ≡ 7) ⊎ (result ≡ 8) }
{
    match explained {
        Err(AllocError) => 8,
        Ok(text) => match sink.put(text.as_bytes()) {
            Ok(()) => verdict.status(),
            Err(_) => 7,
        },
    }
}

/// Explains what `jm` would make of these words.
fn explain_words_of<R: Threads, H: Shelf + Keeps, F: Files, K: Sink>(
    rt: &R,
    alloc: Global,
    words: &[String],
    shelf: &mut H,
    files: &F,
    sink: &mut K,
) -> u8
    requires { H.Shelf.faults shelf.old < last_fault }
    ensures { IsJudgedBy H.Shelf (map string_bytes words.now) shelf.old result }
{
    let verdict = judge(rt, alloc, words, shelf);
    let cause = cause(&verdict, shelf, files);
    let explained = explain(alloc, words, &verdict, shelf.files(), cause);
    let status = tell(&verdict, explained, sink);
    drop(verdict);
    status
}

/// The program `jm-why`: puts on `sink` why `jm` would refuse these words and the files that they name, or what it
/// would do, and ends with the status with which `jm` would refuse them, or with 0. Where memory is wanting it ends
/// with 8, and where the explanation can't be put with 7. It joins nothing.
pub fn why_program<R: Threads, H: Shelf + Keeps, F: Files, K: Sink>(
    rt: &R,
    alloc: Global,
    words: Result<Vec<String>, AllocError>,
    shelf: &mut H,
    files: &F,
    sink: &mut K,
) -> ExitCode
    requires { H.Shelf.faults shelf.old < last_fault }
    ensures { IfOk words (λ given.
        IsJudgedBy H.Shelf (map string_bytes given.items) shelf.old (exit_status result)) }
{
    match words {
        Ok(words) => ExitCode::from(explain_words_of(rt, alloc, &words, shelf, files, sink)),
        Err(AllocError) => ExitCode::from(8),
    }
}
