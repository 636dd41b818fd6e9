// What `jm` would make of its words and files, before it joins anything.

ghost use Rattle.std.specs.Prelude.{◌≡◌, ◌≢◌, ◌<◌, Ok, map, string_bytes};
ghost use Rattle.join_rows.specs.Shelves.{last_fault};
ghost use Rattle.join_words.specs.Words.{asked};
ghost use Rattle.join_words.specs.declared.options.WordsFault.{WordsFault};
ghost use Rattle.join_why.specs.Verdicts.{Judges, Leaves, Tells, refusal_status, status_of};

use join_plan::{Planned, Refusal, prepare};
use join_rows::Shelf;
use join_words::{Options, WordsError, WordsFault, read_words};
use std::alloc::Global;
use std::thread::Threads;

/// What `jm` would make of its words and files.
#[derive(Drop)]
pub enum Verdict {
    /// It would join: nothing is wrong before the join.
    Joins(Planned),
    /// It would refuse the words.
    Words(WordsFault),
    /// It would refuse what the words ask for. Memory may run out at any words.
    Refuses(Refusal),
}

/// The exit status with which `jm` ends at a refusal.
fn refusal_status(refusal: &Refusal) -> u8
    ensures { result ≡ refusal_status refusal.now }
{
    match refusal {
        Refusal::Predicate(_) | Refusal::Then(_) => 3,
        Refusal::Input(_) => 4,
        Refusal::Limit(_) => 5,
        Refusal::Read => 6,
        Refusal::Memory => 8,
    }
}

impl Verdict {
    /// The exit status with which `jm` would end: 0 where it would join.
    pub fn status(&self) -> u8
        ensures { result ≡ status_of self.now }
    {
        match self {
            Verdict::Joins(_) => 0,
            Verdict::Words(_) => 2,
            Verdict::Refuses(refusal) => refusal_status(refusal),
        }
    }
}

/// What `jm` would make of what the options ask for.
fn judge_asked<R: Threads, H: Shelf>(
    rt: &R,
    alloc: Global,
    options: &Options<'_>,
    shelf: &mut H,
) -> Verdict
    requires shelf { H.faults shelf.old < last_fault }
    ensures words { (fault : WordsFault) → result ≢ Verdict.Words fault }
    ensures tells { Tells H.Shelf (asked options.now) shelf.old shelf.new result }
    ensures leaves { Leaves H.Shelf shelf.old shelf.new result }
{
    match prepare(rt, alloc, options, shelf) {
        Ok(planned) => Verdict::Joins(planned),
        Err(refusal) => Verdict::Refuses(refusal),
    }
}

/// What `jm` would make of these words, the program's name first, and of the files that they name. Nothing is
/// joined. The files are read as `jm` reads them, each once; where the words ask for nothing, or a text is no
/// predicate, none is. That there are too many pairs for a second join shows only at the first, and isn't told here.
pub fn judge<R: Threads, H: Shelf>(
    rt: &R,
    alloc: Global,
    words: &[String],
    shelf: &mut H,
) -> Verdict
    requires { H.faults shelf.old < last_fault }
    ensures { Judges H.Shelf (map string_bytes words.now) shelf.old shelf.new result }
{
    match read_words(alloc, words) {
        Ok(options) => judge_asked(rt, alloc, &options, shelf),
        Err(WordsError::Fault(fault)) => Verdict::Words(fault),
        Err(WordsError::Memory) => Verdict::Refuses(Refusal::Memory),
    }
}
