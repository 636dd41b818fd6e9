// What is told of words and files: the status and the text of each.

ghost use Rattle.std.specs.Prelude.{◌≡◌, ◌<◌, IfOk};
ghost use Rattle.join_rows.specs.Shelves.{last_fault};

use join_rows::{MapShelf, Shelf};
use join_why::{Keeps, KeptShelf, explain, judge};
use std::alloc::{AllocError, Global};
use std::process::Abort;
use std::thread::Threads;

mod faults;
mod files;
mod plans;
mod texts;

/// Three files, of which `r`, `s` and `q` are the names.
type Files<'a> = (&'a str, &'a str, &'a str);

const R: &str = "id,x\n1,10\n2,20\n3,30\n";

const S: &str = "id,y\n1,20\n2,30\n3,20\n";

const Q: &str = "id,z\n1,1\n2,3\n";

const FILES: Files<'static> = (R, S, Q);

// The words of a line, between bars.
fn words(alloc: Global, line: &str) -> Result<Vec<String>, AllocError> {
    let mut words = Vec::new(alloc);
    for word in line.split('|') {
        words.push(String::from_str(alloc, word)?)?;
    }
    Ok(words)
}

// A shelf with these files.
fn shelf_of(alloc: Global, files: Files<'_>) -> Result<MapShelf, AllocError>
    ensures { IfOk result (λ shelf. shelf.faults ≡ 0) }
{
    let mut shelf = MapShelf::new(alloc);
    shelf.add("r", files.0.as_bytes())?;
    shelf.add("s", files.1.as_bytes())?;
    shelf.add("q", files.2.as_bytes())?;
    Ok(shelf)
}

// The status that these words would end with, and what is told of them.
fn told<R: Threads, H: Shelf + Keeps>(
    rt: &R,
    alloc: Global,
    words: &[String],
    shelf: &mut H,
) -> Result<(u8, String), AllocError>
    requires { H.Shelf.faults shelf.old < last_fault }
{
    let verdict = judge(rt, alloc, words, shelf);
    let explained = explain(
        alloc,
        words,
        &verdict,
        shelf.files(),
        "there is no file of this name",
    );
    let status = verdict.status();
    drop(verdict);
    Ok((status, explained?))
}

// The words of this line have this status and this explanation over these files.
fn tells<R: Abort + Threads>(
    rt: &R,
    alloc: Global,
    line: &str,
    files: Files<'_>,
    wanted: (u8, &str),
) -> Result<(), AllocError> {
    let words = words(alloc, line)?;
    let mut shelf = KeptShelf::new(alloc, shelf_of(alloc, files)?);
    let told = told(rt, alloc, &words, &mut shelf);
    drop(shelf);
    drop(words);
    let (status, text) = told?;
    assert!(rt; text.as_str() == wanted.1, "{line}");
    assert!(rt; status == wanted.0, "{line}");
    Ok(())
}
