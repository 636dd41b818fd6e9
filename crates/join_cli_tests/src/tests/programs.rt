// The program over words of a process.

ghost use Rattle.std.specs.Prelude.{◌<◌};
ghost use Rattle.join_rows.specs.Shelves.{last_fault};

use super::shelf_of;
use join_cli::{command_words, jm_program};
use join_rows::{ListSink, MapShelf};
use std::alloc::{AllocError, Global};
use std::env::FillError;
use std::process::{Abort, ExitCode};
use std::rt::Env;
use std::sync::Wait;
use std::test::Fail;
use std::thread::Threads;
use worker_gate::NoGate;

// A process with these words, and no variables.
#[derive(Drop)]
struct Process<'a> {
    words: &'a [&'a str],
}

impl Env for Process<'_> {
    fn arg(&self, i: usize, buf: &mut [u8]) -> Result<usize, FillError> {
        let Some(word) = self.words.get(i) else {
            return Err(FillError::NotPresent);
        };
        let bytes = word.as_bytes();
        if bytes.len() > buf.len() {
            return Err(FillError::TooLong);
        }
        buf[..bytes.len()].copy_from_slice(bytes);
        Ok(bytes.len())
    }

    fn var(&self, _name: &str, _buf: &mut [u8]) -> Result<usize, FillError> {
        Err(FillError::NotPresent)
    }

    fn var_at(&self, _i: usize, _buf: &mut [u8]) -> Result<usize, FillError> {
        Err(FillError::NotPresent)
    }
}

// Whether these are the words, each whole and in their order.
fn are_words(words: &[String], texts: &[&str]) -> bool {
    let mut place = 0;
    for word in words {
        if texts.get(place) != Some(&word.as_str()) {
            return false;
        }
        place += 1;
    }
    place == texts.len()
}

// The exit code of the program with these words.
fn code_of<R: Threads + Wait + Sync>(
    rt: &R,
    alloc: Global,
    words: Result<Vec<String>, AllocError>,
    shelf: &mut MapShelf,
    sink: &mut ListSink,
    errors: &mut ListSink,
) -> ExitCode
    requires shelf { shelf.old.faults < last_fault }
    requires sink { sink.old.faults < last_fault }
{
    jm_program(rt, alloc, words, shelf, sink, errors, &NoGate).code()
}

// Whether a process with these words ends with this code, this output and this line on standard error.
fn ends_so<R: Threads + Wait + Sync>(
    rt: &R,
    alloc: Global,
    words: Result<Vec<String>, AllocError>,
    wanted: (u8, &str, &str),
) -> Result<bool, AllocError> {
    let mut shelf = shelf_of(
        alloc,
        "id,x\n1,10\n2,20\n3,30\n",
        "id,y\n1,20\n2,30\n3,20\n",
    )?;
    let mut sink = ListSink::new(alloc, 1000)?;
    let mut errors = ListSink::new(alloc, 200)?;
    let code = code_of(rt, alloc, words, &mut shelf, &mut sink, &mut errors);
    let (status, written, line) = wanted;
    Ok(
        code == ExitCode::from(status)
            && sink.written() == written.as_bytes()
            && errors.written() == line.as_bytes(),
    )
}

fn words_of(alloc: Global, texts: &[&str]) -> Result<Vec<String>, AllocError> {
    command_words(&(Process { words: texts }, alloc))
}

// A process with these words hands them on, and ends so.
fn hands_on<R: Abort + Threads + Wait + Sync>(
    rt: &R,
    alloc: Global,
    texts: &[&str],
    wanted: (u8, &str, &str),
) -> Result<(), AllocError> {
    let words = words_of(alloc, texts)?;
    assert!(rt; are_words(&words, texts), "{texts:?}");
    assert!(rt; ends_so(rt, alloc, Ok(words), wanted)?, "{texts:?}");
    Ok(())
}

// The same for the words of a line, between bars.
fn hands_on_line<R: Abort + Threads + Wait + Sync>(
    rt: &R,
    alloc: Global,
    line: &str,
    wanted: (u8, &str, &str),
) -> Result<(), AllocError> {
    let texts: Vec<&str> = line.split('|').collect(alloc)?;
    hands_on(rt, alloc, &texts, wanted)
}

#[test]
fn hands_on_each_word(rt: HostRuntime) -> Result<(), Fail> {
    let alloc = rt.alloc();
    let report =
        "2,1\n2,3\n3,2\ninput 3 3\nfinal 4 1 copies 15 best 12\njoiner 0 held 0 3 made 0\njoiner 1 held 1 3 made 2\njoiner 2 held 2 3 made 1\njoiner 3 held 0 3 made 0\n";
    let line = "jm|--fixed=0|--seed=42|--report|--on|r.x = s.y|r|s";
    hands_on_line(&rt, alloc, line, (0, report, ""))?;
    let told = "predicate: R has no column z\n";
    hands_on_line(&rt, alloc, "jm|--on|r.z = s.y|r|s", (3, "", told))?;
    Ok(())
}

#[test]
fn a_process_without_words(rt: HostRuntime) -> Result<(), Fail> {
    let wanted = (2, "", "usage: jm --on TEXT [options] R.csv S.csv\n");
    hands_on(&rt, rt.alloc(), &[], wanted)?;
    Ok(())
}

#[test]
fn tells_that_memory_is_wanting(rt: HostRuntime) -> Result<(), Fail> {
    let wanted = (8, "", "memory: none left\n");
    assert!(rt; ends_so(&rt, rt.alloc(), Err(AllocError), wanted)?);
    Ok(())
}
