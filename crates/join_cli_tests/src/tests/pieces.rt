// The pieces of an output.

use super::{shelf_of, status_of};
use join_rows::{Failed, ListSink, Sink};
use std::alloc::{AllocError, Global};
use std::sync::Wait;
use std::test::Fail;
use std::thread::Threads;
use worker_gate::NoGate;

// A sink that counts the puts of another, and how many of them have 4,096 bytes.
#[derive(Drop)]
struct Counting {
    inner: ListSink,
    puts: u64,
    pages: u64,
}

// 1 for a piece of that many bytes, else 0.
fn page(piece: &[u8]) -> u64 {
    if piece.len() == 4096 { 1 } else { 0 }
}

impl Sink for Counting {
    ghost written = { λ s. ⟦<ListSink as Sink>⟧.written s.inner };

    ghost faults = { λ s. ⟦<ListSink as Sink>⟧.faults s.inner };

    ghost takes = { λ s. ⟦<ListSink as Sink>⟧.takes s.inner };

    fn put(&mut self, piece: &[u8]) -> Result<(), Failed> {
        self.puts = self.puts.saturating_add(1);
        self.pages = self.pages.saturating_add(page(piece));
        self.inner.put(piece)
    }
}

// A file of one column and so many rows.
fn rows_file(alloc: Global, rows: usize) -> Result<String, AllocError> {
    let mut file = String::from_str(alloc, "x\n")?;
    let lines = "1\n".repeat(alloc, rows)?;
    file.push_str(lines.as_str())?;
    Ok(file)
}

// The puts, those of 4,096 bytes, and the bytes, of all pairs of so many rows a side.
fn all_pairs<R: Threads + Wait + Sync>(
    rt: &R,
    alloc: Global,
    rows: usize,
) -> Result<(u64, u64, u64), AllocError> {
    let file = rows_file(alloc, rows)?;
    let mut shelf = shelf_of(alloc, &file, "")?;
    let mut sink = Counting {
        inner: ListSink::new(alloc, 4_000_000)?,
        puts: 0,
        pages: 0,
    };
    let line = "jm|--on|1 = 1|r|r";
    match status_of(rt, alloc, line, &mut shelf, &mut sink, &NoGate)? {
        0 => Ok((sink.puts, sink.pages, sink.inner.written().len() as u64)),
        _ => Err(AllocError),
    }
}

#[test]
fn puts_pages_and_a_rest(rt: HostRuntime) -> Result<(), Fail> {
    let alloc = rt.alloc();
    assert_eq!(rt; all_pairs(&rt, alloc, 0)?, (0, 0, 0));
    assert_eq!(rt; all_pairs(&rt, alloc, 40)?, (3, 2, 8_880));
    assert_eq!(rt; all_pairs(&rt, alloc, 700)?, (921, 920, 3_768_800));
    Ok(())
}
