use join_rows::{DiskShelf, Failed, Shelf, Sink, StdSink, TableFault, read_table};
use std::alloc::Global;
use std::io::Write;
use std::test::Fail;
use std::{fs, io};

// The rows that are read of a file of this name.
fn rows_in(rt: &HostRuntime, name: &str) -> Result<u64, TableFault> {
    let Ok(files) = rt.clone() else {
        return Err(TableFault::Memory);
    };
    let mut shelf = DiskShelf::new(rt.alloc(), files);
    let table = read_table(rt.alloc(), &mut shelf, name)?;
    Ok(table.rows.len())
}

// A file of several pieces, a short one, an empty one by an absolute name, a folder, and none.
#[test]
fn files_of_the_system(rt: HostRuntime) -> Result<(), Fail> {
    let lines = b"7\n".repeat(rt.alloc(), 5_000)?;
    fs::write(&rt, "long.csv", &lines)?;
    fs::write(&rt, "short.csv", b"k\n7\n8\n")?;
    let cases = [
        ("long.csv", Ok(4_999)),
        ("short.csv", Ok(2)),
        ("/dev/null", Err(TableFault::NoHeader)),
        (".", Err(TableFault::Read)),
        ("none.csv", Err(TableFault::Read)),
    ];
    for (name, answer) in cases {
        assert!(rt; rows_in(&rt, name) == answer);
    }
    fs::remove_file(&rt, "long.csv")?;
    fs::remove_file(&rt, "short.csv")?;
    Ok(())
}

// What so many reads of five bytes give of the picked file, or none where one fails.
fn front_of(rt: &HostRuntime, shelf: &mut DiskShelf<HostRuntime>, reads: u32) -> Option<Vec<u8>> {
    let mut front = Vec::new(rt.alloc());
    let mut piece = [0; 5];
    for _ in 0..reads {
        let count = shelf.read(&mut piece).ok()?;
        front.extend_from_slice(&piece[..count]).ok()?;
    }
    Some(front)
}

fn picked_front(
    rt: &HostRuntime,
    shelf: &mut DiskShelf<HostRuntime>,
    name: &str,
    reads: u32,
) -> Option<Vec<u8>> {
    shelf.pick(name).ok()?;
    front_of(rt, shelf, reads)
}

// One shelf, whose files are picked again: behind their end, behind another one, and in their midst.
#[test]
fn a_file_that_is_picked_again_begins_anew(rt: HostRuntime) -> Result<(), Fail> {
    fs::write(&rt, "one.csv", b"k\n7\n8\n")?;
    fs::write(&rt, "two.csv", b"other\n")?;
    let mut shelf = DiskShelf::new(rt.alloc(), rt.clone()?);
    let cases: [(&str, u32, &[u8]); 6] = [
        ("one.csv", 3, b"k\n7\n8\n"),
        ("one.csv", 3, b"k\n7\n8\n"),
        ("two.csv", 3, b"other\n"),
        ("one.csv", 1, b"k\n7\n8"),
        ("one.csv", 3, b"k\n7\n8\n"),
        ("two.csv", 1, b"other"),
    ];
    for (name, reads, wanted) in cases {
        let front = picked_front(&rt, &mut shelf, name, reads);
        assert!(rt;
            front.is_some_and(|front| front.as_slice() == wanted),
            "{name}"
        );
    }
    fs::remove_file(&rt, "one.csv")?;
    fs::remove_file(&rt, "two.csv")?;
    Ok(())
}

// A writer that takes so many bytes at a time, in so many calls.
#[derive(Drop)]
struct Slow {
    bytes: Vec<u8>,
    at_once: usize,
    calls: u64,
}

impl Write for Slow {
    fn write(&mut self, buf: &[u8]) -> io::Result<usize> {
        if self.calls == 0 {
            return Err(io::Error::from(io::ErrorKind::BrokenPipe));
        }
        self.calls -= 1;
        let count = buf.len().min(self.at_once);
        self.bytes.extend_from_slice(&buf[..count])?;
        Ok(count)
    }

    fn flush(&mut self) -> io::Result<()> {
        Ok(())
    }
}

// How many bytes a call takes, how many calls there are, and what is there after two puts of ten and of two bytes.
#[test]
fn writers_that_are_slow_or_fail(rt: HostRuntime) -> Result<(), Fail> {
    let cases: [(usize, u64, bool, &[u8]); 5] = [
        (7, 9, true, b"0123456789ab"),
        (1, 12, true, b"0123456789ab"),
        (7, 2, false, b"0123456789"),
        (7, 1, false, b"0123456"),
        (0, 9, false, b""),
    ];
    for (at_once, calls, whole, written) in cases {
        let bytes = Vec::new(rt.alloc());
        let mut sink = StdSink::new(Slow {
            bytes,
            at_once,
            calls,
        });
        let first = sink.put(b"0123456789");
        let second = sink.put(b"ab");
        assert!(rt; (first.is_ok() && second.is_ok()) == whole);
        assert!(rt; sink.into_inner().bytes.as_slice() == written);
    }
    Ok(())
}

// A writer that hands on what it has at a flush alone.
#[derive(Drop)]
struct Hoarding {
    held: Vec<u8>,
    out: Vec<u8>,
}

impl Write for Hoarding {
    fn write(&mut self, buf: &[u8]) -> io::Result<usize> {
        self.held.extend_from_slice(buf)?;
        Ok(buf.len())
    }

    fn flush(&mut self) -> io::Result<()> {
        self.out.extend_from_slice(&self.held)?;
        self.held.clear();
        Ok(())
    }
}

// What has left the writer after these puts.
fn handed_on(rt: &HostRuntime, pieces: &[&[u8]]) -> Vec<u8> {
    let mut sink = StdSink::new(Hoarding {
        held: Vec::new(rt.alloc()),
        out: Vec::new(rt.alloc()),
    });
    for piece in pieces {
        let _ = sink.put(piece);
    }
    sink.into_inner().out
}

#[test]
fn each_put_is_flushed(rt: HostRuntime) -> Result<(), Fail> {
    assert!(rt; handed_on(&rt, &[b"0123"]).as_slice() == b"0123".as_slice());
    assert!(rt; handed_on(&rt, &[b"0123", b"ab"]).as_slice() == b"0123ab".as_slice());
    Ok(())
}
