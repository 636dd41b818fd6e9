// Calls that fail, and pieces.

use super::{NEVER, ROOM, ends_within, failing_sink, shelf_of, status_of};
use std::alloc::{AllocError, Global};
use std::process::Abort;
use std::sync::Wait;
use std::test::Fail;
use std::thread::Threads;
use worker_gate::NoGate;

const R: &str = "id,x\n1,10\n2,20\n3,30\n";

const S: &str = "id,y\n1,20\n2,30\n3,20\n";

const PAIRS: &str = "2,1\n2,3\n3,2\n";

// The run ends so where a pick, a read and a put of these numbers fail.
fn tells<R: Abort + Threads + Wait + Sync>(
    rt: &R,
    calls: (u64, u64, u64),
    room: u64,
    wanted: (u8, &str, &str),
    alloc: Global,
) -> Result<(), AllocError> {
    let line = "jm|--on|r.x = s.y|r|s";
    let (pick, read, put) = calls;
    let same = ends_within(rt, alloc, line, (R, S), calls, room, wanted)?;
    assert!(rt; same, "pick {pick}, read {read}, put {put}");
    Ok(())
}

#[test]
fn tells_calls_that_fail_to_read(rt: HostRuntime) -> Result<(), Fail> {
    let alloc = rt.alloc();
    let read = (6, "read: failed\n", "");
    tells(&rt, (1, NEVER, NEVER), ROOM, read, alloc)?;
    tells(&rt, (2, NEVER, NEVER), ROOM, read, alloc)?;
    tells(&rt, (NEVER, 1, NEVER), ROOM, read, alloc)?;
    tells(&rt, (NEVER, 2, NEVER), ROOM, read, alloc)?;
    tells(&rt, (NEVER, 3, NEVER), ROOM, read, alloc)?;
    tells(&rt, (NEVER, 4, 1), ROOM, read, alloc)?;
    Ok(())
}

#[test]
fn tells_calls_that_fail_to_write(rt: HostRuntime) -> Result<(), Fail> {
    let alloc = rt.alloc();
    let write = (7, "write: failed\n", "");
    tells(&rt, (NEVER, NEVER, 1), ROOM, write, alloc)?;
    tells(&rt, (NEVER, NEVER, NEVER), 0, write, alloc)?;
    tells(&rt, (3, 5, 2), ROOM, (0, "", PAIRS), alloc)?;
    Ok(())
}

// A file of a header and 40 lines.
pub(super) fn forty(alloc: Global, header: &str) -> Result<String, AllocError> {
    let mut text = String::from_str(alloc, header)?;
    for _ in 0..40 {
        text.push_str("1\n")?;
    }
    Ok(text)
}

// The status, and the number of bytes that 1,600 pairs leave in a sink, where a put fails.
fn of_forty<R: Threads + Wait + Sync>(
    rt: &R,
    alloc: Global,
    put: u64,
) -> Result<(u8, u64), AllocError> {
    let r = forty(alloc, "x\n")?;
    let s = forty(alloc, "y\n")?;
    let mut shelf = shelf_of(alloc, &r, &s)?;
    let mut sink = failing_sink(alloc, 10000, put)?;
    let line = "jm|--on|1 = 1|r|s";
    let status = status_of(rt, alloc, line, &mut shelf, &mut sink, &NoGate)?;
    Ok((status, sink.written().len() as u64))
}

#[test]
fn puts_pieces(rt: HostRuntime) -> Result<(), Fail> {
    let alloc = rt.alloc();
    assert_eq!(rt; of_forty(&rt, alloc, 1)?, (7, 0));
    assert_eq!(rt; of_forty(&rt, alloc, 2)?, (7, 4096));
    assert_eq!(rt; of_forty(&rt, alloc, 3)?, (7, 8192));
    assert_eq!(rt; of_forty(&rt, alloc, 4)?, (0, 8880));
    Ok(())
}
