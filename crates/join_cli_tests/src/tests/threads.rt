// Runs in threads.

use super::{ends_left, shelf_of};
use epoch_tags::Actor;
use join_rows::ListSink;
use std::alloc::{AllocError, Global};
use std::sync::Wait;
use std::test::Fail;
use std::thread::Threads;
use worker_gate::{Gate, NoGate, PairGate};

const R: &str = "id,x\n1,10\n2,20\n3,30\n";

const S: &str = "id,y\n1,20\n2,30\n3,20\n";

// Whether a run with the words of this line writes the three pairs, and leaves so many ends.
fn writes_all<R: Threads + Wait + Sync, G: Gate + Sync>(
    rt: &R,
    alloc: Global,
    line: &str,
    ends: u64,
    gate: &G,
) -> Result<bool, AllocError> {
    let mut shelf = shelf_of(alloc, R, S)?;
    let mut sink = ListSink::new(alloc, 100)?;
    let left = ends_left(rt, alloc, line, &mut shelf, &mut sink, gate)?;
    Ok(left == Some(ends) && sink.written() == b"2,1\n2,3\n3,2\n".as_slice())
}

#[test]
fn any_number_of_workers(rt: HostRuntime) -> Result<(), Fail> {
    let alloc = rt.alloc();
    let line = "jm|--on|r.x = s.y|r|s|--workers|1";
    assert!(rt; writes_all(&rt, alloc, line, 1, &NoGate)?, "by 1");
    let line = "jm|--on|r.x = s.y|r|s|--workers|4";
    assert!(rt; writes_all(&rt, alloc, line, 1, &NoGate)?, "by 4");
    let line = "jm|--on|r.x = s.y|r|s|--workers|16";
    assert!(rt; writes_all(&rt, alloc, line, 1, &NoGate)?, "by 16");
    let line = "jm|--on|r.x = s.y|r|s|--workers|16|--replay|7";
    assert!(rt;
        writes_all(&rt, alloc, line, 0, &NoGate)?,
        "a replay has no ends"
    );
    Ok(())
}

#[test]
fn two_actors_meet(rt: HostRuntime) -> Result<(), Fail> {
    let gate = PairGate::new(Actor::Joiner(0), Actor::Collector, 1 << 27);
    let line = "jm|--on|r.x = s.y|r|s|--feeders|1|--workers|2";
    assert!(rt; writes_all(&rt, rt.alloc(), line, 1, &gate)?);
    assert!(rt; gate.met(), "the two actors meet");
    Ok(())
}
