// Pairs that are written as they are found.

ghost use Rattle.std.specs.Prelude.{None, ⊤};

use super::calls::forty;
use super::{NEVER, ends, ends_left, shelf_of, status_of};
use epoch_tags::Actor;
use join_rows::{Failed, ListSink, Sink};
use std::alloc::{AllocError, Global};
use std::sync::Wait;
use std::test::Fail;
use std::thread::Threads;
use worker_gate::{CountingGate, Gate, NoGate, PairGate};

const R: &str = "id,x\n1,10\n2,20\n3,30\n";

const S: &str = "id,y\n1,20\n2,30\n3,20\n";

// Whether one of the first three lines of four bytes is this one.
fn has_line(text: &[u8], line: &[u8]) -> bool {
    for part in text.chunks(4).take(3) {
        if part == line {
            return true;
        }
    }
    false
}

// Whether this text is the lines of the three pairs, each once, and then this report.
fn has_each_line(text: &[u8], report: &[u8]) -> bool {
    text.len() == 12 + report.len()
        && text.ends_with(report)
        && has_line(text, b"2,1\n")
        && has_line(text, b"2,3\n")
        && has_line(text, b"3,2\n")
}

// Whether an early run with these words writes each of the three lines, and then this report.
fn writes_each<R: Threads + Wait + Sync, G: Gate + Sync>(
    rt: &R,
    alloc: Global,
    line: &str,
    report: &str,
    gate: &G,
) -> Result<bool, AllocError> {
    let mut shelf = shelf_of(alloc, R, S)?;
    let mut sink = ListSink::new(alloc, 400)?;
    let left = ends_left(rt, alloc, line, &mut shelf, &mut sink, gate)?;
    Ok(left == Some(1) && has_each_line(sink.written(), report.as_bytes()))
}

const REPORT: &str =
    "input 3 3\nfinal 4 1 copies 15 best 12\njoiner 0 held 0 3 made 0\njoiner 1 held 1 3 made 2\njoiner 2 held 2 3 made 1\njoiner 3 held 0 3 made 0\n";

#[test]
fn each_line_is_written_once(rt: HostRuntime) -> Result<(), Fail> {
    let alloc = rt.alloc();
    let line = "jm|--on|r.x = s.y|--early|r|s|--workers|1";
    assert!(rt; writes_each(&rt, alloc, line, "", &NoGate)?, "by 1");
    let line = "jm|--on|r.x = s.y|--early|r|s|--workers|4";
    assert!(rt; writes_each(&rt, alloc, line, "", &NoGate)?, "by 4");
    let line = "jm|--on|r.x = s.y|--early|r|s|--workers|16";
    assert!(rt; writes_each(&rt, alloc, line, "", &NoGate)?, "by 16");
    let line = "jm|--on|r.x = s.y|--early|r|s|--fixed|0|--seed|42|--report";
    assert!(rt;
        writes_each(&rt, alloc, line, REPORT, &NoGate)?,
        "and the report"
    );
    Ok(())
}

#[test]
fn each_line_is_written_by_two_who_meet(rt: HostRuntime) -> Result<(), Fail> {
    let gate = PairGate::new(Actor::Joiner(0), Actor::Collector, 1 << 27);
    let line = "jm|--on|r.x = s.y|--early|r|s|--feeders|1|--workers|2";
    assert!(rt; writes_each(&rt, rt.alloc(), line, "", &gate)?, "each line");
    assert!(rt; gate.met(), "the two meet");
    Ok(())
}

// Notes how often the gate was passed before its first put.
#[derive(Drop)]
struct NotingSink<'a> {
    gate: &'a CountingGate,
    first: Option<u64>,
}

impl<'a> Sink for NotingSink<'a> {
    ghost written = { λ _. None };

    ghost faults = { λ _. 0 };

    ghost takes = { λ _ _. ⊤ };

    fn put(&mut self, _piece: &[u8]) -> Result<(), Failed> {
        if self.first.is_none() {
            self.first = Some(self.gate.passes());
        }
        Ok(())
    }
}

// The status of a run of 40 rows a side in one thread, and the passes before the first put.
fn first_put<R: Threads + Wait + Sync>(
    rt: &R,
    alloc: Global,
    gate: &CountingGate,
) -> Result<(u8, Option<u64>), AllocError> {
    let r = forty(alloc, "x\n")?;
    let s = forty(alloc, "y\n")?;
    let mut shelf = shelf_of(alloc, &r, &s)?;
    let mut sink = NotingSink { gate, first: None };
    let line = "jm|--on|1 = 1|--early|--workers|1|--batch|1|r|s";
    let status = status_of(rt, alloc, line, &mut shelf, &mut sink, gate)?;
    Ok((status, sink.first))
}

#[test]
fn lines_are_written_before_the_last_round(rt: HostRuntime) -> Result<(), Fail> {
    let gate = CountingGate::new();
    let (status, first) = first_put(&rt, rt.alloc(), &gate)?;
    assert_eq!(rt; status, 0);
    let first = first.unwrap_or(u64::MAX);
    assert!(rt; first < gate.passes(), "the passes before the first put");
    Ok(())
}

// Whether the run of 40 rows a side ends so at a first put that fails.
fn ends_at_the_first_put<R: Threads + Wait + Sync>(
    rt: &R,
    alloc: Global,
) -> Result<bool, AllocError> {
    let r = forty(alloc, "x\n")?;
    let s = forty(alloc, "y\n")?;
    let line = "jm|--on|1 = 1|--early|r|s";
    let wanted = (7, "write: failed\n", "");
    ends(rt, alloc, line, (&r, &s), (NEVER, NEVER, 1), wanted)
}

#[test]
fn a_first_put_that_fails_ends_it(rt: HostRuntime) -> Result<(), Fail> {
    assert!(rt; ends_at_the_first_put(&rt, rt.alloc())?);
    Ok(())
}
