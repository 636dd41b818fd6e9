// Runs whose messages go over rings.

use super::extremes::joins_two_thousand;
use super::made::sums_up;
use super::{NEVER, ROOM, failing_sink, outcome_of, shelf_of};
use epoch_tags::Actor;
use join_cli::Outcome;
use std::alloc::{AllocError, Global};
use std::process::Abort;
use std::sync::Wait;
use std::test::Fail;
use std::thread::Threads;
use worker_gate::{Gate, NoGate, PairGate};

const R: &str = "id,x\n1,10\n2,20\n3,30\n";

const S: &str = "id,y\n1,20\n2,30\n3,20\n";

const PAIRS: &str = "2,1\n2,3\n3,2\n";

// The words of this line, before the predicate and the files, write these bytes, by a run over rings to its end.
fn writes<R: Abort + Threads + Wait + Sync, G: Gate + Sync>(
    rt: &R,
    alloc: Global,
    options: &str,
    written: &str,
    gate: &G,
) -> Result<(), AllocError> {
    let line = format!(in alloc; "jm|{options}|--rings|--on|r.x = s.y|r|s")?;
    let mut shelf = shelf_of(alloc, self::R, S)?;
    let mut sink = failing_sink(alloc, ROOM, NEVER)?;
    let over = match outcome_of(rt, alloc, line.as_str(), &mut shelf, &mut sink, gate)? {
        Outcome::DoneRings { fallen, .. } => !fallen,
        _ => false,
    };
    assert!(rt; over, "{line} is done over rings");
    assert!(rt; sink.written() == written.as_bytes(), "{line}");
    Ok(())
}

#[test]
fn joins_over_rings(rt: HostRuntime) -> Result<(), Fail> {
    let alloc = rt.alloc();
    let cases = [
        "--seed|1",
        "--joiners|1|--workers|1|--feeders|1",
        "--joiners|64|--feeders|8|--workers|16|--batch|1",
        "--fixed|0|--weight-r|3|--feed|sfirst",
    ];
    for options in cases {
        writes(&rt, alloc, options, PAIRS, &NoGate)?;
    }
    Ok(())
}

#[test]
fn joined_rows_and_a_report(rt: HostRuntime) -> Result<(), Fail> {
    let alloc = rt.alloc();
    let rows = "2,20,1,20\n2,20,3,20\n3,30,2,30\n";
    writes(&rt, alloc, "--rows", rows, &NoGate)?;
    let report = "input 3 3\nfinal 1 1 copies 6 best 6\njoiner 0 held 3 3 made 3\n";
    let wanted = format!(in alloc; "{PAIRS}{report}")?;
    writes(&rt, alloc, "--joiners|1|--report", wanted.as_str(), &NoGate)?;
    Ok(())
}

#[test]
fn made_tables_over_rings(rt: HostRuntime) -> Result<(), Fail> {
    let alloc = rt.alloc();
    joins_two_thousand(&rt, alloc, "--rings")?;
    let line = "jm|--on|r.key = s.key|--make|20000|--rings|--joiners|64|--feeders|8|--workers|16";
    let summary = "rows 20000 20000\npairs 400000\nsum 8000400000\n";
    sums_up(&rt, alloc, line, summary)?;
    Ok(())
}

#[test]
fn two_actors_meet(rt: HostRuntime) -> Result<(), Fail> {
    let gate = PairGate::new(Actor::Joiner(0), Actor::Collector, 1 << 27);
    writes(&rt, rt.alloc(), "--feeders|1|--workers|2", PAIRS, &gate)?;
    assert!(rt; gate.met(), "the two actors meet");
    Ok(())
}
