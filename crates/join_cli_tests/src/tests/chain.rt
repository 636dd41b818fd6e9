// A second join, of the joined rows with a third file.

ghost use Rattle.std.specs.Prelude.{◌≡◌, ◌<◌, IfOk};
ghost use Rattle.join_rows.specs.Shelves.{last_fault};

use super::{NEVER, ROOM, failing_sink, main_status, outcome_of, shelf_of};
use join_cli::Outcome;
use join_rows::{ListSink, MapShelf};
use std::alloc::{AllocError, Global};
use std::process::Abort;
use std::sync::Wait;
use std::test::Fail;
use std::thread::Threads;
use worker_gate::NoGate;

pub(super) const R: &str = "id,x\n1,10\n2,20\n3,30\n";

pub(super) const S: &str = "id,y\n1,20\n2,30\n3,20\n";

pub(super) const Q: &str = "id,z\n1,1\n2,3\n";

const TRIPLES: &str = "2,1,1\n2,3,2\n";

// A shelf with these files `r`, `s` and `q`.
pub(super) fn shelf_of_three(
    alloc: Global,
    files: (&str, &str, &str),
) -> Result<MapShelf, AllocError>
    ensures { IfOk result (λ shelf. shelf.faults ≡ 0) }
{
    let mut shelf = shelf_of(alloc, files.0, files.1)?;
    shelf.add("q", files.2.as_bytes())?;
    Ok(shelf)
}

// The words end with this status over these files, put this line on standard error and write these bytes.
pub(super) fn chain_ends<R: Abort + Threads + Wait + Sync>(
    rt: &R,
    alloc: Global,
    line: &str,
    files: (&str, &str, &str),
    wanted: (u8, &str, &str),
) -> Result<(), AllocError> {
    let mut shelf = shelf_of_three(alloc, files)?;
    let mut sink = failing_sink(alloc, ROOM, NEVER)?;
    let mut errors = ListSink::new(alloc, 200)?;
    let status = main_status(rt, alloc, line, &mut shelf, &mut sink, &mut errors)?;
    let (wanted_status, told, written) = wanted;
    assert!(rt; errors.written() == told.as_bytes(), "{line} tells {told}");
    assert!(rt; sink.written() == written.as_bytes(), "{line} writes");
    assert!(rt; status == wanted_status, "{line}");
    Ok(())
}

// The words of this line before those of a second join write these bytes.
fn writes<R: Abort + Threads + Wait + Sync>(
    rt: &R,
    alloc: Global,
    options: &str,
    written: &str,
) -> Result<(), AllocError> {
    let line = format!(in alloc; "jm|{options}|--on|r.x = s.y|--then|r.s_id = s.z|r|s|q")?;
    chain_ends(rt, alloc, line.as_str(), (R, S, Q), (0, "", written))
}

#[test]
fn joins_three_files(rt: HostRuntime) -> Result<(), Fail> {
    let alloc = rt.alloc();
    writes(&rt, alloc, "--seed|1", TRIPLES)?;
    writes(&rt, alloc, "--joiners|1|--workers|1|--feeders|1", TRIPLES)?;
    writes(&rt, alloc, "--joiners|64|--feeders|8|--batch|1", TRIPLES)?;
    writes(&rt, alloc, "--fixed|0|--weight-r|3|--feed|sfirst", TRIPLES)?;
    Ok(())
}

#[test]
fn reports_both_joins(rt: HostRuntime) -> Result<(), Fail> {
    let alloc = rt.alloc();
    let first = "input 3 3\nfinal 1 1 copies 6 best 6\njoiner 0 held 3 3 made 3\n";
    let second = "input 3 2\nfinal 1 1 copies 5 best 5\njoiner 0 held 3 2 made 2\n";
    let wanted = format!(in alloc; "{TRIPLES}{first}{second}")?;
    writes(&rt, alloc, "--joiners|1|--report", wanted.as_str())?;
    Ok(())
}

#[test]
fn triples_stand_in_their_order(rt: HostRuntime) -> Result<(), Fail> {
    let alloc = rt.alloc();
    let line = "jm|--on|1 = 1|--then|text(r.r_k) != text(s.k)|r|s|q";
    let files = ("k\na\nb\n", "k\nc\nd\n", "k\na\nb\na\n");
    let written = "1,1,2\n1,2,2\n2,1,1\n2,1,3\n2,2,1\n2,2,3\n";
    chain_ends(&rt, alloc, line, files, (0, "", written))?;
    Ok(())
}

#[test]
fn no_pair_and_no_row_leave_no_triple(rt: HostRuntime) -> Result<(), Fail> {
    let alloc = rt.alloc();
    let line = "jm|--on|r.x = s.y|--then|r.s_id = s.z|r|s|q";
    chain_ends(&rt, alloc, line, ("id,x\n", S, Q), (0, "", ""))?;
    chain_ends(&rt, alloc, line, (R, "id,y\n1,7\n", Q), (0, "", ""))?;
    chain_ends(&rt, alloc, line, (R, S, "id,z\n"), (0, "", ""))?;
    Ok(())
}

// How many ends a chain that is done leaves.
fn left<R: Threads + Wait + Sync>(
    rt: &R,
    alloc: Global,
    line: &str,
    sink: &mut ListSink,
) -> Result<Option<u64>, AllocError>
    requires { sink.old.faults < last_fault }
{
    let mut shelf = shelf_of_three(alloc, (self::R, S, Q))?;
    match outcome_of(rt, alloc, line, &mut shelf, sink, &NoGate)? {
        Outcome::DoneChain { trail, .. } => Ok(Some(trail.len())),
        _ => Ok(None),
    }
}

#[test]
fn leaves_the_ends_of_both_runs(rt: HostRuntime) -> Result<(), Fail> {
    let alloc = rt.alloc();
    let mut sink = failing_sink(alloc, ROOM, NEVER)?;
    let line = "jm|--on|r.x = s.y|--then|r.s_id = s.z|r|s|q";
    assert_eq!(rt; left(&rt, alloc, line, &mut sink)?, Some(2));
    Ok(())
}
