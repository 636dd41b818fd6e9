// Any number of joiners, in groups.

ghost use Rattle.std.specs.Prelude.{◌<◌};
ghost use Rattle.join_rows.specs.Shelves.{last_fault};

use super::extremes::joins_two_thousand;
use super::{ROOM, failing_sink, outcome_of, shelf_of};
use join_cli::Outcome;
use join_rows::ListSink;
use std::alloc::{AllocError, Global};
use std::process::Abort;
use std::sync::Wait;
use std::test::Fail;
use std::thread::Threads;
use worker_gate::NoGate;

const R: &str = "id,x\n1,10\n2,20\n3,30\n";

const S: &str = "id,y\n1,20\n2,30\n3,20\n";

const PAIRS: &str = "2,1\n2,3\n3,2\n";

#[test]
fn any_number_of_joiners(rt: HostRuntime) -> Result<(), Fail> {
    let alloc = rt.alloc();
    for joiners in [1, 3, 5, 7, 48, 63] {
        let words = format!(in alloc; "--groups|--joiners|{joiners}")?;
        joins_two_thousand(&rt, alloc, &words)?;
    }
    Ok(())
}

// How many journals and ends a run of groups leaves; none where it isn't done so.
fn left<R: Threads + Wait + Sync>(
    rt: &R,
    alloc: Global,
    line: &str,
    sink: &mut ListSink,
) -> Result<Option<(u64, u64)>, AllocError>
    requires { sink.old.faults < last_fault }
{
    let mut shelf = shelf_of(alloc, self::R, S)?;
    match outcome_of(rt, alloc, line, &mut shelf, sink, &NoGate)? {
        Outcome::DoneGroups { journals, trail } => Ok(Some((journals.len(), trail.len()))),
        _ => Ok(None),
    }
}

// The words of this line, before the predicate and the files, write these bytes and leave so many journals and ends.
fn writes<R: Abort + Threads + Wait + Sync>(
    rt: &R,
    alloc: Global,
    options: &str,
    groups: u64,
    written: &str,
) -> Result<(), AllocError> {
    let line = format!(in alloc; "jm|{options}|--groups|--on|r.x = s.y|r|s")?;
    let mut sink = failing_sink(alloc, ROOM, super::NEVER)?;
    let left = left(rt, alloc, line.as_str(), &mut sink)?;
    assert!(rt; left == Some((groups, groups)), "{line}");
    assert!(rt; sink.written() == written.as_bytes(), "{line}");
    Ok(())
}

#[test]
fn each_group_leaves_its_own(rt: HostRuntime) -> Result<(), Fail> {
    let alloc = rt.alloc();
    for (joiners, groups) in [(1, 1), (4, 1), (5, 2), (7, 3), (63, 6)] {
        let options = format!(in alloc; "--joiners|{joiners}")?;
        writes(&rt, alloc, &options, groups, PAIRS)?;
    }
    Ok(())
}

// One feeder, so that the counts come in one order: of the three rows of R two are drawn for the first group, whose
// grid is soon one row of its two joiners, and one for the second.
#[test]
fn reports_each_group(rt: HostRuntime) -> Result<(), Fail> {
    let alloc = rt.alloc();
    let wide =
        "group 0 2\ninput 2 3\ngrid 1 1 2 moved 0\nfinal 1 2 copies 7 best 7\njoiner 0 held 2 2 made 1\njoiner 1 held 2 1 made 0\n";
    let narrow = "group 1 1\ninput 1 3\nfinal 1 1 copies 4 best 4\njoiner 0 held 1 3 made 2\n";
    let wanted = format!(in alloc; "{PAIRS}{wide}{narrow}")?;
    let options = "--joiners|3|--feeders|1|--seed|2|--report";
    writes(&rt, alloc, options, 2, wanted.as_str())?;
    Ok(())
}
