// Worked rows that end well.

use super::{NEVER, ROOM, ends, shelf_of, status_of};
use join_rows::ListSink;
use std::alloc::{AllocError, Global};
use std::process::Abort;
use std::sync::Wait;
use std::test::Fail;
use std::thread::Threads;
use worker_gate::NoGate;

const R: &str = "id,x\n1,10\n2,20\n3,30\n";

const S: &str = "id,y\n1,20\n2,30\n3,20\n";

// The words of this line write these bytes.
fn writes<R: Abort + Threads + Wait + Sync>(
    rt: &R,
    alloc: Global,
    line: &str,
    r: &str,
    s: &str,
    written: &str,
) -> Result<(), AllocError> {
    let calls = (NEVER, NEVER, NEVER);
    let same = ends(rt, alloc, line, (r, s), calls, (0, "", written))?;
    assert!(rt; same, "by {line}");
    Ok(())
}

// The same with this predicate alone.
fn matches<R: Abort + Threads + Wait + Sync>(
    rt: &R,
    alloc: Global,
    on: &str,
    r: &str,
    s: &str,
    written: &str,
) -> Result<(), AllocError> {
    let line = format!(in alloc; "jm|--on|{on}|r|s")?;
    writes(rt, alloc, line.as_str(), r, s, written)
}

#[test]
fn writes_the_matching_pairs(rt: HostRuntime) -> Result<(), Fail> {
    let alloc = rt.alloc();
    matches(&rt, alloc, "r.x = s.y", R, S, "2,1\n2,3\n3,2\n")?;
    matches(&rt, alloc, "r.x = s.y", "id,x\n", S, "")?;
    matches(&rt, alloc, "r.x = s.y", "x\n7\n7\n", "y\n7\n", "1,1\n2,1\n")?;
    Ok(())
}

#[test]
fn writes_pairs_of_bands(rt: HostRuntime) -> Result<(), Fail> {
    let alloc = rt.alloc();
    let r = "t\n10\n20\n";
    let s = "t\n15\n26\n4\n";
    matches(&rt, alloc, "abs(r.t - s.t) <= 5", r, s, "1,1\n2,1\n")?;
    let r = "x\n9223372036854775807\n";
    let s = "y\n-9223372036854775808\n";
    matches(&rt, alloc, "r.x - s.y >= 1", r, s, "1,1\n")?;
    let on = "abs(r.at - s.at) <= 2 and r.\"Unit Price\" >= s.bid";
    let r = "\u{feff}trade,\"Unit Price\",at\r\nT1,105,900\r\n\"T,2\",99,903\r\n";
    let s = "quote,bid,at\r\nQ1,100,898\r\nQ2,101,902\r\nQ3,97,903\r\n";
    matches(&rt, alloc, on, r, s, "1,1\n1,2\n2,3\n")?;
    Ok(())
}

#[test]
fn empty_cells_match_nothing(rt: HostRuntime) -> Result<(), Fail> {
    let alloc = rt.alloc();
    let r = "id,x\n1,\n2,5\n";
    let s = "id,y\n1,5\n";
    matches(&rt, alloc, "not (r.x = s.y)", r, s, "1,1\n")?;
    matches(&rt, alloc, "r.x = s.y", r, s, "2,1\n")?;
    matches(&rt, alloc, "r.x != s.y", r, s, "")?;
    Ok(())
}

#[test]
fn joins_a_file_with_itself(rt: HostRuntime) -> Result<(), Fail> {
    let line = "jm|--on|r.x < s.x|r|r";
    writes(&rt, rt.alloc(), line, "x\n1\n2\n3\n", "", "1,2\n1,3\n2,3\n")?;
    Ok(())
}

// The output of these words.
fn output<R: Threads + Wait + Sync>(
    rt: &R,
    alloc: Global,
    line: &str,
) -> Result<Vec<u8>, AllocError> {
    let mut shelf = shelf_of(alloc, R, S)?;
    let mut sink = ListSink::new(alloc, ROOM)?;
    let _status = status_of(rt, alloc, line, &mut shelf, &mut sink, &NoGate)?;
    Vec::from_slice(alloc, sink.written())
}

#[test]
fn replays_twice(rt: HostRuntime) -> Result<(), Fail> {
    let line = "jm|--on|r.x = s.y|--replay|7|--report|r|s";
    let once = output(&rt, rt.alloc(), line)?;
    let twice = output(&rt, rt.alloc(), line)?;
    assert!(rt; once.starts_with(b"2,1\n2,3\n3,2\ninput 3 3\n"));
    assert!(rt; once == twice);
    Ok(())
}

#[test]
fn one_side_has_no_rows(rt: HostRuntime) -> Result<(), Fail> {
    let line = "jm|--on|r.x = s.y|--report|r|s";
    let wide =
        "input 0 3\ngrid 1 1 4 moved 0\nfinal 1 4 copies 3 best 3\njoiner 0 held 0 0 made 0\njoiner 1 held 0 2 made 0\njoiner 2 held 0 1 made 0\njoiner 3 held 0 0 made 0\n";
    writes(&rt, rt.alloc(), line, "id,x\n", S, wide)?;
    Ok(())
}

// The words of this line, and then the predicate and the files, write these bytes.
fn writes_with<R: Abort + Threads + Wait + Sync>(
    rt: &R,
    alloc: Global,
    options: &str,
    written: &str,
) -> Result<(), AllocError> {
    let line = format!(in alloc; "jm|{options}|--on|r.x = s.y|r|s")?;
    writes(rt, alloc, line.as_str(), R, S, written)
}

// A grid of four that stays at shift 0: what rows of R weigh changes its copies and the least, and nothing else.
#[test]
fn reports_what_rows_weigh(rt: HostRuntime) -> Result<(), Fail> {
    let alloc = rt.alloc();
    let pairs = "2,1\n2,3\n3,2\ninput 3 3\n";
    let joiners =
        "joiner 0 held 0 3 made 0\njoiner 1 held 1 3 made 2\njoiner 2 held 2 3 made 1\njoiner 3 held 0 3 made 0\n";
    let cases = [
        ("--weight-r|1", "final 4 1 copies 15 best 12\n"),
        ("--weight-r|4", "final 4 1 copies 24 best 24\n"),
        ("--weight-s|4", "final 4 1 copies 51 best 24\n"),
    ];
    for (weight, last) in cases {
        let options = format!(in alloc; "--joiners|4|--fixed|0|--seed|42|{weight}|--report")?;
        let wanted = format!(in alloc; "{pairs}{last}{joiners}")?;
        writes_with(&rt, alloc, options.as_str(), wanted.as_str())?;
    }
    Ok(())
}

// Three rows a side: by their number the grid of two rows of two joiners is the best, and stays. Where a row of R
// weighs 4 it is soon four rows of one, so that each row of R is held once.
#[test]
fn a_wide_side_moves_the_grid(rt: HostRuntime) -> Result<(), Fail> {
    let alloc = rt.alloc();
    let wide =
        "2,1\n2,3\n3,2\ninput 3 3\ngrid 1 4 1 moved 0\nfinal 4 1 copies 24 best 24\njoiner 0 held 0 3 made 0\njoiner 1 held 1 3 made 2\njoiner 2 held 2 3 made 1\njoiner 3 held 0 3 made 0\n";
    writes_with(&rt, alloc, "--seed|42|--weight-r|4|--report", wide)?;
    Ok(())
}

#[test]
fn reports_the_grid(rt: HostRuntime) -> Result<(), Fail> {
    let alloc = rt.alloc();
    let wide =
        "2,1\n2,3\n3,2\ninput 3 3\nfinal 4 1 copies 15 best 12\njoiner 0 held 0 3 made 0\njoiner 1 held 1 3 made 2\njoiner 2 held 2 3 made 1\njoiner 3 held 0 3 made 0\n";
    let options = "--joiners|4|--fixed|0|--seed|42|--report";
    writes_with(&rt, alloc, options, wide)?;
    let one = "2,1\n2,3\n3,2\ninput 3 3\nfinal 1 1 copies 6 best 6\njoiner 0 held 3 3 made 3\n";
    writes_with(&rt, alloc, "--joiners|1|--report", one)?;
    let pairs = "2,1\n2,3\n3,2\n";
    writes_with(&rt, alloc, "--joiners|1", pairs)?;
    writes_with(&rt, alloc, "--feed|rfirst|--feeders|3|--batch|1", pairs)?;
    writes_with(&rt, alloc, "--joiners|64|--seed|7", pairs)?;
    Ok(())
}
