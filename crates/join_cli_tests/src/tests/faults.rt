// Worked rows that are refused, and nothing is written.

use super::{NEVER, ends};
use std::alloc::{AllocError, Global};
use std::process::Abort;
use std::sync::Wait;
use std::test::Fail;
use std::thread::Threads;

const R: &str = "id,x\n1,10\n2,20\n3,30\n";

const S: &str = "id,y\n1,20\n2,30\n3,20\n";

const USAGE: &str = "usage: jm --on TEXT [options] R.csv S.csv\n";

// The words end with this status and this line on standard error, and write nothing.
fn ends_so<R: Abort + Threads + Wait + Sync>(
    rt: &R,
    alloc: Global,
    line: &str,
    files: (&str, &str),
    status: u8,
    told: &str,
) -> Result<(), AllocError> {
    let calls = (NEVER, NEVER, NEVER);
    let same = ends(rt, alloc, line, files, calls, (status, told, ""))?;
    assert!(rt; same, "{line} tells {told}");
    Ok(())
}

fn refuses_line<R: Abort + Threads + Wait + Sync>(
    rt: &R,
    alloc: Global,
    line: &str,
) -> Result<(), AllocError> {
    ends_so(rt, alloc, line, (R, S), 2, USAGE)
}

#[test]
fn refuses_words(rt: HostRuntime) -> Result<(), Fail> {
    let alloc = rt.alloc();
    refuses_line(&rt, alloc, "")?;
    refuses_line(&rt, alloc, "jm")?;
    refuses_line(&rt, alloc, "jm|--help")?;
    refuses_line(&rt, alloc, "jm|--on|r.|r")?;
    refuses_line(&rt, alloc, "jm|--on|r.|--joiners|3|r|s")?;
    refuses_line(&rt, alloc, "jm|--on|r.|--joiners|4|--fixed|3|r|s")?;
    refuses_line(&rt, alloc, "jm|--on|r.|--columns|r|s")?;
    refuses_line(&rt, alloc, "jm|--on|r.|--weight-r|0|r|s")?;
    refuses_line(&rt, alloc, "jm|--on|r.|--weight-s|1025|r|s")?;
    refuses_line(&rt, alloc, "jm|--on|r.|--make|3|--rows")?;
    refuses_line(&rt, alloc, "jm|--on|r.|--groups|--fixed|0|r|s")?;
    refuses_line(&rt, alloc, "jm|--on|r.|--rings|--early|r|s")?;
    Ok(())
}

fn refuses_predicate<R: Abort + Threads + Wait + Sync>(
    rt: &R,
    alloc: Global,
    on: &str,
    told: &str,
) -> Result<(), AllocError> {
    let line = format!(in alloc; "jm|--on|{on}|r|s")?;
    ends_so(rt, alloc, line.as_str(), (R, S), 3, told)
}

#[test]
fn refuses_predicates(rt: HostRuntime) -> Result<(), Fail> {
    let alloc = rt.alloc();
    let told = "predicate: not understood at byte 0\n";
    refuses_predicate(&rt, alloc, "", told)?;
    let told = "predicate: not understood at byte 6\n";
    refuses_predicate(&rt, alloc, "r.x = ", told)?;
    let told = "predicate: not understood at byte 5\n";
    refuses_predicate(&rt, alloc, "r.x == s.y", told)?;
    let told = "predicate: number too large at byte 6\n";
    refuses_predicate(&rt, alloc, "r.x = 9223372036854775808", told)?;
    Ok(())
}

#[test]
fn refuses_predicates_past_a_limit(rt: HostRuntime) -> Result<(), Fail> {
    let alloc = rt.alloc();
    let told = "predicate: nested too deep at byte 32\n";
    refuses_predicate(&rt, alloc, "(((((((((((((((((((((((((((((((((", told)?;
    let told = "predicate: sum too long at byte 31\n";
    refuses_predicate(&rt, alloc, "1+1+1+1+1+1+1+1+1+1+1+1+1+1+1+1+1 = 1", told)?;
    Ok(())
}

#[test]
fn refuses_names(rt: HostRuntime) -> Result<(), Fail> {
    let alloc = rt.alloc();
    let told = "predicate: R has no column z\n";
    refuses_predicate(&rt, alloc, "r.z = s.y", told)?;
    let told = "predicate: S has no column \u{e9}\n";
    refuses_predicate(&rt, alloc, "r.x = s.\"\u{e9}\"", told)?;
    Ok(())
}

fn refuses_file<R: Abort + Threads + Wait + Sync>(
    rt: &R,
    alloc: Global,
    r: &str,
    s: &str,
    told: &str,
) -> Result<(), AllocError> {
    ends_so(rt, alloc, "jm|--on|r.x = s.y|r|s", (r, s), 4, told)
}

#[test]
fn refuses_files(rt: HostRuntime) -> Result<(), Fail> {
    let alloc = rt.alloc();
    refuses_file(&rt, alloc, "", "", "input: R has no header\n")?;
    refuses_file(&rt, alloc, R, "\n", "input: S has no header\n")?;
    let narrow = "input: R row 2 has 1 fields\n";
    refuses_file(&rt, alloc, "a,b\n1,2\n3", S, narrow)?;
    Ok(())
}

#[test]
fn refuses_columns(rt: HostRuntime) -> Result<(), Fail> {
    let alloc = rt.alloc();
    let told = "input: S row 3 column 2 is no number\n";
    refuses_file(&rt, alloc, R, "id,y\n1,20\n2,30\n3,4x\n", told)?;
    let told = "input: R row 1 column 2 is no number\n";
    refuses_file(&rt, alloc, "id,x\n1,a\n", "id,y\n1,4x\n", told)?;
    let told = "input: S row 1 has 1 fields\n";
    refuses_file(&rt, alloc, "id,x\n1,a\n", "id,y\n1\n", told)?;
    let files = ("x,x\n1,2\n", "id,y\n1,4x\n");
    let told = "predicate: R has column x more than once\n";
    ends_so(&rt, alloc, "jm|--on|r.x = s.y|r|s", files, 3, told)?;
    Ok(())
}

#[test]
fn looks_in_order(rt: HostRuntime) -> Result<(), Fail> {
    let alloc = rt.alloc();
    let files = ("a,b\n1,2\n3\n", S);
    let narrow = "input: R row 2 has 1 fields\n";
    ends_so(&rt, alloc, "jm|--on|r.x = s.y|r|none", files, 4, narrow)?;
    let syntax = "predicate: not understood at byte 2\n";
    ends_so(&rt, alloc, "jm|--on|r.|none|none", files, 3, syntax)?;
    let read = "read: failed\n";
    ends_so(&rt, alloc, "jm|--on|1 = 1|none|r", files, 6, read)?;
    ends_so(&rt, alloc, "jm|--on|1 = 1|s|none", files, 6, read)?;
    Ok(())
}

// A file S over which the run with this predicate ends so.
fn reads_cut<R: Abort + Threads + Wait + Sync>(
    rt: &R,
    alloc: Global,
    s: &str,
    status: u8,
    told: &str,
) -> Result<(), AllocError> {
    let line = "jm|--on|abs(r.at - s.at) <= 2 and r.\"Unit Price\" >= s.bid|r|s";
    let r = "\u{feff}trade,\"Unit Price\",at\r\nT1,105,900\r\n\"T,2\",99,903\r\n";
    ends_so(rt, alloc, line, (r, s), status, told)
}

#[test]
fn reads_files_that_are_cut(rt: HostRuntime) -> Result<(), Fail> {
    let alloc = rt.alloc();
    reads_cut(&rt, alloc, "", 4, "input: S has no header\n")?;
    reads_cut(&rt, alloc, "quote,bid,at", 0, "")?;
    reads_cut(&rt, alloc, "quote,bid,at\r\n", 0, "")?;
    let s = "quote,bid,at\r\nQ1,100,898\r\nQ2,101,902\r\nQ3,97";
    reads_cut(&rt, alloc, s, 4, "input: S row 3 has 2 fields\n")?;
    Ok(())
}
