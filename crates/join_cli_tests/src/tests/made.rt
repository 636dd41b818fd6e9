// Joined rows, and made tables.

use super::{NEVER, ends};
use std::alloc::{AllocError, Global};
use std::process::Abort;
use std::sync::Wait;
use std::test::Fail;
use std::thread::Threads;

#[test]
fn writes_joined_rows(rt: HostRuntime) -> Result<(), Fail> {
    let r = "\u{feff}trade,\"Unit Price\",at\r\nT1,105,900\r\n\"T,2\",99,903\r\n";
    let s = "quote,bid,at\r\nQ1,100,898\r\nQ2,101,902\r\nQ3,97,903\r\n";
    let line = "jm|--on|abs(r.at - s.at) <= 2 and r.\"Unit Price\" >= s.bid|--rows|r|s";
    let written = "T1,105,900,Q1,100,898\nT1,105,900,Q2,101,902\n\"T,2\",99,903,Q3,97,903\n";
    let calls = (NEVER, NEVER, NEVER);
    let same = ends(&rt, rt.alloc(), line, (r, s), calls, (0, "", written))?;
    assert!(rt; same);
    Ok(())
}

// A run over made tables writes this, though each call of the shelf would fail.
pub(super) fn sums_up<R: Abort + Threads + Wait + Sync>(
    rt: &R,
    alloc: Global,
    line: &str,
    written: &str,
) -> Result<(), AllocError> {
    let calls = (1, 1, NEVER);
    let same = ends(rt, alloc, line, ("", ""), calls, (0, "", written))?;
    assert!(rt; same, "of {written}");
    Ok(())
}

#[test]
fn sums_up_made_tables(rt: HostRuntime) -> Result<(), Fail> {
    let alloc = rt.alloc();
    let line = "jm|--on|r.key = s.key|--make|3";
    sums_up(&rt, alloc, line, "rows 3 3\npairs 1\nsum 2\n")?;
    let line = "jm|--on|r.key = s.key|--make|3|--report|--joiners|1";
    let report =
        "rows 3 3\npairs 1\nsum 2\ninput 3 3\nfinal 1 1 copies 6 best 6\njoiner 0 held 3 3 made 1\n";
    sums_up(&rt, alloc, line, report)?;
    let line = "jm|--on|r.key = s.key|--make|2000|--seed|5|--workers|2";
    sums_up(
        &rt,
        alloc,
        line,
        "rows 2000 2000\npairs 4000\nsum 8004000\n",
    )?;
    Ok(())
}
