// Made tables, joined with every word at its limit, and with values between that no other test has.

use super::made::sums_up;
use std::alloc::{AllocError, Global};
use std::process::Abort;
use std::sync::Wait;
use std::test::Fail;
use std::thread::Threads;

// Two tables of 2,000 rows, joined on equal keys with these words, have their summary.
pub(super) fn joins_two_thousand<R: Abort + Threads + Wait + Sync>(
    rt: &R,
    alloc: Global,
    words: &str,
) -> Result<(), AllocError> {
    let line = format!(in alloc; "jm|--on|r.key = s.key|--make|2000|{words}")?;
    sums_up(
        rt,
        alloc,
        &line,
        "rows 2000 2000\npairs 4000\nsum 8004000\n",
    )
}

#[test]
fn every_word_at_its_limit(rt: HostRuntime) -> Result<(), Fail> {
    let alloc = rt.alloc();
    let most = "--joiners|64|--feeders|8|--workers|16|--batch|1|--weight-r|1024";
    joins_two_thousand(&rt, alloc, most)?;
    let replayed = format!(in alloc; "{most}|--replay|18446744073709551615")?;
    joins_two_thousand(&rt, alloc, &replayed)?;
    Ok(())
}

#[test]
fn grids_and_feeds_between_the_limits(rt: HostRuntime) -> Result<(), Fail> {
    let alloc = rt.alloc();
    let cases = [
        "--joiners|2|--feed|sfirst",
        "--joiners|8|--feed|rfirst|--batch|4096",
        "--joiners|16|--feed|sfirst|--feeders|3|--replay|5",
        "--joiners|32|--fixed|1|--workers|3",
    ];
    for words in cases {
        joins_two_thousand(&rt, alloc, words)?;
    }
    Ok(())
}

#[test]
fn the_most_made_rows(rt: HostRuntime) -> Result<(), Fail> {
    let alloc = rt.alloc();
    let summary = "rows 65536 65536\npairs 4294967\nsum 281479189296\n";
    let cases = ["--batch|4096", "--joiners|1|--workers|1"];
    for words in cases {
        let line = format!(in alloc; "jm|--on|r.key = s.key|--make|65536|{words}")?;
        sums_up(&rt, alloc, &line, summary)?;
    }
    Ok(())
}
