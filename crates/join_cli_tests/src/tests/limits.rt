// Files at the limits, and one past them.

use super::{NEVER, ends};
use std::alloc::{AllocError, Global};
use std::process::Abort;
use std::sync::Wait;
use std::test::Fail;
use std::thread::Threads;

// A header and so many lines.
fn file(alloc: Global, header: &str, line: &str, count: usize) -> Result<String, AllocError> {
    let mut text = String::from_str(alloc, header)?;
    let lines = line.repeat(alloc, count)?;
    text.push_str(lines.as_str())?;
    Ok(text)
}

// A run of these words over so many of these lines in the file of R and in that of S ends so.
fn takes_over<R: Abort + Threads + Wait + Sync>(
    rt: &R,
    alloc: Global,
    line: &str,
    of_r: (&str, usize),
    of_s: (&str, usize),
    status: u8,
    told: &str,
) -> Result<(), AllocError> {
    let r = file(alloc, "a\n", of_r.0, of_r.1)?;
    let s = file(alloc, "b\n", of_s.0, of_s.1)?;
    let calls = (NEVER, NEVER, NEVER);
    let same = ends(rt, alloc, line, (&r, &s), calls, (status, told, ""))?;
    assert!(rt; same, "for {told}");
    Ok(())
}

// The same of one wave.
fn takes<R: Abort + Threads + Wait + Sync>(
    rt: &R,
    alloc: Global,
    of_r: (&str, usize),
    of_s: (&str, usize),
    status: u8,
    told: &str,
) -> Result<(), AllocError> {
    takes_over(rt, alloc, "jm|--on|r.a = s.b|r|s", of_r, of_s, status, told)
}

#[test]
fn takes_so_many_bytes(rt: HostRuntime) -> Result<(), Fail> {
    let alloc = rt.alloc();
    takes(&rt, alloc, ("\n", 16_777_214), ("", 0), 0, "")?;
    let told = "limit: R has more than 16777216 bytes\n";
    takes(&rt, alloc, ("\n", 16_777_215), ("", 0), 5, told)?;
    let told = "limit: S has more than 16777216 bytes\n";
    takes(&rt, alloc, ("", 0), ("\n", 16_777_215), 5, told)?;
    Ok(())
}

#[test]
fn takes_so_many_rows(rt: HostRuntime) -> Result<(), Fail> {
    let alloc = rt.alloc();
    takes(&rt, alloc, ("1\n", 262_144), ("", 0), 0, "")?;
    let told = "limit: R has more than 262144 rows\n";
    takes(&rt, alloc, ("1\n", 262_145), ("", 0), 5, told)?;
    let told = "limit: S has more than 262144 rows\n";
    takes(&rt, alloc, ("", 0), ("1\n", 262_145), 5, told)?;
    Ok(())
}

// The files of later waves are those of the first once more.
#[test]
fn takes_so_many_rows_in_all(rt: HostRuntime) -> Result<(), Fail> {
    let alloc = rt.alloc();
    let two = "jm|--on|r.a = s.b|r|s|r|s";
    takes_over(&rt, alloc, two, ("1\n", 131_072), ("", 0), 0, "")?;
    let told = "limit: R2 has 262146 rows in all\n";
    takes_over(&rt, alloc, two, ("1\n", 131_073), ("", 0), 5, told)?;
    let three = "jm|--on|r.a = s.b|r|s|r|s|r|s";
    let told = "limit: S3 has 262146 rows in all\n";
    takes_over(&rt, alloc, three, ("", 0), ("1\n", 87_382), 5, told)?;
    Ok(())
}
