// What a second join refuses, in the order in which it is looked at.

use super::chain::{Q, R, S, chain_ends};
use std::alloc::{AllocError, Global};
use std::process::Abort;
use std::sync::Wait;
use std::test::Fail;
use std::thread::Threads;

// A file of a header and 513 lines.
fn many(alloc: Global, header: &str) -> Result<String, AllocError> {
    let mut text = String::from_str(alloc, header)?;
    for _ in 0..513 {
        text.push_str("1\n")?;
    }
    Ok(text)
}

// Two predicates end with this status and this line over these files, and write nothing.
fn refuses<R: Abort + Threads + Wait + Sync>(
    rt: &R,
    alloc: Global,
    texts: (&str, &str),
    files: (&str, &str, &str),
    wanted: (u8, &str),
) -> Result<(), AllocError> {
    let (on, further) = texts;
    let line = format!(in alloc; "jm|--on|{on}|--then|{further}|r|s|q")?;
    chain_ends(rt, alloc, line.as_str(), files, (wanted.0, wanted.1, ""))
}

const BOTH: (&str, &str) = ("r.x = s.y", "r.s_id = s.z");

#[test]
fn refuses_texts_before_files(rt: HostRuntime) -> Result<(), Fail> {
    let alloc = rt.alloc();
    let files = ("", S, Q);
    let told = (3, "then: not understood at byte 2\n");
    refuses(&rt, alloc, ("r.x = s.y", "r."), files, told)?;
    let told = (3, "predicate: not understood at byte 2\n");
    refuses(&rt, alloc, ("r.", "r."), files, told)?;
    let told = (4, "input: R has no header\n");
    refuses(&rt, alloc, BOTH, files, told)?;
    Ok(())
}

#[test]
fn refuses_the_third_file_behind_the_second(rt: HostRuntime) -> Result<(), Fail> {
    let alloc = rt.alloc();
    let told = (4, "input: S row 1 has 1 fields\n");
    refuses(&rt, alloc, BOTH, (R, "id,y\n1\n", ""), told)?;
    let told = (4, "input: S2 has no header\n");
    refuses(
        &rt,
        alloc,
        ("r.x = s.nope", "r.s_id = s.z"),
        (R, S, ""),
        told,
    )?;
    let told = (4, "input: S2 row 2 has 3 fields\n");
    refuses(&rt, alloc, BOTH, (R, S, "id,z\n1,1\n2,3,4\n"), told)?;
    Ok(())
}

#[test]
fn a_missing_third_file_is_not_read(rt: HostRuntime) -> Result<(), Fail> {
    let alloc = rt.alloc();
    let line = "jm|--on|r.x = s.y|--then|r.s_id = s.z|r|s|t";
    chain_ends(&rt, alloc, line, (R, S, Q), (6, "read: failed\n", ""))?;
    Ok(())
}

#[test]
fn refuses_columns_of_the_first_before_those_of_the_second(rt: HostRuntime) -> Result<(), Fail> {
    let alloc = rt.alloc();
    let told = (3, "predicate: S has no column nope\n");
    refuses(&rt, alloc, ("r.x = s.nope", "r.id = s.z"), (R, S, Q), told)?;
    let told = (3, "then: R has no column id\n");
    refuses(&rt, alloc, ("r.x = s.y", "r.id = s.z"), (R, S, Q), told)?;
    let told = (3, "then: S has no column nope\n");
    refuses(
        &rt,
        alloc,
        ("r.x = s.y", "r.s_id = s.nope"),
        (R, S, Q),
        told,
    )?;
    let told = (3, "then: S has column z more than once\n");
    refuses(&rt, alloc, BOTH, (R, S, "z,z\n"), told)?;
    Ok(())
}

#[test]
fn refuses_numbers_of_the_file_that_they_are_in(rt: HostRuntime) -> Result<(), Fail> {
    let alloc = rt.alloc();
    let r = "id,x,v\n1,10,a\n";
    let s = "id,y,v\n1,10,7\n2,10,b\n";
    let q = "id,z\n1,1\n2,c\n";
    let told = (4, "input: S row 2 column 3 is no number\n");
    refuses(&rt, alloc, ("r.x = s.v", "r.r_v = s.z"), (r, s, q), told)?;
    let told = (4, "input: R row 1 column 3 is no number\n");
    refuses(
        &rt,
        alloc,
        ("r.x = s.y", "r.s_v + r.r_v = s.z"),
        (r, s, q),
        told,
    )?;
    let told = (4, "input: S row 2 column 3 is no number\n");
    refuses(
        &rt,
        alloc,
        ("r.x = s.y", "r.s_v + r.r_x = s.z"),
        (r, s, q),
        told,
    )?;
    let told = (4, "input: S2 row 2 column 2 is no number\n");
    refuses(
        &rt,
        alloc,
        ("r.x = s.y", "r.s_id + r.r_x = s.z"),
        (r, s, q),
        told,
    )?;
    Ok(())
}

#[test]
fn refuses_too_many_pairs_between_the_joins(rt: HostRuntime) -> Result<(), Fail> {
    let alloc = rt.alloc();
    let r = many(alloc, "x\n")?;
    let told = (5, "limit: 263169 pairs between the joins\n");
    let texts = ("1 = 1", "r.r_x = s.z");
    refuses(&rt, alloc, texts, (r.as_str(), r.as_str(), Q), told)?;
    let told = (4, "input: S2 row 1 column 2 is no number\n");
    refuses(
        &rt,
        alloc,
        texts,
        (r.as_str(), r.as_str(), "id,z\n1,a\n"),
        told,
    )?;
    Ok(())
}
