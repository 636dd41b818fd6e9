// Texts that are no predicates of these files.

use super::{FILES, tells};
use std::alloc::{AllocError, Global};
use std::process::Abort;
use std::test::Fail;
use std::thread::Threads;

// The text is refused as this one.
fn refuses<R: Abort + Threads>(
    rt: &R,
    alloc: Global,
    on: &str,
    text: &str,
) -> Result<(), AllocError> {
    let line = format!(in alloc; "jm|--on|{on}|r|s")?;
    tells(rt, alloc, line.as_str(), FILES, (3, text))
}

#[test]
fn a_first_try_in_sql(rt: HostRuntime) -> Result<(), Fail> {
    refuses(
        &rt,
        rt.alloc(),
        "r.x <> s.y",
        "the text of --on is not understood at byte 5:\nr.x <> s.y\n     ^\nnot equal is written !=\nhere could stand:\n    a column, as r.NAME or s.NAME\n    a whole number\n    + or -\n",
    )?;
    Ok(())
}

#[test]
fn a_sum_that_is_too_long(rt: HostRuntime) -> Result<(), Fail> {
    refuses(
        &rt,
        rt.alloc(),
        "1+1+1+1+1+1+1+1+1+1+1+1+1+1+1+1+1 = r.x",
        "the text of --on has a sum of more than 16 terms at byte 31:\n1+1+1+1+1+1+1+1+1+1+1+1+1+1+1+1+1 = r.x\n                               ^\n",
    )?;
    Ok(())
}

#[test]
fn a_name_that_is_not_there(rt: HostRuntime) -> Result<(), Fail> {
    refuses(
        &rt,
        rt.alloc(),
        "r.xx = s.y",
        "--on names r.xx, and R, the first table, has no such column\nnear it is r.x\nthere are:\n    r.id\n    r.x\n",
    )?;
    Ok(())
}

#[test]
fn a_name_that_is_there_twice(rt: HostRuntime) -> Result<(), Fail> {
    tells(
        &rt,
        rt.alloc(),
        "jm|--on|r.x = s.y|r|s",
        ("x,id,x\n", "y\n", ""),
        (
            3,
            "--on names x, and R, the first table, has more than one such column:\n    column 1\n    column 3\n",
        ),
    )?;
    Ok(())
}

#[test]
fn a_name_of_the_joined_row(rt: HostRuntime) -> Result<(), Fail> {
    tells(
        &rt,
        rt.alloc(),
        "jm|--on|r.x = s.y|--then|r.id = s.z|r|s|q",
        FILES,
        (
            3,
            "--then names r.id, and R, the joined row, has no such column\nthere are:\n    r.r_id\n    r.r_x\n    r.s_id\n    r.s_y\n",
        ),
    )?;
    Ok(())
}
