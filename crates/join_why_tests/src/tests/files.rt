// Files that are no tables, or not those that a predicate reads.

use super::{FILES, Q, R, S, tells};
use std::alloc::{AllocError, Global};
use std::test::Fail;

#[test]
fn a_file_that_is_not_there(rt: HostRuntime) -> Result<(), Fail> {
    let text = "S, t, can't be read: there is no file of this name\n";
    tells(&rt, rt.alloc(), "jm|--on|r.x = s.y|r|t", FILES, (6, text))?;
    Ok(())
}

#[test]
fn a_file_without_a_record(rt: HostRuntime) -> Result<(), Fail> {
    let text = "R, r, has no header: nothing stands in it but line ends, if any\n";
    tells(
        &rt,
        rt.alloc(),
        "jm|--on|r.x = s.y|r|s",
        ("\n\n", S, ""),
        (4, text),
    )?;
    Ok(())
}

#[test]
fn a_row_of_another_width(rt: HostRuntime) -> Result<(), Fail> {
    let text =
        "row 2 (line 5) of S, s, has 3 fields, and the header has 2; its fields:\n    2\n    20\n    5\n";
    tells(
        &rt,
        rt.alloc(),
        "jm|--on|r.x = s.y|r|s",
        (R, "id,y\n1,\"a\nb\"\n\n2,20,5\n", ""),
        (4, text),
    )?;
    Ok(())
}

#[test]
fn a_cell_that_is_no_number(rt: HostRuntime) -> Result<(), Fail> {
    let text =
        "row 3 (line 4) of S2, q, has no whole number in column 2, z: 3.5\na bare column is a number; text(..) around its name compares it as a text\n";
    tells(
        &rt,
        rt.alloc(),
        "jm|--on|r.x = s.y|--then|r.s_id = s.z|r|s|q",
        (R, S, "id,z\n1,1\n2,3\n3,3.5\n"),
        (4, text),
    )?;
    Ok(())
}

#[test]
fn the_third_file_of_two_joins(rt: HostRuntime) -> Result<(), Fail> {
    let text = "S2, u, can't be read: there is no file of this name\n";
    tells(
        &rt,
        rt.alloc(),
        "jm|--on|r.x = s.y|--then|r.s_id = s.z|r|s|u",
        (R, S, Q),
        (6, text),
    )?;
    Ok(())
}

#[test]
fn a_file_of_a_later_wave(rt: HostRuntime) -> Result<(), Fail> {
    let text = "S2, t, can't be read: there is no file of this name\n";
    tells(
        &rt,
        rt.alloc(),
        "jm|--on|r.x = s.y|r|s|r|t",
        FILES,
        (6, text),
    )?;
    let text = "R2, t, can't be read: there is no file of this name\n";
    tells(
        &rt,
        rt.alloc(),
        "jm|--on|r.x = s.y|r|s|t|s",
        FILES,
        (6, text),
    )?;
    Ok(())
}

#[test]
fn another_header(rt: HostRuntime) -> Result<(), Fail> {
    let text =
        "S2, q, has another header than S, s; wanted are the fields:\n    id\n    y\nand it has:\n    id\n    z\n";
    tells(
        &rt,
        rt.alloc(),
        "jm|--on|r.x = s.y|r|s|r|q",
        FILES,
        (4, text),
    )?;
    Ok(())
}

// A table of so many rows.
fn long(alloc: Global, rows: u64) -> Result<String, AllocError> {
    let mut text = String::from_str(alloc, "x\n")?;
    for _ in 0..rows {
        text.push_str("1\n")?;
    }
    Ok(text)
}

#[test]
fn more_rows_than_a_side_may_have(rt: HostRuntime) -> Result<(), Fail> {
    let text =
        "R2, r: with its rows there are 280000 on its side, and a side may have at most 262144\n";
    let long = long(rt.alloc(), 140_000)?;
    tells(
        &rt,
        rt.alloc(),
        "jm|--on|r.x = s.y|r|s|r|s",
        (long.as_str(), S, ""),
        (5, text),
    )?;
    Ok(())
}
