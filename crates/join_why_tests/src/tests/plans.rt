// What would be joined, and how.

use super::{FILES, tells};
use std::alloc::{AllocError, Global};
use std::process::Abort;
use std::test::Fail;
use std::thread::Threads;

// Of a predicate that nothing is wrong with the lines that say how matches are found.
fn finds<R: Abort + Threads>(
    rt: &R,
    alloc: Global,
    on: &str,
    lines: &str,
) -> Result<(), AllocError> {
    let line = format!(in alloc; "jm|--on|{on}|--joiners|1|r|s")?;
    let text = format!(in alloc;
        "jm would join:\nR, r: rows 3, columns 2\nS, s: rows 3, columns 2\n{lines}grid: begins as 1 × 1, and the best for all rows is 1 × 1\nmemory: some 8 MB, and the output\n"
    )?;
    tells(rt, alloc, line.as_str(), FILES, (0, text.as_str()))
}

#[test]
fn equalities_are_looked_up(rt: HostRuntime) -> Result<(), Fail> {
    let lines =
        "rows that agree are looked up by their values:\n    r.x = s.y + 1\n    text(r.id) = text(s.id)\n";
    finds(
        &rt,
        rt.alloc(),
        "r.x = s.y + 1 and text(r.id) = text(s.id)",
        lines,
    )?;
    Ok(())
}

#[test]
fn a_range_is_looked_up(rt: HostRuntime) -> Result<(), Fail> {
    let band = "rows are looked up in a range:\n    r.x less s.y from -5 to 5\n";
    finds(&rt, rt.alloc(), "abs(r.x - s.y) <= 5", band)?;
    let bound = "rows are looked up in a range:\n    r.x less s.y at most -1\n";
    finds(&rt, rt.alloc(), "r.x < s.y", bound)?;
    Ok(())
}

#[test]
fn a_range_beside_equalities_is_told_with_them(rt: HostRuntime) -> Result<(), Fail> {
    let band =
        "rows that agree are looked up by their values:\n    text(r.id) = text(s.id)\nand of these only those in a range:\n    r.x less s.y from -5 to 5\n";
    finds(
        &rt,
        rt.alloc(),
        "abs(r.x - s.y) <= 5 and text(r.id) = text(s.id)",
        band,
    )?;
    let bound =
        "rows that agree are looked up by their values:\n    r.id = s.id\nand of these only those in a range:\n    r.x less s.y at most -1\n";
    finds(&rt, rt.alloc(), "r.id = s.id and r.x < s.y", bound)?;
    Ok(())
}

#[test]
fn rows_that_fail_a_member_of_their_own_are_left_out(rt: HostRuntime) -> Result<(), Fail> {
    let one =
        "rows that agree are looked up by their values:\n    r.id = s.id\nrows of R that fail a member that reads them alone aren't looked up\n";
    finds(&rt, rt.alloc(), "r.x > 5 and r.id = s.id", one)?;
    let both =
        "rows are looked up in a range:\n    r.x less s.y at most -1\nrows of R that fail a member that reads them alone aren't looked up\nrows of S that fail a member that reads them alone aren't looked up\n";
    finds(&rt, rt.alloc(), "r.x < s.y and 1 = 1", both)?;
    let no_key =
        "rows of S that fail a member that reads them alone aren't looked up\nno key: 3 times 3 evaluations, since no member of the top `and` serves\n";
    finds(&rt, rt.alloc(), "text(s.id) = 'u'", no_key)?;
    Ok(())
}

#[test]
fn tests_of_the_same_sums_are_one_range(rt: HostRuntime) -> Result<(), Fail> {
    let lines = "rows are looked up in a range:\n    r.x less s.y from -5 to 0\n";
    finds(&rt, rt.alloc(), "s.y >= r.x and s.y <= r.x + 5", lines)?;
    finds(&rt, rt.alloc(), "r.x + 5 >= s.y and r.x - s.y <= 0", lines)?;
    Ok(())
}

// Between two columns of R, in either order of the bounds, with constants of either sign, and between two sums.
#[test]
fn a_column_of_s_lies_between_sums_of_r(rt: HostRuntime) -> Result<(), Fail> {
    let plain = "rows are looked up in a range:\n    s.y from r.id to r.x\n";
    finds(&rt, rt.alloc(), "s.y >= r.id and s.y <= r.x", plain)?;
    finds(&rt, rt.alloc(), "s.y <= r.x and s.y >= r.id", plain)?;
    let shifted = "rows are looked up in a range:\n    s.y from r.id - 1 to r.x + 3\n";
    finds(
        &rt,
        rt.alloc(),
        "s.y > r.id - 2 and s.y - 3 <= r.x",
        shifted,
    )?;
    let sums = "rows are looked up in a range:\n    s.y from r.id - r.x to r.id + r.x + 2\n";
    finds(
        &rt,
        rt.alloc(),
        "r.id - r.x <= s.y and s.y <= r.id + r.x + 2",
        sums,
    )?;
    Ok(())
}

#[test]
fn a_column_of_r_lies_between_sums_of_s(rt: HostRuntime) -> Result<(), Fail> {
    let shifted = "rows are looked up in a range:\n    r.x from s.id - 4 to s.y + 2\n";
    finds(
        &rt,
        rt.alloc(),
        "r.x >= s.id - 4 and r.x < s.y + 3",
        shifted,
    )?;
    let beside =
        "rows that agree are looked up by their values:\n    text(r.id) = text(s.id)\nand of these only those in a range:\n    r.x from s.id to s.y\n";
    finds(
        &rt,
        rt.alloc(),
        "r.x <= s.y and text(r.id) = text(s.id) and r.x >= s.id",
        beside,
    )?;
    Ok(())
}

#[test]
fn else_all_are_compared(rt: HostRuntime) -> Result<(), Fail> {
    let lines = "no key: 3 times 3 evaluations, since no member of the top `and` serves\n";
    finds(&rt, rt.alloc(), "r.x = s.y or r.id = s.id", lines)?;
    Ok(())
}

#[test]
fn of_two_joins(rt: HostRuntime) -> Result<(), Fail> {
    let text =
        "jm would join:\nR, r: rows 3, columns 2\nS, s: rows 3, columns 2\nrows that agree are looked up by their values:\n    r.x = s.y\ngrid: begins as 2 × 2, and the best for all rows is 2 × 2\nmemory: some 8 MB, and the output\nS2, q: rows 2, columns 2\nin the second join, whose R are the joined rows, rows that agree are looked up by their values:\n    r.s_id = s.z\n";
    tells(
        &rt,
        rt.alloc(),
        "jm|--on|r.x = s.y|--then|r.s_id = s.z|r|s|q",
        FILES,
        (0, text),
    )?;
    Ok(())
}

#[test]
fn of_made_tables_in_groups(rt: HostRuntime) -> Result<(), Fail> {
    let text =
        "jm would join:\nR, made: rows 100, columns 3\nS, made: rows 100, columns 3\nrows that agree are looked up by their values:\n    r.key = s.key\ngroups: the 7 joiners form some, each with a grid of its own, of 4 2 1\n";
    tells(
        &rt,
        rt.alloc(),
        "jm|--on|r.key = s.key|--make|100|--joiners|7|--groups",
        FILES,
        (0, text),
    )?;
    Ok(())
}

#[test]
fn the_files_of_each_wave_are_told(rt: HostRuntime) -> Result<(), Fail> {
    let text =
        "jm would join:\nR, r: rows 3, columns 2\nS, s: rows 3, columns 2\nR2, r: rows 3, columns 2\nS2, s: rows 3, columns 2\nrows that agree are looked up by their values:\n    r.x = s.y\ngrid: begins as 1 × 1, and the best for all rows is 1 × 1\nmemory: some 8 MB, and the output\ngrowth: behind wave 1 each joiner splits into four\n";
    tells(
        &rt,
        rt.alloc(),
        "jm|--on|r.x = s.y|--joiners|1|--grow|1|r|s|r|s",
        FILES,
        (0, text),
    )?;
    Ok(())
}
