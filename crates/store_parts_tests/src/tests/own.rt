// What is found where members of the predicate read rows of one side alone.

use super::probed;
use std::test::Fail;

#[test]
fn a_row_that_fails_a_member_of_its_side_is_not_found(rt: HostRuntime) -> Result<(), Fail> {
    probed(
        &rt,
        rt.alloc(),
        "r.x = s.x and text(r.a) = 'u'",
        true,
        true,
        &[
            "R 0 0 5 u",
            "R 1 0 5 v",
            "S 0 0 5 u",
            "R 2 1 5 u",
            "S 1 0 4 v",
        ],
        &[
            "S 9 0 5 v among all finds [0 9][2 9]",
            "S 9 0 5 v among 1 finds [2 9]",
            "S 9 0 4 u among all finds ",
            "R 9 0 5 u among all finds [9 0]",
            "R 9 0 5 v among all finds ",
        ],
    )?;
    Ok(())
}

#[test]
fn members_of_both_sides_beside_an_order(rt: HostRuntime) -> Result<(), Fail> {
    probed(
        &rt,
        rt.alloc(),
        "(r.x > 5 and s.x <= r.x) and text(s.a) < 'm'",
        false,
        true,
        &[
            "S 0 0 3 a",
            "S 1 0 7 z",
            "S 2 0 9 b",
            "R 0 0 6 -",
            "R 1 0 5 -",
            "R 2 0 9 -",
        ],
        &[
            "R 9 0 8 - among all finds [9 0]",
            "R 9 0 9 - among all finds [9 0][9 2]",
            "R 9 0 4 - among all finds ",
            "S 9 0 6 a among all finds [0 9][2 9]",
            "S 9 0 5 a among all finds [0 9][2 9]",
            "S 9 0 6 z among all finds ",
        ],
    )?;
    Ok(())
}

#[test]
fn a_member_of_one_side_and_no_other(rt: HostRuntime) -> Result<(), Fail> {
    probed(
        &rt,
        rt.alloc(),
        "not text(r.a) = 'v'",
        false,
        true,
        &["R 0 0 1 u", "R 1 0 1 v", "S 0 0 - -", "S 1 0 2 v"],
        &[
            "S 9 0 - - among all finds [0 9]",
            "R 9 0 1 u among all finds [9 0][9 1]",
            "R 9 0 1 v among all finds ",
        ],
    )?;
    Ok(())
}

#[test]
fn a_member_that_reads_no_column(rt: HostRuntime) -> Result<(), Fail> {
    let lines = ["R 0 0 1 u", "S 0 0 1 -"];
    let none = ["S 9 0 1 - among all finds ", "R 9 0 1 - among all finds "];
    probed(
        &rt,
        rt.alloc(),
        "1 = 2 and r.x = s.x",
        true,
        true,
        &lines,
        &none,
    )?;
    let one = [
        "S 9 0 1 - among all finds [0 9]",
        "R 9 0 1 - among all finds [9 0]",
    ];
    probed(
        &rt,
        rt.alloc(),
        "1 = 1 and r.x = s.x",
        true,
        true,
        &lines,
        &one,
    )?;
    Ok(())
}
