// What is found by equalities of texts and of sums.

use super::probed;
use std::test::Fail;

#[test]
fn a_probe_finds_the_named_that_match(rt: HostRuntime) -> Result<(), Fail> {
    probed(
        &rt,
        rt.alloc(),
        "text(r.a) = text(s.a)",
        false,
        true,
        &[
            "S 0 0 - a",
            "R 0 0 - b",
            "S 1 1 - a",
            "S 2 1 - b",
            "R 1 1 - c",
            "S 3 0 - a",
            "S 4 0 - \0a", // its text has the number of a
        ],
        &[
            "R 9 0 - a among all finds [9 0][9 1][9 3]",
            "R 9 0 - \0a among all finds [9 4]",
            "R 9 0 - a among 1 finds [9 1]",
            "R 9 0 - z among all finds ",
            "S 9 0 - b among all finds [0 9]",
            "S 9 0 - b among 1 finds ",
            "S 9 0 - c among 1 finds [1 9]",
        ],
    )?;
    Ok(())
}

#[test]
fn an_equality_passes_over_empty_cells(rt: HostRuntime) -> Result<(), Fail> {
    probed(
        &rt,
        rt.alloc(),
        "r.x = s.x",
        true,
        true,
        &[
            "S 0 0 5 -",
            "S 1 0 - -",
            "R 0 0 - -",
            "S 2 1 5 -",
            "R 1 1 4 -",
            "S 3 0 0 -",
        ],
        &[
            "R 9 0 5 - among all finds [9 0][9 2]",
            "R 9 0 5 - among 1 finds [9 2]",
            "R 9 0 - - among all finds ",
            "R 9 0 0 - among all finds [9 3]",
            "S 9 0 - - among all finds ",
            "S 9 0 4 - among all finds [1 9]",
        ],
    )?;
    Ok(())
}

#[test]
fn two_equalities_find_what_agrees_in_both(rt: HostRuntime) -> Result<(), Fail> {
    let lines = [
        "S 0 0 5 05",
        "S 1 0 05 5",
        "R 0 0 5 5",
        "S 2 1 5 -",
        "S 3 1 - 5",
        "S 4 0 +5 5",
    ];
    let probes = [
        "R 9 0 5 5 among all finds [9 1][9 4]",
        "R 9 0 5 05 among all finds [9 0]",
        "R 9 0 5 - among all finds [9 2]",
        "R 9 0 - 5 among all finds ",
        "S 9 0 05 5 among all finds [0 9]",
    ];
    for predicate in [
        "r.x = s.x and text(r.a) = text(s.a)",
        "(1 = 1 and text(r.a) = text(s.a)) and r.x = s.x",
    ] {
        probed(&rt, rt.alloc(), predicate, true, true, &lines, &probes)?;
    }
    Ok(())
}

#[test]
fn sums_of_several_columns_are_equal_with_their_constants(rt: HostRuntime) -> Result<(), Fail> {
    probed(
        &rt,
        rt.alloc(),
        "3 - r.x - r.a = s.a - s.x + 4",
        true,
        true,
        &[
            "S 0 0 10 4", // -6, and 4 beside it: -2
            "S 1 0 6 0", // the same
            "S 2 0 6 1",
            "R 0 0 2 3", // 3 less 5: -2
            "S 3 0 - 0",
            "S 4 1 9223372036854775807 -9223372036854775808",
        ],
        &[
            "R 9 0 1 4 among all finds [9 0][9 1]",
            "R 9 0 5 -1 among all finds [9 2]",
            "R 9 0 5 - among all finds ",
            "R 9 0 9223372036854775807 9223372036854775807 among all finds [9 4]",
            "S 9 0 7 1 among all finds [0 9]",
        ],
    )?;
    Ok(())
}

#[test]
fn a_member_that_is_no_agreement_is_evaluated(rt: HostRuntime) -> Result<(), Fail> {
    probed(
        &rt,
        rt.alloc(),
        "r.x = s.x and text(r.a) != text(s.a)",
        true,
        true,
        &["S 0 0 5 u", "S 1 0 5 v", "R 0 0 5 v", "S 2 1 4 v"],
        &[
            "R 9 0 5 u among all finds [9 1]",
            "R 9 0 4 u among all finds [9 2]",
            "S 9 0 05 u among all finds [0 9]",
            "S 9 0 5 v among all finds ",
        ],
    )?;
    Ok(())
}
