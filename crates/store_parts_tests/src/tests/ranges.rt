// What is found by a band, an order or an interval, alone or beside an equality.

use super::probed;
use std::test::Fail;

#[test]
fn a_band_finds_what_a_scan_finds(rt: HostRuntime) -> Result<(), Fail> {
    probed(
        &rt,
        rt.alloc(),
        "abs(r.a - s.a) <= 2 and r.x >= s.x",
        true,
        false,
        &["S 0 0 100 898", "S 1 0 101 902", "S 2 0 97 903"],
        &[
            "R 0 0 105 900 among all finds [0 0][0 1]",
            "R 1 0 99 903 among all finds [1 2]",
        ],
    )?;
    Ok(())
}

#[test]
fn an_order_finds_in_stored_order(rt: HostRuntime) -> Result<(), Fail> {
    let lines = [
        "S 0 0 8 -",
        "S 1 0 5 -",
        "R 0 0 -3 u",
        "S 2 1 7 -",
        "R 1 0 6 u",
    ];
    let probes = [
        "R 9 0 5 u among all finds [9 0][9 2]",
        "R 9 0 5 u among 1 finds [9 2]",
        "R 9 0 5 v among all finds ",
        "S 9 0 -2 - among all finds [0 9]",
        "S 9 0 7 - among all finds [0 9][1 9]",
        "S 9 0 -3 - among all finds ",
    ];
    for (predicate, accessed) in [
        ("r.x < s.x and (text(r.a) = 'u' or r.x = s.x)", false),
        ("r.x < s.x and text(r.a) = 'u'", true),
    ] {
        probed(&rt, rt.alloc(), predicate, true, accessed, &lines, &probes)?;
    }
    Ok(())
}

#[test]
fn an_equality_beside_an_order_finds_in_stored_order(rt: HostRuntime) -> Result<(), Fail> {
    let lines = [
        "S 0 0 7 a",
        "S 1 0 3 a",
        "R 0 0 4 a",
        "S 2 1 2 b",
        "S 3 1 2 a",
        "S 4 0 - a",
        "R 1 0 2 b",
    ];
    let probes = [
        "R 9 0 5 a among all finds [9 1][9 3]",
        "R 9 0 5 a among 1 finds [9 3]",
        "R 9 0 5 c among all finds ",
        "R 9 0 - a among all finds ",
        "S 9 0 2 a among all finds [0 9]",
        "S 9 0 3 b among all finds ",
    ];
    for predicate in [
        "text(r.a) = text(s.a) and s.x <= r.x",
        "s.x <= r.x and text(s.a) = text(r.a)",
        "s.x <= r.x and (text(r.a) = text(s.a) and 1 = 1)",
    ] {
        probed(&rt, rt.alloc(), predicate, true, true, &lines, &probes)?;
    }
    Ok(())
}

#[test]
fn an_equality_beside_a_band_finds_in_stored_order(rt: HostRuntime) -> Result<(), Fail> {
    let lines = [
        "S 0 0 7 a",
        "S 1 0 3 a",
        "R 0 0 4 a",
        "S 2 1 5 b",
        "S 3 1 05 a",
        "S 4 1 - a",
    ];
    let probes = [
        "R 9 0 4 a among all finds [9 1][9 3]",
        "R 9 0 4 a among 1 finds [9 3]",
        "R 9 0 6 b among all finds [9 2]",
        "R 9 0 9 a among all finds ",
        "R 9 0 - a among all finds ",
        "S 9 0 5 a among all finds [0 9]",
        "S 9 0 5 c among all finds ",
    ];
    for predicate in [
        "text(r.a) = text(s.a) and abs(r.x - s.x) <= 1",
        "(s.x - r.x <= 1 and text(s.a) = text(r.a)) and -1 <= s.x - r.x",
    ] {
        probed(&rt, rt.alloc(), predicate, true, true, &lines, &probes)?;
    }
    Ok(())
}

#[test]
fn a_bound_of_sums_with_signs_stands_beside_an_equality(rt: HostRuntime) -> Result<(), Fail> {
    probed(
        &rt,
        rt.alloc(),
        "r.x - r.a <= 3 - s.a - s.x and text(r.a) = text(s.a)",
        true,
        true,
        &[
            "S 0 0 -4 5",
            "S 1 0 -9223372036854775808 5",
            "R 0 0 7 5",
            "S 2 1 3 5",
            "S 3 1 -4 -",
            "R 1 0 9223372036854775807 5",
        ],
        &[
            "R 9 0 7 5 among all finds [9 0][9 1]",
            "R 9 0 9223372036854775807 5 among all finds [9 1]",
            "R 9 0 7 05 among all finds ",
            "S 9 0 -4 5 among all finds [0 9]",
            "S 9 0 -9223372036854775808 5 among all finds [0 9][1 9]",
        ],
    )?;
    Ok(())
}

#[test]
fn intervals_find_their_points_and_points_their_intervals(rt: HostRuntime) -> Result<(), Fail> {
    let lines = [
        "S 0 0 5 -",
        "R 0 0 3 7",
        "R 1 0 5 5",
        "R 2 1 7 3", // its last is below its first
        "S 1 1 -1 -",
        "R 3 1 -9223372036854775808 9223372036854775807",
        "R 4 0 - 9",
        "R 5 0 2 -",
        "S 2 0 05 -",
        "S 3 0 - -",
        "R 6 0 -1 0",
    ];
    let probes = [
        "R 9 0 3 7 among all finds [9 0][9 2]",
        "R 9 0 7 3 among all finds ",
        "R 9 0 -1 -1 among all finds [9 1]",
        "R 9 0 -9223372036854775808 9223372036854775807 among all finds [9 0][9 1][9 2]",
        "R 9 0 - 7 among all finds ",
        "S 9 0 5 - among all finds [0 9][1 9][3 9]",
        "S 9 0 5 - among 1 finds [3 9]",
        "S 9 0 -1 - among all finds [3 9][6 9]",
        "S 9 0 9223372036854775807 - among all finds [3 9]",
        "S 9 0 - - among all finds ",
    ];
    for predicate in [
        "r.x <= s.x and s.x <= r.a",
        "s.x <= r.a and (s.x >= r.x and 1 = 1)",
    ] {
        probed(&rt, rt.alloc(), predicate, true, true, &lines, &probes)?;
    }
    Ok(())
}

#[test]
fn an_interval_stands_beside_an_equality(rt: HostRuntime) -> Result<(), Fail> {
    probed(
        &rt,
        rt.alloc(),
        "text(s.a) = text(r.a) and s.x >= r.x and s.x <= r.x + r.a + 1",
        true,
        true,
        &[
            "S 0 0 5 2",
            "S 1 0 8 2",
            "S 2 1 5 3",
            "R 0 0 3 2",
            "R 1 1 5 -2",
            "S 3 0 4 -2",
            "R 2 0 6 2",
        ],
        &[
            "R 9 0 4 2 among all finds [9 0]",
            "R 9 0 5 2 among all finds [9 0][9 1]",
            "R 9 0 2 3 among all finds [9 2]",
            "R 9 0 5 -2 among all finds ",
            "S 9 0 6 2 among all finds [0 9][2 9]",
            "S 9 0 5 -2 among all finds ",
        ],
    )?;
    Ok(())
}
