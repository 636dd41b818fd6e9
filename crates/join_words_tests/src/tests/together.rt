use super::{GRID, PLAIN, Run, Wanted, of, reads, refusal};
use join_words::{Chain, Grid, WordsError, WordsFault};
use std::test::Fail;

fn made(count: u64) -> Wanted {
    Wanted {
        make: Some(count),
        name_r: "",
        name_s: "",
        ..PLAIN
    }
}

#[test]
fn made_tables_joined_rows_and_early_pairs(rt: HostRuntime) -> Result<(), Fail> {
    let rows = Wanted {
        rows: true,
        ..PLAIN
    };
    let early = of(Run::Early(GRID));
    let cases = [
        ("jm|--on|p|--make|1", made(1)),
        ("jm|--make=65536|--on|p", made(65536)),
        ("jm|--on|p|r|--rows|s", rows),
        ("jm|--early|--on|p|r|s", early),
    ];
    for (line, wanted) in cases {
        assert!(rt; reads(rt.alloc(), line, wanted)?, "{line}");
    }
    Ok(())
}

fn groups(joiners: u32) -> Wanted {
    of(Run::Groups(joiners))
}

#[test]
fn any_number_of_joiners_forms_groups(rt: HostRuntime) -> Result<(), Fail> {
    let made = Wanted {
        make: Some(7),
        name_r: "",
        name_s: "",
        ..groups(63)
    };
    let cases = [
        ("jm|--on|p|--groups|r|s", groups(4)),
        ("jm|--on|p|--joiners|5|--groups|r|s", groups(5)),
        ("jm|--groups|--joiners=1|--on|p|r|s", groups(1)),
        ("jm|--on|p|--joiners|63|--groups|--make|7", made),
    ];
    for (line, wanted) in cases {
        assert!(rt; reads(rt.alloc(), line, wanted)?, "{line}");
    }
    Ok(())
}

/// The grid of four joiners that stays at this shift.
fn staying(shift: u32) -> Grid {
    Grid {
        fixed: Some(shift),
        ..GRID
    }
}

fn chain(grid: Grid, on: &'static str, name: &'static str) -> Wanted {
    of(Run::Chain(grid, Chain { on, name }))
}

#[test]
fn a_second_join_has_a_third_file(rt: HostRuntime) -> Result<(), Fail> {
    let report = Wanted {
        report: true,
        ..chain(GRID, "", "s")
    };
    let cases = [
        ("jm|--on|p|--then|p2|r|s|q", chain(GRID, "p2", "q")),
        ("jm|r|--then=p2|s|--on|p|q", chain(GRID, "p2", "q")),
        (
            "jm|--on|p|--fixed|1|--then|p2|r|s|q",
            chain(staying(1), "p2", "q"),
        ),
        ("jm|--on|p|--then||--report|r|s|s", report),
    ];
    for (line, wanted) in cases {
        assert!(rt; reads(rt.alloc(), line, wanted)?, "{line}");
    }
    Ok(())
}

#[test]
fn messages_go_over_rings(rt: HostRuntime) -> Result<(), Fail> {
    let plain = of(Run::Rings(GRID));
    let made = Wanted {
        run: Run::Rings(staying(0)),
        report: true,
        ..made(7)
    };
    let rows = Wanted {
        rows: true,
        ..plain
    };
    let cases = [
        ("jm|--on|p|--rings|r|s", plain),
        ("jm|--rings|r|--on|p|--rows|s", rows),
        ("jm|--on|p|--make|7|--rings|--report|--fixed|0", made),
    ];
    for (line, wanted) in cases {
        assert!(rt; reads(rt.alloc(), line, wanted)?, "{line}");
    }
    Ok(())
}

#[test]
fn faults_of_words_that_do_not_go_together(rt: HostRuntime) -> Result<(), Fail> {
    let cases = [
        (
            WordsFault::NoMatch,
            "jm|--on|p|--make|0\njm|--on|p|--make|65537\njm|--on|p|--make\njm|--on|p|--rows=true|r|s\njm|--on|p|--make|3|--rows|--feed|both\njm|--on|p|--early=true|r|s\njm|--on|p|--groups=true|r|s\njm|--on|p|--groups|--joiners|65|r|s\njm|--on|p|--groups|--groups|r|s\njm|--on|p|--rings=true|r|s\njm|--on|p|--rings|--rings|r|s",
        ),
        (
            WordsFault::Fixed,
            "jm|--on|p|--make|3|--rows|--fixed|3\njm|--on|p|--early|--replay|7|--fixed|3|r\njm|--on|p|--rings|--replay|7|--fixed|3|r",
        ),
        (
            WordsFault::Together,
            "jm|--on|p|--make|3|--rows\njm|--on|p|--rows|--make|3|r|s\njm|--on|p|--early|--rows|r|s\njm|--on|p|--early|--replay|7|r|s\njm|--on|p|--early|--make|3\njm|--on|p|--early|--make|3|--rows|r\njm|--on|p|--early|r|s|t",
        ),
        (
            WordsFault::Together,
            "jm|--on|p|--groups|--fixed|0|r|s\njm|--on|p|--groups|--joiners|3|--fixed|6|r|s\njm|--on|p|--early|--groups|r|s\njm|--on|p|--groups|--replay|7|r|s\njm|--on|p|--groups|r|s|t\njm|--on|p|--groups|--make|3|r|s|t|u",
        ),
        (
            WordsFault::Together,
            "jm|--on|p|--then|p|--groups|r|s|q\njm|--on|p|--then|p|--early|r|s|q\njm|--on|p|--then|p|--rows|r|s|q\njm|--on|p|--then|p|--make|3\njm|--on|p|--then|p|--replay|7|r|s|q\njm|--on|p|--then|p|--early|r|s",
        ),
        (
            WordsFault::Together,
            "jm|--on|p|--rings|--replay|7|r|s\njm|--on|p|--early|--rings|r|s\njm|--on|p|--rings|--groups|r|s\njm|--on|p|--rings|--then|p|r|s|q\njm|--on|p|--rings|r|s|t\njm|--on|p|--rings|--make|3|r|s|t",
        ),
        (
            WordsFault::Files,
            "jm|--on|p|--then|p|r|s\njm|--on|p|--then|p\njm|--on|p|--then|p|r|s|q|t\njm|--on|p|r|s|q",
        ),
        (
            WordsFault::NoMatch,
            "jm|--on|p|r|s|q|--then\njm|--then|p|r|s|q\njm|--on|p|--then|p|--then|p|r|s|q",
        ),
        (
            WordsFault::Files,
            "jm|--on|p|--make|3|r|s\njm|--on|p|--make|3|r\njm|--on|p|--rows|r\njm|--on|p|--rows\njm|--on|p|--early|r\njm|--on|p|--groups|r\njm|--on|p|--groups|--make|3|r|s\njm|--on|p|--rings|r",
        ),
    ];
    for (fault, lines) in cases {
        for line in lines.split('\n') {
            let wanted = Some(WordsError::Fault(fault));
            assert!(rt; refusal(rt.alloc(), line)? == wanted, "{line}");
        }
    }
    Ok(())
}
