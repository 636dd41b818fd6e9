// Words that ask for nothing.

use super::{FILES, tells};
use std::alloc::{AllocError, Global};
use std::process::Abort;
use std::test::Fail;
use std::thread::Threads;

// The words of this line are refused as these, without a look at a file.
fn refuses<R: Abort + Threads>(
    rt: &R,
    alloc: Global,
    line: &str,
    text: &str,
) -> Result<(), AllocError> {
    tells(rt, alloc, line, FILES, (2, text))
}

#[test]
fn a_word_that_is_not_known(rt: HostRuntime) -> Result<(), Fail> {
    refuses(
        &rt,
        rt.alloc(),
        "jm|--on|p|--joinners|4|r|s",
        "error: unexpected argument '--joinners' found\n\n  tip: a similar argument exists: '--joiners'\n\nUsage: jm --on <on> --joiners <joiners> [files]...\n\nFor more information, try '--help'.\n",
    )?;
    Ok(())
}

#[test]
fn a_number_out_of_range(rt: HostRuntime) -> Result<(), Fail> {
    refuses(
        &rt,
        rt.alloc(),
        "jm|--on|p|--workers|17|r|s",
        "error: invalid value '17' for '--workers <workers>': 17 is not in 1..=16\n\nFor more information, try '--help'.\n",
    )?;
    Ok(())
}

#[test]
fn words_with_a_match(rt: HostRuntime) -> Result<(), Fail> {
    let cases = [
        (
            "jm|--on|p|--feed|both|r|s",
            "--feed is alternate, rfirst or sfirst, and not 'both'\n",
        ),
        (
            "jm|--on|p|--joiners|6|r|s",
            "--joiners 6: a grid has 1, 2, 4, 8, 16, 32 or 64 joiners; with --groups any number up to 64 will do\n",
        ),
        (
            "jm|--on|p|--fixed|3|r|s",
            "--fixed 3: a grid of 4 joiners has at most 4 columns, so that its shift is at most 2\n",
        ),
        (
            "jm|--on|p|--early|--replay|1|r|s",
            "--early and --replay don't go together\n",
        ),
        (
            "jm|--on|p|--groups|r|s|q",
            "--groups and more than two files don't go together\n",
        ),
        (
            "jm|--on|p|--rings|--replay|1|r|s",
            "--rings and --replay don't go together\n",
        ),
        (
            "jm|--on|p|r|s|q",
            "two files are wanted, or with later waves four, six or eight; given: 3\n    r\n    s\n    q\n",
        ),
        (
            "jm|--on|p|--then|p|r",
            "with --then three files are wanted; given: 1\n    r\n",
        ),
        (
            "jm|--on|p|--make|3|r",
            "--make makes both tables, and no file is wanted; given: 1\n    r\n",
        ),
    ];
    for (line, text) in cases {
        refuses(&rt, rt.alloc(), line, text)?;
    }
    Ok(())
}
