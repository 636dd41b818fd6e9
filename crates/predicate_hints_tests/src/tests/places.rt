// A place below its line, and what can stand at it.

use predicate_hints::Expected::{
    And, Close, Column, Comparison, Distance, End, Name, Not, Number, Open, Or, Point, Quoted,
    Sign, Text,
};
use predicate_hints::{Expected, caret, expected};
use std::alloc::{AllocError, Global};
use std::process::Abort;
use std::test::Fail;

// A text, a place, and the place shown.
const SHOWN: [(&str, u64, &str); 11] = [
    ("r.x == s.y", 5, "r.x == s.y\n     ^"),
    ("", 0, "\n^"),
    ("r.x =", 5, "r.x =\n     ^"),
    ("r.x =", 9, "r.x =\n     ^"),
    ("\tr.x\t== s.y", 6, "\tr.x\t== s.y\n\t   \t ^"),
    (
        "r.x = 1\nand s.y == 2\nor 1=1",
        17,
        "and s.y == 2\n         ^",
    ),
    (
        "r.x = 1\r\nand s.y == 2\r\n",
        18,
        "and s.y == 2\n         ^",
    ),
    ("r.x =\n", 6, "\n^"),
    ("r.x =\n", 5, "r.x =\n     ^"),
    (
        "text(r.\"größe\") == 'ß'",
        19,
        "text(r.\"größe\") == 'ß'\n                 ^",
    ),
    ("r.ö = 1", 3, "r.ö = 1\n       ^"),
];

fn is_shown<R: Abort>(
    rt: &R,
    alloc: Global,
    (text, place, shown): (&str, u64, &str),
) -> Result<(), AllocError> {
    let both = caret(alloc, text, place)?;
    assert_eq!(rt; both.as_str(), shown);
    Ok(())
}

#[test]
fn a_place_is_shown(rt: HostRuntime) -> Result<(), Fail> {
    for &it in &SHOWN {
        is_shown(&rt, rt.alloc(), it)?;
    }
    Ok(())
}

// A text, and what can stand at its end. In the last two no bracket more may be open, and the sum
// is as long as one can be.
const LISTED: [(&str, &[Expected]); 12] = [
    (
        "",
        &[Column, Number, Text, Distance, Quoted, Not, Open, Sign],
    ),
    ("r", &[Point]),
    ("r.", &[Name]),
    ("r.x", &[Sign, Comparison]),
    ("r.x = ", &[Column, Number, Sign]),
    ("r.x = s.y", &[Sign, And, Or, End]),
    ("(r.x = s.y", &[Close, Sign, And, Or]),
    ("text(r.x", &[Close]),
    ("text(r.x) =", &[Text, Quoted]),
    ("abs(r.x - s.y) <=", &[Number]),
    (
        "((((((((((((((((((((((((((((((((",
        &[Column, Number, Text, Distance, Quoted, Sign],
    ),
    ("1+1+1+1+1+1+1+1+1+1+1+1+1+1+1+1", &[Comparison]),
];

fn is_listed<R: Abort>(
    rt: &R,
    alloc: Global,
    (text, kinds): (&str, &[Expected]),
) -> Result<(), AllocError> {
    let found = expected(alloc, text, text.len() as u64)?;
    assert!(rt; found.as_slice() == kinds, "{text}");
    Ok(())
}

#[test]
fn what_can_stand_is_listed(rt: HostRuntime) -> Result<(), Fail> {
    for &it in &LISTED {
        is_listed(&rt, rt.alloc(), it)?;
    }
    Ok(())
}

// A text, and a place within one of its characters or past it.
const NOWHERE: [(&str, u64); 2] = [("'ö' = 'ö'", 2), ("r.x", 4)];

fn nothing_stands<R: Abort>(
    rt: &R,
    alloc: Global,
    (text, place): (&str, u64),
) -> Result<(), AllocError> {
    let found = expected(alloc, text, place)?;
    assert!(rt; found.is_empty(), "{text}");
    Ok(())
}

#[test]
fn nothing_stands_where_no_place_is(rt: HostRuntime) -> Result<(), Fail> {
    for &it in &NOWHERE {
        nothing_stands(&rt, rt.alloc(), it)?;
    }
    Ok(())
}

#[test]
fn a_kind_is_shown_in_words(rt: HostRuntime) -> Result<(), Fail> {
    let text = format!(in rt.alloc(); "{Column}, {Comparison}")?;
    assert_eq!(rt;
        text.as_str(),
        "a column, as r.NAME or s.NAME, a comparison: =, !=, <, <=, > or >="
    );
    Ok(())
}
