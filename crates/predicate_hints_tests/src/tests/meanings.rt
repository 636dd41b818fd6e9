// What first tries meant, at the places that `parse` names.

use super::sentences::{
    ABS_LEFT, ABS_RIGHT, BRACKETS, CHAIN, COLUMN, EQUAL, FUNCTION, NEGATION, NULL, OR_EQUAL,
    PRODUCT, QUOTES, QUOTIENT, SEMICOLON, TABLE, TEXTS, UNCLOSED, UNEQUAL, WHOLE,
};
use predicate_hints::meant;
use std::alloc::Global;
use std::process::Abort;
use theta_text::parse;
use theta_tree::PredFault;

// A text, the place at which it is refused, and what was meant there.
type Try = (&'static str, u64, &'static str);

// The first tries of the table in docs/USAGE.md, but for `r.name = s.name`, which is a predicate.
const TRIES: [Try; 9] = [
    ("x = y", 0, COLUMN),
    (
        "r.id = s.id AND r.a = s.a",
        12,
        "keywords are lower case: write and",
    ),
    ("r.a <> s.a", 5, UNEQUAL),
    ("r.a == s.a", 5, EQUAL),
    ("r.a * 2 = s.a", 4, PRODUCT),
    ("(r.a + 1) = s.a", 8, BRACKETS),
    ("r.a - (s.a - 1) = 0", 6, BRACKETS),
    (
        "r.a between 10 and 20",
        4,
        "there is no between: write r.a >= 10 and r.a <= 20",
    ),
    (
        "r.a in (10, 20)",
        4,
        "there is no in: write r.a = 10 or r.a = 20",
    ),
];

const MORE_TRIES: [Try; 9] = [
    (
        "r.name like 'A%'",
        7,
        "there is no like: write text(r.NAME) >= 'A' and text(r.NAME) < 'B'",
    ),
    ("r.name = 'x'", 9, TEXTS),
    ("text(r.name) = \"x\"", 15, QUOTES),
    ("r.name is null", 7, NULL),
    ("r.price = 3.5", 11, WHOLE),
    ("abs(r.a - s.a) <= r.b", 18, ABS_RIGHT),
    ("5 >= abs(r.a - s.a)", 5, ABS_LEFT),
    ("r.a < s.a < 40", 10, CHAIN),
    ("lower(text(r.name)) = text(s.name)", 0, FUNCTION),
];

// Others like them.
const OTHERS: [Try; 8] = [
    ("R.a = s.a", 0, TABLE),
    ("ABS(r.a) = 1", 0, "keywords are lower case: write abs(..)"),
    ("r = s.a", 2, COLUMN),
    ("text(name) = 'x'", 5, COLUMN),
    ("r.a = 1 and b = 2", 12, COLUMN),
    ("text(r.name) = s.name", 15, TEXTS),
    ("r.name = text(s.name)", 9, TEXTS),
    ("abs(r.a - s.a) <= -5", 18, ABS_RIGHT),
];

const MORE_OTHERS: [Try; 8] = [
    ("abs((r.a - s.a)) <= 5", 4, BRACKETS),
    ("r.a not in (1, 2)", 4, NEGATION),
    ("r.a => s.a", 5, OR_EQUAL),
    ("r.a = 1e5", 7, WHOLE),
    ("r.a / 2 = s.a", 4, QUOTIENT),
    ("\"name\" = 'x'", 0, QUOTES),
    ("text(r.name) = 'x", 15, UNCLOSED),
    ("r.id = s.id;", 11, SEMICOLON),
];

fn fault_of(alloc: Global, text: &str) -> Option<PredFault> {
    parse(alloc, text).err()
}

// The text is refused at its place, and this was meant there.
fn has_a_sentence<R: Abort>(rt: &R, alloc: Global, (text, place, sentence): Try) {
    let fault = PredFault::Syntax { place };
    assert!(rt; fault_of(alloc, text) == Some(fault), "{text}");
    assert!(rt; meant(text, place) == Some(sentence), "{text}");
}

#[test]
fn each_first_try_has_a_sentence(rt: HostRuntime) {
    for &it in &TRIES {
        has_a_sentence(&rt, rt.alloc(), it);
    }
}

#[test]
fn each_further_try_has_a_sentence(rt: HostRuntime) {
    for &it in &MORE_TRIES {
        has_a_sentence(&rt, rt.alloc(), it);
    }
}

#[test]
fn others_like_them_have_one(rt: HostRuntime) {
    for &it in &OTHERS {
        has_a_sentence(&rt, rt.alloc(), it);
    }
}

#[test]
fn further_others_have_one(rt: HostRuntime) {
    for &it in &MORE_OTHERS {
        has_a_sentence(&rt, rt.alloc(), it);
    }
}

// Texts that are refused where no first try is known: `and` at the beginning, a bracket too many, no
// `and` between two comparisons, no sum before a comparison, one within `abs`, and a text that nests
// too deep.
const UNKNOWN: [(&str, u64); 6] = [
    ("and r.x = 1", 0),
    ("r.x = s.y)", 9),
    ("r.x = 1 s.y = 2", 8),
    ("r.x = 1 and = 2", 12),
    ("abs(r.a = 1) = 1", 8),
    ("(((((((((((((((((((((((((((((((((1=1", 32),
];

fn has_none<R: Abort>(rt: &R, alloc: Global, (text, place): (&str, u64)) {
    assert!(rt; fault_of(alloc, text).is_some(), "{text}");
    assert!(rt; meant(text, place) == None, "{text}");
}

#[test]
fn no_other_text_has_one(rt: HostRuntime) {
    for &it in &UNKNOWN {
        has_none(&rt, rt.alloc(), it);
    }
}
