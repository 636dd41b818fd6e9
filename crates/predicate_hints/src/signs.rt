// What a sign, a quote or a number meant.

use crate::around::{
    Left, bare_word, begins_in, begins_part, ends_in, is_within_call, last_word, left_of,
};
use crate::sentences::{
    ABS_RIGHT, BRACKETS, CHAIN, COLUMN, EQUAL, OR_EQUAL, PRODUCT, QUOTES, QUOTIENT, SEMICOLON,
    TEXTS, UNCLOSED, UNEQUAL, WHOLE,
};

// Signs of comparison that stand one behind the other: the last of what stands before, the first of
// the rest, and what they meant.
const DOUBLED: [(u8, u8, &str); 4] = [
    (b'<', b'>', UNEQUAL),
    (b'=', b'=', EQUAL),
    (b'=', b'<', OR_EQUAL),
    (b'=', b'>', OR_EQUAL),
];

fn doubled(near: &[u8], sign: u8) -> Option<&'static str> {
    for (before, behind, sentence) in DOUBLED {
        if behind == sign && ends_in(near, &[before]) {
            return Some(sentence);
        }
    }
    None
}

// A comparison behind one that is whole, or behind a word that no point follows.
fn second(front: &[u8]) -> Option<&'static str> {
    match bare_word(front) {
        b"r" | b"s" | b"text" | b"abs" => Some(COLUMN),
        _ if begins_part(front) || is_within_call(front) => None,
        _ => Some(CHAIN),
    }
}

fn of_comparison(near: &[u8], front: &[u8], sign: u8) -> Option<&'static str> {
    match doubled(near, sign) {
        Some(sentence) => Some(sentence),
        None => second(front),
    }
}

fn of_point(near: &[u8], behind: &[u8]) -> Option<&'static str> {
    let (_, word) = last_word(near);
    if begins_in(word, b"0123456789") {
        Some(WHOLE)
    } else if word.is_empty() && begins_in(behind, b"0123456789") {
        Some(WHOLE)
    } else {
        None
    }
}

fn of_quote(front: &[u8], quote: u8, behind: &[u8]) -> Option<&'static str> {
    if !behind.contains(&quote) {
        return Some(UNCLOSED);
    }
    if quote == b'"' || ends_in(front, b".") {
        return Some(QUOTES);
    }
    match left_of(front) {
        Some(Left::Number) => Some(TEXTS),
        Some(Left::Distance) => Some(ABS_RIGHT),
        _ => None,
    }
}

fn of_opening(front: &[u8]) -> Option<&'static str> {
    if ends_in(front, b"+-=<>") || is_within_call(front) {
        Some(BRACKETS)
    } else {
        None
    }
}

fn of_closing(behind: &[u8]) -> Option<&'static str> {
    if begins_in(behind.trim_ascii_start(), b"+-=<>!") {
        Some(BRACKETS)
    } else {
        None
    }
}

fn of_sum_sign(front: &[u8]) -> Option<&'static str> {
    if left_of(front) == Some(Left::Distance) {
        Some(ABS_RIGHT)
    } else if left_of(front) == Some(Left::Text) {
        Some(TEXTS)
    } else {
        None
    }
}

fn of_digit(front: &[u8]) -> Option<&'static str> {
    match left_of(front) {
        Some(Left::Text) => Some(TEXTS),
        _ => None,
    }
}

/// What a byte that is no letter meant, by what stands before it, with the blanks between and
/// without them, and by what stands behind it.
pub(crate) fn of_sign(near: &[u8], front: &[u8], sign: u8, behind: &[u8]) -> Option<&'static str> {
    match sign {
        b'=' | b'<' | b'>' => of_comparison(near, front, sign),
        b'!' if begins_in(behind, b"=") => second(front),
        b'*' => Some(PRODUCT),
        b'/' | b'%' => Some(QUOTIENT),
        b'(' => of_opening(front),
        b')' => of_closing(behind),
        b'.' => of_point(near, behind),
        b'\'' | b'"' => of_quote(front, sign, behind),
        b'+' | b'-' => of_sum_sign(front),
        b'0'..=b'9' => of_digit(front),
        b';' => Some(SEMICOLON),
        _ => None,
    }
}
