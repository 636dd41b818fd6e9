// What a word meant.

use crate::around::{Left, begins_in, begins_part, ends_in, first_word, left_of};
use crate::sentences::{
    ABS_LEFT, ABS_RIGHT, COLUMN, FUNCTION, KEYWORDS, NULL, OPENERS, OPERATORS, TEXTS, WHOLE,
};

// A word that is lower case here.
fn upper_case(word: &[u8], behind: &[u8]) -> Option<&'static str> {
    for (keyword, sentence) in KEYWORDS {
        if word != keyword && word.eq_ignore_ascii_case(keyword) {
            return Some(sentence);
        }
    }
    for (keyword, next, sentence) in OPENERS {
        if word != keyword && word.eq_ignore_ascii_case(keyword) && begins_in(behind, &[next]) {
            return Some(sentence);
        }
    }
    None
}

// A word of SQL behind a column.
fn operator(word: &[u8]) -> Option<&'static str> {
    for (name, sentence) in OPERATORS {
        if word.eq_ignore_ascii_case(name) {
            return Some(sentence);
        }
    }
    None
}

fn is_keyword(word: &[u8]) -> bool {
    KEYWORDS.iter().any(|(keyword, _)| *keyword == word)
}

fn is_opener(word: &[u8]) -> bool {
    OPENERS.iter().any(|(keyword, _, _)| *keyword == word)
}

// What is opened where it can't stand.
fn opened(front: &[u8], word: &[u8]) -> Option<&'static str> {
    if !ends_in(front, b"+-=<>") {
        return None;
    }
    match word {
        b"abs" => Some(ABS_LEFT),
        b"text" => Some(TEXTS),
        _ => None,
    }
}

// A word where a sum, a text or a whole comparison may begin.
fn beginning(front: &[u8], word: &[u8], behind: &[u8]) -> Option<&'static str> {
    if is_keyword(word) {
        return None;
    }
    if word.eq_ignore_ascii_case(b"null") {
        return Some(NULL);
    }
    if !is_opener(word) && begins_in(behind, b"(") {
        return Some(FUNCTION);
    }
    match left_of(front) {
        Some(Left::Distance) => Some(ABS_RIGHT),
        Some(Left::Text) => Some(TEXTS),
        _ if is_opener(word) => opened(front, word),
        _ => Some(COLUMN),
    }
}

/// What the word meant that the rest begins with, by what stands before it, with the blanks between
/// and without them.
pub(crate) fn of_word(near: &[u8], front: &[u8], rest: &[u8]) -> Option<&'static str> {
    let (word, behind) = first_word(rest);
    if let Some(sentence) = upper_case(word, behind) {
        Some(sentence)
    } else if ends_in(near, b"0123456789") {
        Some(WHOLE)
    } else if begins_part(front) {
        beginning(front, word, behind)
    } else {
        operator(word)
    }
}
