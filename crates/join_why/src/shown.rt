// Names and cells, as they are shown.

use row_cells::{Bytes, Side};
use std::alloc::AllocError;
use std::str;

/// How many characters of a name or a cell are shown.
const MOST_SHOWN: usize = 60;

/// Appends a text, cut where it is long, on one line.
fn push_cut(text: &mut String, whole: &str) -> Result<(), AllocError> {
    for (at, letter) in whole.chars().enumerate() {
        if at == MOST_SHOWN {
            return text.push_str("..");
        }
        text.push(if letter.is_control() { ' ' } else { letter })?;
    }
    Ok(())
}

/// Appends bytes as the text that they are, cut where it is long.
pub(crate) fn push_bytes(text: &mut String, bytes: &[u8]) -> Result<(), AllocError> {
    match str::from_utf8(bytes) {
        Ok(whole) => push_cut(text, whole),
        Err(_) => text.push_str("(no UTF-8)"),
    }
}

/// Whether a name stands in a predicate without quotes.
fn is_word(name: &str) -> bool {
    let is_letter = |letter: char| letter.is_ascii_alphabetic() || letter == '_';
    name.chars().next().is_some_and(is_letter)
        && name
            .chars()
            .all(|letter| is_letter(letter) || letter.is_ascii_digit())
}

/// Appends a column as a predicate spells it: `r.id`, or `s."Unit Price"`.
pub(crate) fn push_column(text: &mut String, side: Side, name: &Bytes) -> Result<(), AllocError> {
    text.push_str(match side {
        Side::R => "r.",
        Side::S => "s.",
    })?;
    match str::from_utf8(name.as_slice()) {
        Ok(name) if is_word(name) => push_cut(text, name),
        Ok(name) => push_quoted(text, name),
        Err(_) => text.push_str("(no UTF-8)"),
    }
}

/// Appends a name in quotes, its own quotes doubled.
fn push_quoted(text: &mut String, name: &str) -> Result<(), AllocError> {
    text.push('"')?;
    for letter in name.chars() {
        if letter == '"' {
            text.push('"')?;
        }
        text.push(letter)?;
    }
    text.push('"')
}
