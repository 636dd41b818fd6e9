// What stands before a place and behind it.

ghost use Rattle.std.specs.Prelude.{◌≤◌, length};

/// What a comparison's left side is.
#[derive(Clone, Copy, PartialEq, Eq)]
pub(crate) enum Left {
    Number,
    Text,
    Distance,
}

pub(crate) fn is_letter(byte: u8) -> bool {
    byte.is_ascii_alphabetic() || byte == b'_'
}

fn is_word_byte(byte: u8) -> bool {
    is_letter(byte) || byte.is_ascii_digit()
}

fn word_len(bytes: &[u8]) -> usize
    ensures { result ≤ length bytes.now }
{
    let len = bytes.iter().position(|byte| !is_word_byte(*byte));
    len.unwrap_or(bytes.len()).min(bytes.len())
}

/// The word or number that the bytes begin with, and what stands behind it, without blanks.
pub(crate) fn first_word(bytes: &[u8]) -> (&[u8], &[u8]) {
    let len = word_len(bytes);
    (&bytes[..len], bytes[len..].trim_ascii_start())
}

fn last_word_start(bytes: &[u8]) -> usize
    ensures { result ≤ length bytes.now }
{
    match bytes.iter().rposition(|byte| !is_word_byte(*byte)) {
        Some(at) => (at + 1).min(bytes.len()),
        None => 0,
    }
}

/// What stands before the word or number that the bytes end with, and it.
pub(crate) fn last_word(bytes: &[u8]) -> (&[u8], &[u8]) {
    bytes.split_at(last_word_start(bytes))
}

/// Whether the last byte is one of these.
pub(crate) fn ends_in(bytes: &[u8], these: &[u8]) -> bool {
    match bytes.last() {
        Some(last) => these.contains(last),
        None => false,
    }
}

/// Whether the first byte is one of these.
pub(crate) fn begins_in(bytes: &[u8], these: &[u8]) -> bool {
    match bytes.first() {
        Some(first) => these.contains(first),
        None => false,
    }
}

/// The word that the bytes end with, unless it is a column's name.
pub(crate) fn bare_word(front: &[u8]) -> &[u8] {
    let (before, word) = last_word(front);
    if ends_in(before.trim_ascii_end(), b".") {
        b""
    } else {
        word
    }
}

/// Whether a sum, a text or a whole comparison may begin behind what has no blank at its end.
pub(crate) fn begins_part(front: &[u8]) -> bool {
    match bare_word(front) {
        b"and" | b"or" | b"not" => true,
        _ => front.is_empty() || ends_in(front, b"+-=<>("),
    }
}

// What stands before the comparison that the bytes end with.
fn before_comparison(front: &[u8]) -> Option<&[u8]> {
    if !ends_in(front, b"=<>") {
        return None;
    }
    let end = front.iter().rposition(|byte| !b"=<>!".contains(byte))?;
    Some(front[..=end].trim_ascii_end())
}

// The word before the last bracket that opens.
fn opener(bytes: &[u8]) -> Option<&[u8]> {
    let at = bytes.iter().rposition(|byte| *byte == b'(')?;
    Some(bare_word(bytes[..at].trim_ascii_end()))
}

fn side_of(side: &[u8]) -> Left {
    if ends_in(side, b"'") {
        return Left::Text;
    }
    if !ends_in(side, b")") {
        return Left::Number;
    }
    match opener(side) {
        Some(b"text") => Left::Text,
        Some(b"abs") => Left::Distance,
        _ => Left::Number,
    }
}

/// The left side of the comparison that the bytes end with.
pub(crate) fn left_of(front: &[u8]) -> Option<Left> {
    Some(side_of(before_comparison(front)?))
}

/// Whether the last bracket opens what stands within `abs(..)` or `text(..)`.
pub(crate) fn is_within_call(front: &[u8]) -> bool {
    let Some(at) = front
        .iter()
        .rposition(|byte| *byte == b'(' || *byte == b')')
    else {
        return false;
    };
    match bare_word(front[..at].trim_ascii_end()) {
        b"abs" | b"text" => front[at] == b'(',
        _ => false,
    }
}
