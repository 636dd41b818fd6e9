// A place shown below its line.

ghost use Rattle.std.specs.Prelude.{◌≡◌, ◌≤◌, ◌++◌, length, take, drop, IfOk, OnOk, string_bytes};
ghost use Rattle.std.specs.List.{prefix_len, suffix_len};
ghost use Rattle.std.specs.Str.{IsCharBoundary};
ghost use Rattle.predicate_hints.specs.Pointing as shown;

use std::alloc::{AllocError, Global};

fn is_within_line(byte: u8) -> bool
    ensures { result ≡ shown.is_within_line byte }
{
    byte != b'\n' && byte != b'\r'
}

fn first_line_len(text: &[u8]) -> usize
    ensures len { result ≡ prefix_len shown.is_within_line text.now }
    ensures within { result ≤ length text.now }
{
    text.iter()
        .take_while(|byte| is_within_line(**byte))
        .count()
}

fn last_line_len(text: &[u8]) -> usize
    ensures len { result ≡ suffix_len shown.is_within_line text.now }
    ensures within { result ≤ length text.now }
{
    text.iter()
        .rev()
        .take_while(|byte| is_within_line(**byte))
        .count()
}

// What stands before the first line end.
fn first_line(text: &str) -> &str
    ensures { result.now ≡ shown.first_line text.now }
{
    let (line, _) = text.split_at(first_line_len(text.as_bytes()));
    line
}

// What stands behind the last line end.
fn last_line(text: &str) -> &str
    ensures { result.now ≡ shown.last_line text.now }
{
    let (_, line) = text.split_at(text.len() - last_line_len(text.as_bytes()));
    line
}

fn begins_character(byte: u8) -> bool
    ensures { result ≡ shown.begins_character byte }
{
    byte <= 127 || byte >= 192
}

fn below(byte: u8) -> char
    ensures { result ≡ shown.below byte }
{
    if byte == b'\t' { '\t' } else { ' ' }
}

// Adds what stands below the characters of a line before the mark.
fn write_below(text: &mut String, line: &[u8]) -> Result<(), AllocError>
    ensures { OnOk result
        (string_bytes text.new ≡ string_bytes text.old ++ shown.all_below line.now) }
{
    for &byte in line {
        if begins_character(byte) {
            text.push(below(byte))?;
        }
    }
    Ok(())
}

// What stands before the place and behind it; all stands before what is no place in the text.
fn split(text: &str, place: u64) -> (&str, &str)
    ensures there { IsCharBoundary text.now place
        → (result.0.now ≡ take place text.now) × (result.1.now ≡ drop place text.now) }
    ensures nowhere { ¬ (IsCharBoundary text.now place)
        → (result.0.now ≡ take (length text.now) text.now)
        × (result.1.now ≡ drop (length text.now) text.now) }
{
    match text.split_at_checked(place as usize) {
        Some(parts) => parts,
        None => (text, ""),
    }
}

// A line with a `^` below the place between its two parts.
fn marked(alloc: Global, before: &str, behind: &str) -> Result<String, AllocError>
    ensures { IfOk result (λ both. string_bytes both ≡ shown.marked before.now behind.now) }
{
    let mut both = String::from_str(alloc, before)?;
    both.push_str(behind)?;
    both.push('\n')?;
    write_below(&mut both, before.as_bytes())?;
    both.push('^')?;
    Ok(both)
}

/// The line of the text in which the place stands, and in the next line a `^` below the place, with
/// no line end behind it. The place is a byte's offset, counted from 0, or the text's length; one
/// within a character or past the text counts as the text's length. A line ends with LF, CR or
/// CR LF. Below each character before the place stands a blank, and below a tab a tab, so that the
/// `^` stands below its place wherever each character is as wide as a blank.
pub fn caret(alloc: Global, text: &str, place: u64) -> Result<String, AllocError>
    ensures there { IsCharBoundary text.now place
        → IfOk result (λ both. string_bytes both ≡ shown.shown_at text.now place) }
    ensures nowhere { ¬ (IsCharBoundary text.now place)
        → IfOk result (λ both. string_bytes both ≡ shown.shown_at text.now (length text.now)) }
{
    let (front, rest) = split(text, place);
    marked(alloc, last_line(front), first_line(rest))
}
