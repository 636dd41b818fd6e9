// Where a record stands in a file.

use csv::{ByteRecord, Reader, ReaderBuilder};
use std::alloc::{AllocError, Global};

/// A record of a file.
#[derive(Debug, Drop)]
pub(crate) struct Found {
    /// The line in which it begins, counted from 1.
    pub(crate) line: u64,
    pub(crate) fields: ByteRecord,
}

/// The text after each byte order mark at its beginning.
fn after_marks(text: &[u8]) -> &[u8] {
    let mut rest = text;
    for _ in 0..text.len() {
        let [0xEF, 0xBB, 0xBF, others @ ..] = rest else {
            return rest;
        };
        rest = others;
    }
    rest
}

/// A reader of records as tables have them.
fn reader_over<'a>(alloc: Global, text: &'a [u8]) -> Reader<&'a [u8]> {
    ReaderBuilder::new()
        .has_headers(false)
        .flexible(true)
        .from_reader(alloc, text)
}

/// The place of the first byte from this one on that ends no line.
fn after_line_ends(text: &[u8], from: usize) -> usize {
    for place in from..text.len() {
        if text[place] != b'\n' && text[place] != b'\r' {
            return place;
        }
    }
    text.len()
}

/// The line in which a place stands, counted from 1. A line ends at LF, or at a CR with no LF behind it.
fn line_of(text: &[u8], place: usize) -> u64 {
    let mut line: u64 = 1;
    for at in 0..place.min(text.len()) {
        if text[at] == b'\n' || text[at] == b'\r' && text.get(at + 1) != Some(&b'\n') {
            line = line.saturating_add(1);
        }
    }
    line
}

/// Reads a record, and whether there was one.
fn reads<'a>(reader: &mut Reader<&'a [u8]>, fields: &mut ByteRecord) -> Result<bool, AllocError> {
    match reader.read_byte_record(fields) {
        Ok(found) => Ok(found),
        // (bytes are read without fail, so it is memory that is wanting)
        Err(_) => Err(AllocError),
    }
}

/// The byte at which the record at `place` begins for the reader, and its fields; none where there are not so many.
fn reads_up_to<'a>(
    reader: &mut Reader<&'a [u8]>,
    fields: &mut ByteRecord,
    place: u64,
) -> Result<Option<u64>, AllocError> {
    for _ in 0..place {
        if !reads(reader, fields)? {
            return Ok(None);
        }
    }
    let begins = reader.position().byte();
    Ok(if reads(reader, fields)? {
        Some(begins)
    } else {
        None
    })
}

/// The record at `place` of a file, counted from 0, so that the header is at 0 and row 1 at 1; none where there are
/// not so many.
pub(crate) fn record_at(
    alloc: Global,
    bytes: &[u8],
    place: u64,
) -> Result<Option<Found>, AllocError> {
    let text = after_marks(bytes);
    let mut reader = reader_over(alloc, text);
    let mut fields = ByteRecord::new(alloc);
    let begins = reads_up_to(&mut reader, &mut fields, place);
    drop(reader);
    match begins {
        Ok(Some(begins)) => {
            let line = line_of(text, after_line_ends(text, begins as usize));
            Ok(Some(Found { line, fields }))
        }
        Ok(None) => {
            drop(fields);
            Ok(None)
        }
        Err(refused) => {
            drop(fields);
            Err(refused)
        }
    }
}
