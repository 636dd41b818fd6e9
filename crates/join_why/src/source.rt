// The files that the words name, with what was read of them.

use crate::kept::KeptFile;
use crate::lines::record_at;
use join_plan::Which;
use join_rows::make_table;
use join_words::Options;
use joined_rows::joined_names;
use row_cells::{Bytes, Names, Side};
use std::alloc::{AllocError, Global};

/// A file that the words name.
#[derive(Clone, Copy, Debug)]
pub(crate) struct Source<'a> {
    /// `R` or `S`, and behind the first wave with its number, as `jm` calls it; the third file of two joins is `S2`.
    pub(crate) label: &'static str,
    pub(crate) name: &'a str,
    /// What was read of it, where it is kept whole.
    pub(crate) bytes: Option<&'a [u8]>,
}

/// What was read of the file that was picked at this place, from 0, where it is kept whole.
fn bytes_at<'a>(files: &'a [KeptFile], place: usize) -> Option<&'a [u8]> {
    let file = files.get(place)?;
    if file.is_whole {
        Some(file.bytes.as_slice())
    } else {
        None
    }
}

/// How `jm` calls the file of a side in a wave.
pub(crate) fn label_of(side: Side, wave: u32) -> &'static str {
    match (side, wave) {
        (Side::R, 0 | 1) => "R",
        (Side::R, 2) => "R2",
        (Side::R, 3) => "R3",
        (Side::R, _) => "R4",
        (Side::S, 0 | 1) => "S",
        (Side::S, 2) => "S2",
        (Side::S, 3) => "S3",
        (Side::S, _) => "S4",
    }
}

/// The name of a side's file in a later wave, or that of the third file of two joins; empty where there is none.
fn later_name<'a>(options: &Options<'a>, side: Side, wave: u32) -> &'a str {
    if let Some(chain) = options.kind.chain() {
        return chain.name;
    }
    match (
        side,
        options.kind.later().get(wave.saturating_sub(2) as usize),
    ) {
        (Side::R, Some(wave)) => wave.name_r,
        (Side::S, Some(wave)) => wave.name_s,
        (_, None) => "",
    }
}

/// The name of a side's file in a wave.
pub(crate) fn name_of<'a>(options: &Options<'a>, side: Side, wave: u32) -> &'a str {
    match (side, wave) {
        (Side::R, 0 | 1) => options.name_r,
        (Side::S, 0 | 1) => options.name_s,
        _ => later_name(options, side, wave),
    }
}

/// The place of a side's file in a wave among those that are read, from 0.
fn place_of(options: &Options<'_>, side: Side, wave: u32) -> usize {
    if wave > 1 && options.kind.chain().is_some() {
        return 2;
    }
    let earlier = wave.clamp(1, 4) - 1;
    let place = match side {
        Side::R => 2 * earlier,
        Side::S => 2 * earlier + 1,
    };
    place as usize
}

/// The file of a side in a wave.
pub(crate) fn source_of<'a>(
    options: &Options<'a>,
    files: &'a [KeptFile],
    side: Side,
    wave: u32,
) -> Source<'a> {
    Source {
        label: label_of(side, wave),
        name: name_of(options, side, wave),
        bytes: bytes_at(files, place_of(options, side, wave)),
    }
}

/// The file that was read last.
pub(crate) fn last_source<'a>(options: &Options<'a>, files: &'a [KeptFile]) -> Source<'a> {
    let count = files.len().clamp(1, 8) as u32;
    if count > 2 && options.kind.chain().is_some() {
        return source_of(options, files, Side::S, 2);
    }
    let side = if count % 2 == 1 { Side::R } else { Side::S };
    source_of(options, files, side, (count + 1) / 2)
}

/// The fields of a file's first record; none where it isn't kept.
fn header(alloc: Global, source: Source<'_>) -> Result<Names, AllocError> {
    let mut names = Names::new(alloc);
    let Some(bytes) = source.bytes else {
        return Ok(names);
    };
    let Some(found) = record_at(alloc, bytes, 0)? else {
        return Ok(names);
    };
    for field in found.fields.iter() {
        names.push(Bytes::from_slice(alloc, field)?)?;
    }
    Ok(names)
}

/// The names of the columns of one of the two tables: those of a made one, or of the file.
fn table_names(
    alloc: Global,
    options: &Options<'_>,
    files: &[KeptFile],
    side: Side,
) -> Result<Names, AllocError> {
    if options.make.is_some() {
        return Ok(make_table(alloc, side, 1)?.names);
    }
    header(alloc, source_of(options, files, side, 1))
}

/// The names of the columns that a predicate has on a side; in that of a second join R is the joined row.
pub(crate) fn names_of(
    alloc: Global,
    options: &Options<'_>,
    files: &[KeptFile],
    which: Which,
    side: Side,
) -> Result<Names, AllocError> {
    match (which, side) {
        (Which::On, _) => table_names(alloc, options, files, side),
        (Which::Then, Side::S) => header(alloc, source_of(options, files, Side::S, 2)),
        (Which::Then, Side::R) => {
            let names_r = table_names(alloc, options, files, Side::R)?;
            let names_s = table_names(alloc, options, files, Side::S)?;
            joined_names(alloc, &names_r, &names_s)
        }
    }
}
