// What is wrong with a file.

use crate::kept::KeptFile;
use crate::lines::{Found, record_at};
use crate::shown::push_bytes;
use crate::source::{Source, last_source, source_of};
use join_plan::{InputFault, LimitFault};
use join_words::Options;
use std::alloc::{AllocError, Global};

/// The record at this place of a file, where it is kept.
fn record_of(alloc: Global, source: Source<'_>, place: u64) -> Result<Option<Found>, AllocError> {
    match source.bytes {
        Some(bytes) => record_at(alloc, bytes, place),
        None => Ok(None),
    }
}

/// Appends the line in which a record begins.
fn push_line(explained: &mut String, found: &Option<Found>) -> Result<(), AllocError> {
    match found {
        Some(found) => {
            let line = found.line;
            write!(explained, " (line {line})")
        }
        None => Ok(()),
    }
}

/// Appends the fields of a record, a line each.
fn push_fields(explained: &mut String, found: &Option<Found>) -> Result<(), AllocError> {
    if let Some(found) = found {
        for field in found.fields.iter() {
            explained.push_str("    ")?;
            push_bytes(explained, field)?;
            explained.push('\n')?;
        }
    }
    Ok(())
}

/// Appends a field of a record, its column counted from 1, behind what stands between, where there is one.
fn push_field(
    explained: &mut String,
    between: &str,
    found: &Option<Found>,
    column: u64,
) -> Result<(), AllocError> {
    let Some(found) = found else {
        return Ok(());
    };
    let Some(field) = found.fields.get(column.saturating_sub(1) as usize) else {
        return Ok(());
    };
    explained.push_str(between)?;
    push_bytes(explained, field)
}

fn push_no_header(explained: &mut String, source: Source<'_>) -> Result<(), AllocError> {
    let Source { label, name, .. } = source;
    write!(
        explained,
        "{label}, {name}, has no header: nothing stands in it but line ends, if any\n"
    )
}

/// Appends what is wrong with a header that isn't the first of its side.
fn push_other_header(
    explained: &mut String,
    source: Source<'_>,
    first: Source<'_>,
    record: &Option<Found>,
    wanted: &Option<Found>,
) -> Result<(), AllocError> {
    let Source { label, name, .. } = source;
    let first_label = first.label;
    let first_name = first.name;
    write!(
        explained,
        "{label}, {name}, has another header than {first_label}, {first_name}; wanted are the fields:\n"
    )?;
    push_fields(explained, wanted)?;
    explained.push_str("and it has:\n")?;
    push_fields(explained, record)
}

/// Appends what is wrong with a row of so many fields.
fn push_width(
    explained: &mut String,
    source: Source<'_>,
    row: u64,
    fields: u64,
    record: &Option<Found>,
    header: &Option<Found>,
) -> Result<(), AllocError> {
    let Source { label, name, .. } = source;
    let wanted = match header {
        Some(header) => header.fields.len(),
        None => 0,
    };
    write!(explained, "row {row}")?;
    push_line(explained, record)?;
    write!(
        explained,
        " of {label}, {name}, has {fields} fields, and the header has {wanted}; its fields:\n"
    )?;
    push_fields(explained, record)
}

/// Appends what is wrong with a cell of a row, its column counted from 1, that has no number.
fn push_number(
    explained: &mut String,
    source: Source<'_>,
    column: u64,
    row: u64,
    record: &Option<Found>,
    header: &Option<Found>,
) -> Result<(), AllocError> {
    let Source { label, name, .. } = source;
    write!(explained, "row {row}")?;
    push_line(explained, record)?;
    write!(
        explained,
        " of {label}, {name}, has no whole number in column {column}"
    )?;
    push_field(explained, ", ", header, column)?;
    push_field(explained, ": ", record, column)?;
    explained.push_str(
        "\na bare column is a number; text(..) around its name compares it as a text\n",
    )
}

/// The record of a file that a fault is about, and the header that it is held against, each where it is kept.
fn records_of(
    alloc: Global,
    options: &Options<'_>,
    files: &[KeptFile],
    fault: InputFault,
) -> Result<(Option<Found>, Option<Found>), AllocError> {
    let (side, wave, row, first) = match fault {
        InputFault::NoHeader { .. } => return Ok((None, None)),
        InputFault::Header { side, wave } => (side, wave, 0, 1),
        InputFault::Width {
            side,
            wave,
            row,
            ..
        } => (side, wave, row, wave),
        InputFault::Number {
            side,
            wave,
            row,
            ..
        } => (side, wave, row, wave),
    };
    let header = record_of(alloc, source_of(options, files, side, first), 0)?;
    match record_of(alloc, source_of(options, files, side, wave), row) {
        Ok(record) => Ok((record, header)),
        Err(refused) => {
            drop(header);
            Err(refused)
        }
    }
}

/// Appends what is wrong with a file of this fault.
fn push_input(
    explained: &mut String,
    options: &Options<'_>,
    files: &[KeptFile],
    fault: InputFault,
    record: &Option<Found>,
    header: &Option<Found>,
) -> Result<(), AllocError> {
    match fault {
        InputFault::NoHeader { side, wave } => {
            push_no_header(explained, source_of(options, files, side, wave))
        }
        InputFault::Header { side, wave } => push_other_header(
            explained,
            source_of(options, files, side, wave),
            source_of(options, files, side, 1),
            record,
            header,
        ),
        InputFault::Width {
            side,
            wave,
            row,
            found,
        } => push_width(
            explained,
            source_of(options, files, side, wave),
            row,
            found,
            record,
            header,
        ),
        InputFault::Number {
            side,
            wave,
            column,
            row,
        } => push_number(
            explained,
            source_of(options, files, side, wave),
            column,
            row,
            record,
            header,
        ),
    }
}

/// What is wrong with a file of this fault.
pub(crate) fn explain_input(
    alloc: Global,
    options: &Options<'_>,
    files: &[KeptFile],
    fault: InputFault,
) -> Result<String, AllocError> {
    let (record, header) = records_of(alloc, options, files, fault)?;
    let mut explained = String::new(alloc);
    let pushed = push_input(&mut explained, options, files, fault, &record, &header);
    drop(record);
    drop(header);
    match pushed {
        Ok(()) => Ok(explained),
        Err(refused) => {
            drop(explained);
            Err(refused)
        }
    }
}

/// What is past a limit.
pub(crate) fn explain_limit(
    alloc: Global,
    options: &Options<'_>,
    files: &[KeptFile],
    fault: LimitFault,
) -> Result<String, AllocError> {
    match fault {
        LimitFault::TooLong { side, wave } => {
            let Source { label, name, .. } = source_of(options, files, side, wave);
            format!(in alloc;
                "{label}, {name}, has more than 16777216 bytes, which is the most that a file may have\n"
            )
        }
        LimitFault::TooMany { side, wave } => {
            let Source { label, name, .. } = source_of(options, files, side, wave);
            format!(in alloc;
                "{label}, {name}, has more than 262144 rows, which is the most that a file may have\n"
            )
        }
        LimitFault::Total { side, wave, rows } => {
            let Source { label, name, .. } = source_of(options, files, side, wave);
            format!(in alloc;
                "{label}, {name}: with its rows there are {rows} on its side, and a side may have at most 262144\n"
            )
        }
        LimitFault::Between { pairs } => {
            format!(in alloc;
                "the first two files have {pairs} matching pairs, and a second join takes at most 262144\n"
            )
        }
    }
}

/// Why a file couldn't be read, as far as the system says.
pub(crate) fn explain_read(
    alloc: Global,
    options: &Options<'_>,
    files: &[KeptFile],
    cause: &str,
) -> Result<String, AllocError> {
    let Source { label, name, .. } = last_source(options, files);
    format!(in alloc; "{label}, {name}, can't be read: {cause}\n")
}
