// The text of joined rows.

ghost use Rattle.std.specs.Prelude.{◌≡◌, ◌++◌, ℕ, List, IfOk, OnOk, map};
ghost use Rattle.csv.specs.Reading.{default_config, records};
ghost use Rattle.csv.specs.Writing.{read_back};
ghost use Rattle.join_report.specs.RowLines.{joined_fields, row_at, row_line, row_lines, texts_of};
ghost use Rattle.join_report.specs.Writers.{HasWritten};

use csv::{Writer, WriterBuilder};
use epoch_tags::Pair;
use row_cells::{Bytes, Cells, Rows};
use std::alloc::{AllocError, Global};

/// Adds the texts of a row's cells.
fn push_texts<'a>(fields: &mut Vec<&'a [u8]>, row: &'a Cells) -> Result<(), AllocError>
    ensures { OnOk result (map (λ field. field.now) fields.new.items
        ≡ map (λ field. field.now) fields.old.items ++ texts_of row.now) }
{
    for place in 0..row.len() {
        fields.push(row.text_at(place))?;
    }
    Ok(())
}

/// Adds the texts of the row at a place, where there is one.
fn push_row<'a>(fields: &mut Vec<&'a [u8]>, rows: &'a Rows, place: u32) -> Result<(), AllocError>
    ensures { OnOk result (map (λ field. field.now) fields.new.items
        ≡ map (λ field. field.now) fields.old.items ++ texts_of (row_at rows.now place)) }
{
    match rows.as_slice().get(place as usize) {
        Some(row) => push_texts(fields, row),
        None => Ok(()),
    }
}

/// Writes the record of a pair. `fields` is room for its fields.
fn write_row<'a>(
    writer: &mut Writer<Vec<u8>>,
    fields: &mut Vec<&'a [u8]>,
    rows_r: &'a Rows,
    rows_s: &'a Rows,
    pair: Pair,
) -> Result<(), AllocError>
    ensures { OnOk result ((text : List ℕ) → HasWritten writer.old text
        → HasWritten writer.new (text ++ row_line rows_r.now rows_s.now pair)) }
{
    fields.clear();
    push_row(fields, rows_r, pair.i)?;
    push_row(fields, rows_s, pair.j)?;
    match writer.write_fields(fields.as_slice()) {
        Ok(()) => Ok(()),
        Err(_) => Err(AllocError),
    }
}

/// A record of CSV for each pair, in their order: the fields of the pair's row of R and then those of its row of S,
/// as the `csv` crate's writer writes them by default. A field is quoted where it must be, and a record ends with
/// LF. Pairs count rows from 0; a row that isn't there has no field. A record with more or fewer fields than the
/// first, which rows of two tables never give, ends as want of memory does.
pub fn rows_text(
    alloc: Global,
    rows_r: &Rows,
    rows_s: &Rows,
    pairs: &[Pair],
) -> Result<Bytes, AllocError>
    ensures text { IfOk result (λ text. text ≡ row_lines rows_r.now rows_s.now pairs.now) }
    ensures reads { IfOk result (λ text. records default_config text
        ≡ map (λ pair. read_back (joined_fields rows_r.now rows_s.now pair)) pairs.now) }
{
    let mut writer = WriterBuilder::new().from_writer(Vec::new(alloc));
    let mut fields = Vec::new(alloc);
    for pair in pairs {
        write_row(&mut writer, &mut fields, rows_r, rows_s, *pair)?;
    }
    match writer.into_inner() {
        Ok(text) => Ok(Bytes::from_vec(text)),
        Err(_) => Err(AllocError),
    }
}
