// The table of a text, by the records of `csv`.

ghost use Rattle.std.specs.Prelude.{◌≡◌, ◌⊎◌, ◌++◌, length, IfOk, OnOk, Err, Some};
ghost use Rattle.csv.specs.Reading.{Ready, default_config, reader_config, reader_state, reader_trim, source_of, strip_bom};
ghost use Rattle.csv.specs.Records.{fields_of};
ghost use Rattle.csv.specs.declared.parser.State.TheVariants as st;
ghost use Rattle.csv.specs.declared.reader.Trim.TheVariants as trim;
ghost use Rattle.join_rows.specs.Records.{IsTable, records_of, table_of, table_of_records};
ghost use Rattle.join_rows.specs.declared.fault.TableFault.TheVariants as fault;

use crate::byte_order_marks::without_marks;
use crate::fault::TableFault;
use csv::{ByteRecord, Reader, ReaderBuilder};
use row_cells::{Bytes, Names, Table, Texts, rows_over};
use std::alloc::{AllocError, Global};

/// How many bytes a file may have.
pub(crate) const MOST_BYTES: usize = 1 << 24;

/// How many rows a table may have under its header.
pub(crate) const MOST_ROWS: u64 = 1 << 18;

// The fields of a record.
fn names_from(alloc: Global, row: &ByteRecord) -> Result<Names, AllocError>
    ensures { IfOk result (λ names. names ≡ fields_of row.now) }
{
    let mut names = Names::with_room(alloc, row.len())?;
    let mut place = 0;
    while let Some(field) = row.get(place) {
        names.push(Bytes::from_slice(alloc, field)?)?;
        place += 1;
    }
    Ok(names)
}

// Appends the fields of a record.
fn add_fields(texts: &mut Texts, row: &ByteRecord) -> Result<(), AllocError>
    ensures { OnOk result (texts.new ≡ texts.old ++ fields_of row.now) }
{
    let mut place = 0;
    while let Some(field) = row.get(place) {
        texts.push(field)?;
        place += 1;
    }
    Ok(())
}

// A reader over a text, with no header row of its own, that takes records of any width.
pub(crate) fn reader_over<'a>(alloc: Global, text: &'a [u8]) -> Reader<&'a [u8]>
    ensures trim { reader_trim result ≡ trim.None }
    ensures ready { Ready result }
    ensures config { reader_config result ≡ default_config }
    ensures state { reader_state result ≡ st.StartRecord }
    ensures source { source_of (λ s. Some s.now) result ≡ Some (strip_bom text.now) }
{
    ReaderBuilder::new()
        .has_headers(false)
        .flexible(true)
        .from_reader(alloc, text)
}

// The table of a text.
pub(crate) fn table_from(alloc: Global, text: &[u8]) -> Result<Table, TableFault>
    ensures { (result ≡ Err fault.Memory) ⊎ (result ≡ table_of_records (records_of text.now)) }
{
    let mut reader = reader_over(alloc, without_marks(text));
    let mut row = ByteRecord::new(alloc);
    match reader.read_byte_record(&mut row) {
        Err(_) => return Err(TableFault::Memory),
        Ok(false) => return Err(TableFault::NoHeader),
        Ok(true) => {}
    }
    let width = row.len();
    let names = names_from(alloc, &row)?;
    let mut texts = Texts::new(alloc);
    let mut count = 0;
    'rows: loop {
        match reader.read_byte_record(&mut row) {
            Err(_) => return Err(TableFault::Memory),
            Ok(false) => {
                let rows = rows_over(alloc, texts, width as u64, count)?;
                return Ok(Table { names, rows });
            }
            Ok(true) => {}
        }
        if count == MOST_ROWS {
            return Err(TableFault::TooMany);
        }
        if row.len() != width {
            return Err(TableFault::Width {
                row: count + 1,
                found: row.len() as u64,
            });
        }
        add_fields(&mut texts, &row)?;
        count += 1;
    }
}

/// The table that a file's bytes are, or what is wrong with them, or want of memory.
pub fn table_in(alloc: Global, bytes: &[u8]) -> Result<Table, TableFault>
    ensures answer { (result ≡ Err fault.Memory) ⊎ (result ≡ table_of bytes.now) }
    ensures table { IfOk result IsTable }
{
    if bytes.len() > MOST_BYTES {
        return Err(TableFault::TooLong);
    }
    table_from(alloc, bytes)
}
