// Whether a file's bytes are a table, found out while none is made.

ghost use Rattle.std.specs.Prelude.{◌≡◌, ◌⊎◌, IfErr, OnOk, Err, Ok};
ghost use Rattle.join_rows.specs.Records.{records_of, table_of, table_of_records};
ghost use Rattle.join_rows.specs.declared.fault.TableFault.TheVariants as fault;
ghost use Rattle.row_cells.specs.declared.table.Table.{Table};

use crate::byte_order_marks::without_marks;
use crate::fault::TableFault;
use crate::records::{MOST_BYTES, MOST_ROWS, reader_over};
use csv::ByteRecord;
use std::alloc::Global;

// Whether the records of a text are a table's, or what is wrong with them.
fn judge_records(alloc: Global, text: &[u8]) -> Result<(), TableFault>
    ensures good { OnOk result ((table : Table)
        × (table_of_records (records_of text.now) ≡ Ok table)) }
    ensures bad { IfErr result (λ why. (why ≡ fault.Memory)
        ⊎ (table_of_records (records_of text.now) ≡ Err why)) }
{
    let mut reader = reader_over(alloc, without_marks(text));
    let mut row = ByteRecord::new(alloc);
    match reader.read_byte_record(&mut row) {
        Err(_) => return Err(TableFault::Memory),
        Ok(false) => return Err(TableFault::NoHeader),
        Ok(true) => {}
    }
    let width = row.len();
    let mut count = 0;
    'rows: loop {
        match reader.read_byte_record(&mut row) {
            Err(_) => return Err(TableFault::Memory),
            Ok(false) => return Ok(()),
            Ok(true) => {}
        }
        if count == MOST_ROWS {
            return Err(TableFault::TooMany);
        }
        if row.len() != width {
            return Err(TableFault::Width {
                row: count + 1,
                found: row.len() as u64,
            });
        }
        count += 1;
    }
}

/// Whether a file's bytes are a table, or what is wrong with them, or want of memory. The records are counted and their
/// fields too, and no cell is made.
pub fn judge(alloc: Global, bytes: &[u8]) -> Result<(), TableFault>
    ensures good { OnOk result ((table : Table) × (table_of bytes.now ≡ Ok table)) }
    ensures bad { IfErr result (λ why. (why ≡ fault.Memory) ⊎ (table_of bytes.now ≡ Err why)) }
{
    if bytes.len() > MOST_BYTES {
        return Err(TableFault::TooLong);
    }
    judge_records(alloc, bytes)
}
