// A column of a table whose cells aren't all numbers.

ghost use Rattle.std.specs.Prelude.{◌<◌, length, IfOk};
ghost use Rattle.join_rows.specs.Records.{IsTable};

use join_rows::{MapShelf, read_table};
use row_cells::Table;
use std::alloc::{AllocError, Global};
use std::process::Abort;
use std::test::Fail;

// The row, counted from 1, of a column's first cell that isn't empty and has no number.
fn bad_row(table: &Table, column: u64) -> Option<u64>
    requires table { IsTable table.now }
    requires column { column < length table.now.names }
{
    match table.numbers(column) {
        Ok(()) => None,
        Err(fault) => Some(fault.row),
    }
}

// The table in a file of these bytes.
fn table_of(alloc: Global, bytes: &[u8]) -> Result<Table, AllocError>
    ensures { IfOk result IsTable }
{
    let mut shelf = MapShelf::new(alloc);
    shelf.add("s", bytes)?;
    let table = read_table(alloc, &mut shelf, "s");
    drop(shelf);
    match table {
        Ok(table) => Ok(table),
        Err(_) => Err(AllocError),
    }
}

fn has_a_bad_number(rt: &impl Abort, table: &Table)
    requires { IsTable table.now }
{
    assert_eq!(rt; table.names.len(), 2);
    assert_eq!(rt; bad_row(table, 0), None);
    assert_eq!(rt; bad_row(table, 1), Some(3));
}

#[test]
fn a_column_with_letters_has_a_bad_number(rt: HostRuntime) -> Result<(), Fail> {
    let table = table_of(rt.alloc(), b"id,y\n1,20\n2,30\n3,4x\n")?;
    has_a_bad_number(&rt, &table);
    drop(table);
    Ok(())
}
