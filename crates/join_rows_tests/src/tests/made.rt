ghost use Rattle.std.specs.Prelude.{◌≤◌, ◌^◌};

use join_rows::make_table;
use row_cells::{Bytes, Side, Table};
use std::alloc::{AllocError, Global};
use std::test::Fail;

// The fields of each line, split by commas.
fn lines(alloc: Global, table: &Table) -> Result<Bytes, AllocError> {
    let mut text = Bytes::new(alloc);
    for name in table.names.as_slice() {
        text.append(name.as_slice())?;
        text.append(b",")?;
    }
    for row in table.rows.as_slice() {
        text.append(b"\n")?;
        for place in 0..row.len() {
            text.append(row.text_at(place))?;
            text.append(b",")?;
        }
    }
    Ok(text)
}

fn made_lines(alloc: Global, side: Side, count: u64) -> Result<Bytes, AllocError>
    requires some { 1 ≤ count }
    requires few { count ≤ 2 ^ 16 }
{
    let table = make_table(alloc, side, count)?;
    lines(alloc, &table)
}

#[test]
fn made_tables(rt: HostRuntime) -> Result<(), Fail> {
    let alloc = rt.alloc();
    let wanted: &[u8] = b"id,key,val,\n1,0,0,\n2,11,1,\n3,22,2,";
    assert!(rt; made_lines(alloc, Side::S, 3)?.as_slice() == wanted);
    let wanted: &[u8] = b"id,key,val,\n1,0,0,\n2,7,1,";
    assert!(rt; made_lines(alloc, Side::R, 2)?.as_slice() == wanted);
    Ok(())
}
