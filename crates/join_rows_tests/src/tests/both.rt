// Two files' tables, made side by side, and bytes that are judged before.

use join_rows::{Made, MapShelf, TableFault, both_tables, judge, read_bytes, read_table, table_in};
use row_cells::{Bytes, Table};
use std::alloc::{AllocError, Global};
use std::process::Abort;
use std::test::Fail;
use std::thread::Threads;

const GOOD: &[u8] = b"id,x\n1,10\n2,\"a,b\"\n";

const ROWLESS: &[u8] = b"id,x\n";

const COLUMN: &[u8] = b"\xEF\xBB\xBFk\r7\r\n\n8";

const EMPTY: &[u8] = b"\n\n";

const NARROW: &[u8] = b"id,x\n1,10\n2\n3\n";

const WIDE: &[u8] = b"id\n1\n2,\n";

// What `read_table` answers for a file of these bytes.
fn table_of(alloc: Global, file: &[u8]) -> Result<Made, AllocError> {
    let mut shelf = MapShelf::new(alloc);
    shelf.add("file", file)?;
    Ok(read_table(alloc, &mut shelf, "file"))
}

fn same_texts(one: &[Bytes], other: &[Bytes]) -> bool {
    let mut same = one.len() == other.len();
    for (a, b) in one.iter().zip(other.iter()) {
        same = same && a.as_slice() == b.as_slice();
    }
    same
}

fn same_tables(one: &Table, other: &Table) -> bool {
    let mut same = same_texts(one.names.as_slice(), other.names.as_slice())
        && one.rows.len() == other.rows.len();
    for (a, b) in one.rows.as_slice().iter().zip(other.rows.as_slice().iter()) {
        same = same && a.len() == b.len();
        for place in 0..a.len() {
            same = same && a.text_at(place) == b.text_at(place);
            same = same && a.number_at(place) == b.number_at(place);
        }
    }
    same
}

fn same(one: &Made, other: &Made) -> bool {
    match (one, other) {
        (Ok(one), Ok(other)) => same_tables(one, other),
        (Err(one), Err(other)) => one == other,
        _ => false,
    }
}

// Two files have the tables that they have one by one.
fn agree<R: Threads + Abort>(
    rt: &R,
    alloc: Global,
    of_r: &[u8],
    of_s: &[u8],
) -> Result<(), AllocError> {
    let (r, s) = both_tables(rt, alloc, of_r, of_s);
    assert!(rt; same(&r, &table_of(alloc, of_r)?));
    assert!(rt; same(&s, &table_of(alloc, of_s)?));
    Ok(())
}

#[test]
fn two_tables(rt: HostRuntime) -> Result<(), Fail> {
    for of_r in [GOOD, ROWLESS, COLUMN, EMPTY, NARROW] {
        for of_s in [GOOD, COLUMN, EMPTY, WIDE] {
            agree(&rt, rt.alloc(), of_r, of_s)?;
        }
    }
    Ok(())
}

// A file of so many bytes, one digit a row.
fn digits(alloc: Global, bytes: usize) -> Result<Vec<u8>, AllocError> {
    let mut file = Vec::new(alloc);
    for place in 0..bytes {
        file.push(if place % 2 == 0 { b'7' } else { b'\n' })?;
    }
    Ok(file)
}

#[test]
fn a_byte_past_a_piece(rt: HostRuntime) -> Result<(), Fail> {
    let file = digits(rt.alloc(), 4097)?;
    agree(&rt, rt.alloc(), &file, GOOD)?;
    agree(&rt, rt.alloc(), GOOD, &file)?;
    match table_in(rt.alloc(), &file) {
        Ok(table) => assert_eq!(rt; table.rows.len(), 2048),
        Err(fault) => assert!(rt; false, "{fault}"),
    }
    Ok(())
}

// What is wrong with a file's bytes, as they are read, judged and made a table.
#[test]
fn faults_of_bytes(rt: HostRuntime) -> Result<(), Fail> {
    let cases: [(&[u8], Option<TableFault>); 6] = [
        (GOOD, None),
        (ROWLESS, None),
        (COLUMN, None),
        (EMPTY, Some(TableFault::NoHeader)),
        (NARROW, Some(TableFault::Width { row: 2, found: 1 })),
        (WIDE, Some(TableFault::Width { row: 2, found: 2 })),
    ];
    for (file, fault) in cases {
        let mut shelf = MapShelf::new(rt.alloc());
        shelf.add("file", file)?;
        match read_bytes(rt.alloc(), &mut shelf, "file") {
            Ok(bytes) => assert!(rt; bytes.as_slice() == file),
            Err(fault) => assert!(rt; false, "{fault}"),
        }
        assert!(rt; judge(rt.alloc(), file).err() == fault);
        assert!(rt; table_in(rt.alloc(), file).err() == fault);
    }
    Ok(())
}

#[test]
fn no_bytes_of_a_missing_file(rt: HostRuntime) -> Result<(), Fail> {
    let mut shelf = MapShelf::new(rt.alloc());
    shelf.add("r", GOOD)?;
    assert!(rt; read_bytes(rt.alloc(), &mut shelf, "s").err() == Some(TableFault::Read));
    assert!(rt; read_bytes(rt.alloc(), &mut shelf, "r").is_ok());
    Ok(())
}
