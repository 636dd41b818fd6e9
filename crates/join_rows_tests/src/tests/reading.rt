ghost use Rattle.std.specs.Prelude.{IfOk};
ghost use Rattle.join_rows.specs.Records.{IsTable};

use join_rows::{Failed, MapShelf, Shelf, TableFault, read_table};
use row_cells::{BadNumber, Table};
use std::alloc::{AllocError, Global};
use std::process::Abort;
use std::test::Fail;

// The table of a file of these bytes.
fn table_of(alloc: Global, file: &[u8]) -> Result<Result<Table, TableFault>, AllocError>
    ensures { IfOk result (λ answer. IfOk answer IsTable) }
{
    let mut shelf = MapShelf::new(alloc);
    shelf.add("file", file)?;
    Ok(read_table(alloc, &mut shelf, "file"))
}

fn has(rt: &impl Abort, table: &Table, names: u64, name: &[u8], rows: u64, text: &[u8])
    requires { IsTable table.now }
{
    assert_eq!(rt; table.names.len(), names);
    assert_eq!(rt; table.names.at(0).as_slice(), name);
    assert_eq!(rt; table.rows.len(), rows);
    assert!(rt; has_text(table, text));
}

fn has_text(table: &Table, text: &[u8]) -> bool {
    let mut found = false;
    for row in table.rows.as_slice() {
        for place in 0..row.len() {
            found = found || row.text_at(place) == text;
        }
    }
    found
}

// A file's bytes and what there is to read in them: the names and the first of them, and the rows with one of their
// fields.
#[test]
fn tables(rt: HostRuntime) -> Result<(), Fail> {
    let cases: [(&[u8], u64, &[u8], u64, &[u8]); 14] = [
        (b"id,x\n1,10\n2,20\n3,30\n", 2, b"id", 3, b"10"),
        (b"id,x\n1,10", 2, b"id", 1, b"10"),
        (b"id,x\n1,\n", 2, b"id", 1, b""),
        (b"k,v\r7,a\r", 2, b"k", 1, b"a"),
        (b"k,v\n7,a\r8,b\r\n9,c", 2, b"k", 3, b"c"),
        (b"\n\nk,v\n\n7,a\n\n", 2, b"k", 1, b"a"),
        (b"\r\n\r\nk,v\r\r\n\n\r7,a\n\r\n8,b\r\n\r", 2, b"k", 2, b"b"),
        (b"k\n\"\"\n \n", 1, b"k", 2, b" "),
        (
            b"k,v\n\"T,2\",\"say \"\"so\"\"\n\"\n",
            2,
            b"k",
            1,
            b"say \"so\"\n",
        ),
        (
            b"\xEF\xBB\xBF\xEF\xBB\xBFk,v\r\n7,a\r\n8,b\r\n",
            2,
            b"k",
            2,
            b"a",
        ),
        (
            b"\xEF\xBB\xBF\xEF\xBB\xBF\xEF\xBB\xBFk\n7",
            1,
            b"k",
            1,
            b"7",
        ),
        (b"\xEF\xBB\xBF\xEF\xBBk\n7", 1, b"\xEF\xBBk", 1, b"7"),
        (b"k\n\xEF\xBB\xBF7\n", 1, b"k", 1, b"\xEF\xBB\xBF7"),
        (b"\xFF\n\xFE\n", 1, b"\xFF", 1, b"\xFE"),
    ];
    for (file, names, name, rows, text) in cases {
        let table = table_of(rt.alloc(), file)??;
        has(&rt, &table, names, name, rows, text);
    }
    Ok(())
}

// The row that a column's answer names, and 0 where there is none.
fn row_in(answer: Result<(), BadNumber>) -> u64 {
    match answer {
        Ok(()) => 0,
        Err(fault) => fault.row,
    }
}

// What the first and the last column tell so.
fn bad_rows(table: &Table) -> (u64, u64)
    requires { IsTable table.now }
{
    let width = table.names.len();
    (row_in(table.numbers(0)), row_in(table.numbers(width - 1)))
}

// The first rows that are neither empty nor a number, in the first column of a table and in its last.
#[test]
fn columns(rt: HostRuntime) -> Result<(), Fail> {
    let cases: [(&[u8], u64, u64); 5] = [
        (b"id,y\n1,20\n2,30\n3,4x\n", 0, 3),
        (b"id,x\n1,10\n2,\n3,-7\n", 0, 0),
        (b"id,x\n1, \n2,z\n3,y\n", 0, 2),
        (b"id,x\n\n a ,0\n", 1, 0),
        (b"id,x\n", 0, 0),
    ];
    for (file, first, last) in cases {
        let table = table_of(rt.alloc(), file)??;
        assert!(rt; bad_rows(&table) == (first, last));
    }
    Ok(())
}

#[test]
fn faults(rt: HostRuntime) -> Result<(), Fail> {
    let cases: [(&[u8], TableFault); 8] = [
        (b"", TableFault::NoHeader),
        (b"\xEF\xBB\xBF\r\n\n", TableFault::NoHeader),
        (b"\n\r\r\n\n", TableFault::NoHeader),
        (b"a,b\n1,2\n3", TableFault::Width { row: 2, found: 1 }),
        (b"a,b\n\n1,2,3\n4\n", TableFault::Width { row: 1, found: 3 }),
        (b"k,v\n7\n", TableFault::Width { row: 1, found: 1 }),
        (
            b"a,b\n\n1,2\n\r\n3\n4\n",
            TableFault::Width { row: 2, found: 1 },
        ),
        (b"k\n7\n\"\"\n8,9\n", TableFault::Width { row: 3, found: 2 }),
    ];
    for (file, why) in cases {
        let fault = table_of(rt.alloc(), file)?.err();
        assert!(rt; fault == Some(why));
    }
    Ok(())
}

// Files at the limits: a text so many times, the text at their end, and what is wrong with them.
#[test]
fn limits(rt: HostRuntime) -> Result<(), Fail> {
    let page = [b'\n'; 4096];
    let cases: [(&[u8], usize, &[u8], Option<TableFault>); 3] = [
        (&page, 4096, b"k", Some(TableFault::TooLong)),
        (b"7\n", 262_145, b"8,9", Some(TableFault::TooMany)),
        (
            b"7\n",
            262_144,
            b"8,9\n7",
            Some(TableFault::Width {
                row: 262_144,
                found: 2,
            }),
        ),
    ];
    for (text, times, end, why) in cases {
        let mut file = text.repeat(rt.alloc(), times)?;
        file.extend_from_slice(end)?;
        let fault = table_of(rt.alloc(), file.as_slice())?.err();
        assert!(rt; fault == why);
    }
    Ok(())
}

// A shelf that counts the reads of another, and how many of them have room for 4,096 bytes.
#[derive(Drop)]
struct Counting {
    inner: MapShelf,
    reads: u64,
    pages: u64,
}

// 1 for a read with that room, else 0.
fn page(room: usize) -> u64 {
    if room == 4096 { 1 } else { 0 }
}

impl Shelf for Counting {
    ghost told = { λ s. ⟦<MapShelf as Shelf>⟧.told s.inner };

    ghost picked = { λ s. ⟦<MapShelf as Shelf>⟧.picked s.inner };

    ghost faults = { λ s. ⟦<MapShelf as Shelf>⟧.faults s.inner };

    ghost sound = { λ s. ⟦<MapShelf as Shelf>⟧.sound s.inner };

    fn pick(&mut self, name: &str) -> Result<(), Failed> {
        self.inner.pick(name)
    }

    fn read(&mut self, into: &mut [u8]) -> Result<usize, Failed> {
        self.reads = self.reads.saturating_add(1);
        self.pages = self.pages.saturating_add(page(into.len()));
        self.inner.read(into)
    }
}

// No read comes after the end, or after one that failed: the second is the end's, and the third another file's.
#[test]
fn reads_that_are_made(rt: HostRuntime) -> Result<(), Fail> {
    let mut inner = MapShelf::new(rt.alloc());
    inner.add("r", b"id,x\n1,10\n")?;
    inner.add("s", b"id,y\n1,20\n")?;
    inner.fail_read(3)?;
    let mut shelf = Counting {
        inner,
        reads: 0,
        pages: 0,
    };
    assert!(rt; read_table(rt.alloc(), &mut shelf, "r").is_ok());
    assert!(rt; shelf.reads == 2);
    let fault = read_table(rt.alloc(), &mut shelf, "s").err();
    assert!(rt; fault == Some(TableFault::Read));
    assert!(rt; shelf.reads == 3);
    assert!(rt; shelf.pages == 3);
    Ok(())
}

// After a pick of a name that isn't there the shelf reads again.
#[test]
fn a_missing_name_is_no_file(rt: HostRuntime) -> Result<(), Fail> {
    let mut shelf = MapShelf::new(rt.alloc());
    shelf.add("r", b"k\n7\n")?;
    assert!(rt; shelf.pick("s").is_err());
    let mut piece = [0u8; 4];
    assert!(rt; shelf.read(&mut piece) == Ok(0));
    assert!(rt; read_table(rt.alloc(), &mut shelf, "r").is_ok());
    Ok(())
}

// After a pick that failed as it was told to, too.
#[test]
fn a_pick_that_fails_leaves_the_file(rt: HostRuntime) -> Result<(), Fail> {
    let mut shelf = MapShelf::new(rt.alloc());
    shelf.add("r", b"k\n7\n")?;
    shelf.fail_pick(1)?;
    assert!(rt; shelf.pick("r").is_err());
    assert!(rt; read_table(rt.alloc(), &mut shelf, "r").is_ok());
    Ok(())
}

// A pick that is told to fail, a name that is picked first, and whether its table is read.
#[test]
fn names_that_are_missing(rt: HostRuntime) -> Result<(), Fail> {
    let cases = [(2, "s", false), (1, "r", false), (2, "r", true)];
    for (failing, name, there) in cases {
        let mut shelf = MapShelf::new(rt.alloc());
        shelf.add("r", b"a\n")?;
        shelf.fail_pick(failing)?;
        assert!(rt; read_table(rt.alloc(), &mut shelf, name).is_ok() == there);
    }
    Ok(())
}
