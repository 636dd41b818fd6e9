use join_rows::{MapShelf, read_table};
use row_cells::{Bytes, Cell, Cells};
use std::alloc::{AllocError, Global};
use std::process::Abort;
use std::test::Fail;

fn cell(alloc: Global, text: &[u8]) -> Result<Cell, AllocError> {
    Ok(Cell::new(Bytes::from_slice(alloc, text)?))
}

// A copy of a list and a copy of that one, made before a push.
fn copies_before(cells: &mut Cells, pushed: Cell) -> Result<(Cells, Cells), AllocError> {
    let first = cells.copy()?;
    let second = first.copy()?;
    cells.push(pushed)?;
    Ok((first, second))
}

fn one_and_two(alloc: Global) -> Result<Cells, AllocError> {
    let mut cells = Cells::new(alloc);
    cells.push(cell(alloc, b"1")?)?;
    cells.push(cell(alloc, b"2")?)?;
    Ok(cells)
}

fn have_numbers(rt: &impl Abort, cells: &Cells, numbers: &[i64]) {
    assert_eq!(rt; cells.len(), numbers.len() as u64);
    for (place, number) in numbers.iter().enumerate() {
        assert_eq!(rt; cells.number_at(place as u64), Some(*number));
    }
    assert_eq!(rt; cells.number_at(cells.len()), None);
    assert_eq!(rt; cells.text_at(cells.len()), b"".as_slice());
}

#[test]
fn a_push_leaves_the_copies(rt: HostRuntime) -> Result<(), Fail> {
    let alloc = rt.alloc();
    let mut cells = one_and_two(alloc)?;
    let (first, second) = copies_before(&mut cells, cell(alloc, b"3")?)?;
    have_numbers(&rt, &first, &[1, 2]);
    have_numbers(&rt, &second, &[1, 2]);
    have_numbers(&rt, &cells, &[1, 2, 3]);
    Ok(())
}

#[test]
fn an_empty_list_leaves_its_copy(rt: HostRuntime) -> Result<(), Fail> {
    let mut cells = Cells::new(rt.alloc());
    let (first, second) = copies_before(&mut cells, cell(rt.alloc(), b"1")?)?;
    assert_eq!(rt; (first.len(), second.len(), cells.len()), (0, 0, 1));
    Ok(())
}

#[test]
fn a_copy_goes_to_a_thread(rt: HostRuntime) -> Result<(), Fail> {
    let alloc = rt.alloc();
    let mut cells = Cells::new(alloc);
    cells.push(cell(alloc, b"7")?)?;
    let theirs = cells.copy()?;
    let (there, here) = std::thread::join(&rt, move || theirs.len(), || cells.len());
    assert_eq!(rt; (there, here), (1, 1));
    Ok(())
}

fn hands_out(rt: &impl Abort, alloc: Global, text: &[u8]) -> Result<(), AllocError> {
    let bytes = Bytes::from_slice(alloc, text)?.into_vec()?;
    assert!(rt; bytes.as_slice() == text, "{} bytes", text.len());
    Ok(())
}

#[test]
fn bytes_are_handed_out(rt: HostRuntime) -> Result<(), Fail> {
    for text in [
        b"".as_slice(),
        b"within".as_slice(),
        b"sixteen bytes 16".as_slice(),
        b"longer than sixteen".as_slice(),
    ] {
        hands_out(&rt, rt.alloc(), text)?;
    }
    Ok(())
}

// The rows of a file.
fn rows_of(alloc: Global, file: &[u8]) -> Result<Vec<Cells>, AllocError> {
    let mut shelf = MapShelf::new(alloc);
    shelf.add("file", file)?;
    match read_table(alloc, &mut shelf, "file") {
        Ok(table) => Ok(table.rows.into_vec()),
        Err(_) => Err(AllocError),
    }
}

// The rows with one cell more each.
fn with_nines(alloc: Global, rows: Vec<Cells>) -> Result<Vec<Cells>, AllocError> {
    let mut all = Vec::new(alloc);
    for mut row in rows {
        row.push(cell(alloc, b"9")?)?;
        all.push(row)?;
    }
    Ok(all)
}

#[test]
fn a_push_to_a_row_of_a_file_leaves_the_others(rt: HostRuntime) -> Result<(), Fail> {
    let alloc = rt.alloc();
    let rows = with_nines(alloc, rows_of(alloc, b"a,b\n1,2\n3,4\n5,6\n")?)?;
    assert_eq!(rt; rows.len(), 3);
    for (row, numbers) in rows.iter().zip([[1, 2, 9], [3, 4, 9], [5, 6, 9]].iter()) {
        have_numbers(&rt, row, numbers);
    }
    Ok(())
}

#[test]
fn a_row_of_a_file_has_its_own_cells(rt: HostRuntime) -> Result<(), Fail> {
    let alloc = rt.alloc();
    let rows = rows_of(alloc, b"a,b\n1,2\n3,4\n")?;
    assert_eq!(rt; rows.len(), 2);
    for (row, numbers) in rows.iter().zip([[1, 2], [3, 4]].iter()) {
        have_numbers(&rt, row, numbers);
    }
    Ok(())
}
