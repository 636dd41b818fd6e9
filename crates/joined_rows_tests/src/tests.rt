use epoch_tags::Pair;
use joined_rows::{joined_names, joined_rows};
use row_cells::{Bytes, Cell, Cells, Names, Rows};
use std::alloc::{AllocError, Global};
use std::test::Fail;

fn names(alloc: Global, words: &[&str]) -> Result<Names, AllocError> {
    let mut names = Names::new(alloc);
    for word in words {
        names.push(Bytes::from_slice(alloc, word.as_bytes())?)?;
    }
    Ok(names)
}

// Rows of one cell each.
fn rows(alloc: Global, numbers: &[u64]) -> Result<Rows, AllocError> {
    let mut rows = Rows::new(alloc);
    for number in numbers {
        let mut row = Cells::new(alloc);
        row.push(Cell::decimal(alloc, *number)?)?;
        rows.push(row)?;
    }
    Ok(rows)
}

// The numbers of a row, as digits.
fn digits(row: &Cells) -> i64 {
    let mut digits = 0i64;
    for place in 0..row.len() {
        digits = digits
            .wrapping_mul(10)
            .wrapping_add(row.number_at(place).unwrap_or(0));
    }
    digits
}

#[test]
fn names_are_joined_behind_their_sides(rt: HostRuntime) -> Result<(), Fail> {
    let alloc = rt.alloc();
    let names = joined_names(alloc, &names(alloc, &["id", "x"])?, &names(alloc, &["id"])?)?;
    let wanted: [&[u8]; 3] = [b"r_id", b"r_x", b"s_id"];
    assert_eq!(rt; names.len(), 3);
    for (name, wanted) in names.as_slice().iter().zip(wanted) {
        assert_eq!(rt; name.as_slice(), wanted);
    }
    Ok(())
}

#[test]
fn a_row_for_each_pair(rt: HostRuntime) -> Result<(), Fail> {
    let alloc = rt.alloc();
    let pairs = [
        Pair { i: 1, j: 0 },
        Pair { i: 0, j: 2 },
        Pair { i: 7, j: 1 },
    ];
    let joined = joined_rows(
        alloc,
        &rows(alloc, &[1, 2])?,
        &rows(alloc, &[3, 4, 5])?,
        &pairs,
    )?;
    assert_eq!(rt; joined.len(), 3);
    for (row, wanted) in joined.as_slice().iter().zip([23i64, 15, 4]) {
        assert_eq!(rt; digits(row), wanted);
    }
    Ok(())
}
