use epoch_tags::Pair;
use join_report::{rows_text, summary_text};
use row_cells::{Bytes, Cell, Cells, Rows};
use std::alloc::{AllocError, Global};
use std::process::Abort;
use std::test::Fail;

// A row of a text: bars stand between its cells.
fn push_cells(alloc: Global, cells: &mut Cells, line: &str) -> Result<(), AllocError> {
    for field in line.split('|') {
        cells.push(Cell::new(Bytes::from_slice(alloc, field.as_bytes())?))?;
    }
    Ok(())
}

fn row(alloc: Global, line: &str) -> Result<Cells, AllocError> {
    let mut cells = Cells::new(alloc);
    match push_cells(alloc, &mut cells, line) {
        Ok(()) => Ok(cells),
        Err(refused) => {
            drop(cells);
            Err(refused)
        }
    }
}

// Rows of a text: each line is one.
fn push_rows(alloc: Global, rows: &mut Rows, text: &str) -> Result<(), AllocError> {
    for line in text.split('\n') {
        rows.push(row(alloc, line)?)?;
    }
    Ok(())
}

fn rows(alloc: Global, text: &str) -> Result<Rows, AllocError> {
    let mut rows = Rows::new(alloc);
    match push_rows(alloc, &mut rows, text) {
        Ok(()) => Ok(rows),
        Err(refused) => {
            drop(rows);
            Err(refused)
        }
    }
}

fn joined_with(
    alloc: Global,
    rows_r: &Rows,
    text_s: &str,
    pairs: &[Pair],
) -> Result<Bytes, AllocError> {
    let rows_s = rows(alloc, text_s)?;
    let text = rows_text(alloc, rows_r, &rows_s, pairs);
    drop(rows_s);
    text
}

// The text of these pairs of the rows of two texts.
fn joined(alloc: Global, text_r: &str, text_s: &str, pairs: &[Pair]) -> Result<Bytes, AllocError> {
    let rows_r = rows(alloc, text_r)?;
    let text = joined_with(alloc, &rows_r, text_s, pairs);
    drop(rows_r);
    text
}

fn has_bytes(rt: &impl Abort, text: &[u8], wanted: &[u8]) {
    assert!(rt; text == wanted);
}

#[test]
fn rows_of_pairs(rt: HostRuntime) -> Result<(), Fail> {
    let text_r = "T1|105|900\nT,2|99|903";
    let text_s = "Q1|100|898\nQ2|101|902\nQ3|97|903";
    let pairs = [
        Pair { i: 0, j: 0 },
        Pair { i: 0, j: 1 },
        Pair { i: 1, j: 2 },
    ];
    let text = joined(rt.alloc(), text_r, text_s, &pairs)?;
    let wanted = "T1,105,900,Q1,100,898\nT1,105,900,Q2,101,902\n\"T,2\",99,903,Q3,97,903\n";
    has_bytes(&rt, text.as_slice(), wanted.as_bytes());
    drop(text);
    let none = joined(rt.alloc(), text_r, text_s, &[])?;
    assert!(rt; none.len() == 0);
    drop(none);
    Ok(())
}

#[test]
fn fields_that_need_quotes(rt: HostRuntime) -> Result<(), Fail> {
    let text_r = "say \"x\"|\n | y ";
    let text_s = "v\rw\n\u{e9}";
    let pairs = [Pair { i: 0, j: 0 }, Pair { i: 1, j: 1 }];
    let text = joined(rt.alloc(), text_r, text_s, &pairs)?;
    let wanted = "\"say \"\"x\"\"\",,\"v\rw\"\n , y ,\u{e9}\n";
    has_bytes(&rt, text.as_slice(), wanted.as_bytes());
    drop(text);
    Ok(())
}

#[test]
fn one_pair_of_three_rows_a_side(rt: HostRuntime) -> Result<(), Fail> {
    let text = summary_text(rt.alloc(), 3, 3, &[Pair { i: 0, j: 0 }])?;
    assert!(rt; text.as_str() == "rows 3 3\npairs 1\nsum 2\n");
    drop(text);
    Ok(())
}
