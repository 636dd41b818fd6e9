use grid_map::Weights;
use join_rows::{MapShelf, read_table};
use row_cells::{Bytes, Names, Table};
use row_tickets::Feed;
use std::alloc::{AllocError, Global};
use std::test::Fail;
use theta_pred::{Theta, resolve};
use theta_text::parse;
use trace_law::{Input, Setting};

#[test]
fn settings_at_their_limits(rt: HostRuntime) -> Result<(), Fail> {
    let cases = [
        ((0, 1, 1, 1), None, true),
        ((8, 8, 16, 4096), Some(8), true),
        ((9, 8, 16, 4096), None, false),
        ((6, 0, 16, 4096), None, false),
        ((6, 9, 16, 4096), None, false),
        ((6, 8, 0, 4096), None, false),
        ((6, 8, 17, 4096), None, false),
        ((6, 8, 16, 0), None, false),
        ((6, 8, 16, 4097), None, false),
        ((2, 8, 16, 4096), Some(3), false),
    ];
    for ((k, feeders, workers, batch), fixed, wanted) in cases {
        let setting = Setting {
            k,
            feeders,
            workers,
            batch,
            feed: Feed::Alternate,
            fixed,
            weights: Weights { r: 1, s: 1024 },
        };
        assert!(rt; setting.valid() == wanted, "{setting:?}");
    }
    Ok(())
}

#[test]
fn weights_at_their_limits(rt: HostRuntime) -> Result<(), Fail> {
    let cases = [
        (1, 1024, true),
        (1024, 1, true),
        (0, 1, false),
        (1, 0, false),
        (1025, 1, false),
        (1, 1025, false),
    ];
    for (r, s, wanted) in cases {
        let setting = Setting {
            k: 0,
            feeders: 1,
            workers: 1,
            batch: 1,
            feed: Feed::Alternate,
            fixed: None,
            weights: Weights { r, s },
        };
        assert!(rt; setting.valid() == wanted, "{setting:?}");
    }
    Ok(())
}

// The table of a file with this text.
fn table(alloc: Global, text: &str) -> Result<Table, AllocError> {
    let mut shelf = MapShelf::new(alloc);
    shelf.add("t", text.as_bytes())?;
    match read_table(alloc, &mut shelf, "t") {
        Ok(table) => Ok(table),
        Err(_) => Err(AllocError),
    }
}

// Columns of these names, with a blank between two.
fn header(alloc: Global, words: &str) -> Result<Names, AllocError> {
    let mut names = Names::new(alloc);
    for word in words.split(' ') {
        names.push(Bytes::from_slice(alloc, word.as_bytes())?)?;
    }
    Ok(names)
}

// A predicate over one column of R and two of S.
fn theta(alloc: Global) -> Result<Theta, AllocError> {
    let names_r = header(alloc, "a")?;
    let names_s = header(alloc, "a b")?;
    let Ok(pred) = parse(alloc, "r.a = s.a") else {
        return Err(AllocError);
    };
    let resolved = resolve(alloc, &pred, &names_r, &names_s);
    drop(pred);
    drop(names_r);
    drop(names_s);
    match resolved {
        Ok(theta) => Ok(theta),
        Err(fault) => {
            drop(fault);
            Err(AllocError)
        }
    }
}

// The table of a file of S, and the predicate.
fn side_s(alloc: Global, file: &str) -> Result<(Table, Theta), AllocError> {
    let table = table(alloc, file)?;
    match theta(alloc) {
        Ok(theta) => Ok((table, theta)),
        Err(refused) => {
            drop(table);
            Err(refused)
        }
    }
}

// The input of two files, with these tickets for R and none for S.
fn input(alloc: Global, file_r: &str, file_s: &str, tickets: &[u8]) -> Result<Input, AllocError> {
    let tickets_r = Bytes::from_slice(alloc, tickets)?;
    let table_r = table(alloc, file_r)?;
    match side_s(alloc, file_s) {
        Ok((table_s, theta)) => Ok(Input {
            table_r,
            table_s,
            theta,
            tickets_r,
            tickets_s: Bytes::new(alloc),
        }),
        Err(refused) => {
            drop(table_r);
            Err(refused)
        }
    }
}

// Whether such an input is valid.
fn is_valid(alloc: Global, file_r: &str, file_s: &str, tickets: &[u8]) -> Result<bool, AllocError> {
    let input = input(alloc, file_r, file_s, tickets)?;
    let valid = input.valid();
    drop(input);
    Ok(valid)
}

#[test]
fn inputs_with_tickets_and_widths(rt: HostRuntime) -> Result<(), Fail> {
    let cases = [
        ("a\n1\n2\n", "a,b\n", [3, 255].as_slice(), true),
        ("a\n1\n2\n", "a,b\n", [3].as_slice(), false),
        ("a,b\n1,2\n2,3\n", "a,b\n", [3, 255].as_slice(), false),
        ("a\n1\n2\n", "a\n", [3, 255].as_slice(), false),
    ];
    for (file_r, file_s, tickets, wanted) in cases {
        let valid = is_valid(rt.alloc(), file_r, file_s, tickets)?;
        assert!(rt; valid == wanted, "{file_r} and {file_s}");
    }
    Ok(())
}
