// The two files of the first wave, read in turn, and their tables.

ghost use Rattle.std.specs.Prelude.{◌≡◌, ◌⊎◌, ◌<◌, None, Some, Err, IfOk};
ghost use Rattle.join_rows.specs.Shelves.{last_fault};
ghost use Rattle.join_rows.specs.Records.{IsTable};
ghost use Rattle.join_words.specs.Words.{asked};
ghost use Rattle.join_plan.specs.BothFiles.{AreBothRead};
ghost use Rattle.join_plan.specs.Files.{both_found as both_found', tables_in};

use crate::fault::Refusal;
use crate::files::Tables;
use crate::reading::{File, bytes_of, table, table_bytes};
use crate::refusal_of_fault::file_refused;
use join_rows::{Made, Shelf, both_tables};
use join_words::Options;
use row_cells::Side;
use std::alloc::Global;
use std::thread::Threads;

/// Two tables, R's and S's, or the first refusal.
fn both_found(made_r: Made, made_s: Made) -> Result<Tables, Refusal>
    ensures { result ≡ both_found' made_r made_s }
{
    let of_r = match made_r {
        Ok(table) => table,
        Err(fault) => return Err(file_refused(Side::R, 1, fault)),
    };
    match made_s {
        Ok(of_s) => Ok(Tables { of_r, of_s }),
        Err(fault) => Err(file_refused(Side::S, 1, fault)),
    }
}

/// The tables that the bytes of two files are, made side by side, or the first refusal.
fn tables_from<R: Threads>(
    rt: &R,
    alloc: Global,
    of_r: &[u8],
    of_s: &[u8],
) -> Result<Tables, Refusal>
    ensures answer { (result ≡ Err Refusal.Memory)
        ⊎ (result ≡ tables_in (Some of_r.now) (Some of_s.now)) }
    ensures whole_r { IfOk result (λ tables. IsTable tables.of_r) }
    ensures whole_s { IfOk result (λ tables. IsTable tables.of_s) }
{
    let (made_r, made_s) = both_tables(rt, alloc, of_r, of_s);
    both_found(made_r, made_s)
}

/// The tables of both sides, R before S, or the first refusal: both files are read, and then the two tables made side by
/// side. Where R's file is no table, S's isn't read: R's bytes are judged before.
fn side_by_side<R: Threads, H: Shelf>(
    rt: &R,
    alloc: Global,
    shelf: &mut H,
    options: &Options<'_>,
) -> Result<Tables, Refusal>
    requires faults { H.faults shelf.old < last_fault }
    requires files { options.now.make ≡ None }
    ensures { AreBothRead H.Shelf (asked options.now) shelf.old shelf.new result }
{
    let file_r = File {
        side: Side::R,
        wave: 1,
        name: options.name_r,
    };
    let file_s = File {
        side: Side::S,
        wave: 1,
        name: options.name_s,
    };
    let of_r = match table_bytes(alloc, shelf, &file_r) {
        Ok(bytes) => bytes,
        Err(refusal) => return Err(refusal),
    };
    let of_s = match bytes_of(alloc, shelf, &file_s) {
        Ok(bytes) => bytes,
        Err(refusal) => return Err(refusal),
    };
    tables_from(rt, alloc, of_r.as_slice(), of_s.as_slice())
}

/// The same, each file read and its table made before the next one.
fn one_by_one<H: Shelf>(
    alloc: Global,
    shelf: &mut H,
    options: &Options<'_>,
) -> Result<Tables, Refusal>
    requires faults { H.faults shelf.old < last_fault }
    requires files { options.now.make ≡ None }
    ensures { AreBothRead H.Shelf (asked options.now) shelf.old shelf.new result }
{
    let file_r = File {
        side: Side::R,
        wave: 1,
        name: options.name_r,
    };
    let file_s = File {
        side: Side::S,
        wave: 1,
        name: options.name_s,
    };
    match table(alloc, shelf, &file_r) {
        Ok(of_r) => match table(alloc, shelf, &file_s) {
            Ok(of_s) => Ok(Tables { of_r, of_s }),
            Err(refusal) => Err(refusal),
        },
        Err(refusal) => Err(refusal),
    }
}

/// The tables of both sides, R before S, or the first refusal. Where R's file is no table, S's isn't read. With more
/// than one worker the two tables are made side by side, unless a replay is asked for.
pub(crate) fn read_tables<R: Threads, H: Shelf>(
    rt: &R,
    alloc: Global,
    shelf: &mut H,
    options: &Options<'_>,
) -> Result<Tables, Refusal>
    requires faults { H.faults shelf.old < last_fault }
    requires files { options.now.make ≡ None }
    ensures { AreBothRead H.Shelf (asked options.now) shelf.old shelf.new result }
{
    if options.workers > 1 && options.kind.replay().is_none() {
        side_by_side(rt, alloc, shelf, options)
    } else {
        one_by_one(alloc, shelf, options)
    }
}
