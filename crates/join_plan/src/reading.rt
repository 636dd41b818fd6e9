// A file, read, and its table.

ghost use Rattle.std.specs.Prelude.{◌≡◌, ◌⊎◌, ◌<◌, ◌≤◌, ℕ, List, Option, None, Some, Ok, Err};
ghost use Rattle.std.specs.Prelude.{IfErr, IfOk, IfSome, is_some};
ghost use Rattle.join_rows.specs.Shelves.{last_fault};
ghost use Rattle.join_rows.specs.Records.{IsTable, table_of};
ghost use Rattle.row_cells.specs.declared.table.Table.{Table};
ghost use Rattle.join_words.specs.Words.{Asked, asked, chain_of};
ghost use Rattle.join_plan.specs.Causes.{IsSourceOf, Refuses};
ghost use Rattle.join_plan.specs.Files.{bytes_found, source_of, table_found, third_by};
ghost use Rattle.join_plan.specs.Seen.{IsSeen, ThirdSeen};

use crate::fault::Refusal;
use crate::refusal_of_fault::file_refused;
use join_rows::{Shelf, judge, read_bytes, read_table};
use join_words::Options;
use row_cells::{Bytes, Side, Table};
use std::alloc::Global;

/// A file: that of a side in a wave.
#[derive(Clone, Copy, Debug)]
pub(crate) struct File<'a> {
    pub(crate) side: Side,
    pub(crate) wave: u32,
    pub(crate) name: &'a str,
}

/// The table in a file.
pub(crate) fn table<H: Shelf>(
    alloc: Global,
    shelf: &mut H,
    file: &File<'_>,
) -> Result<Table, Refusal>
    requires { H.faults shelf.old < last_fault }
    ensures told { H.told shelf.new ≡ H.told shelf.old }
    ensures rises { H.faults shelf.old ≤ H.faults shelf.new }
    ensures answer { (files : List ℕ → Option (List ℕ)) → H.told shelf.old ≡ Some files
        → H.faults shelf.new ≡ H.faults shelf.old
        → (result ≡ Err Refusal.Memory)
        ⊎ (result ≡ table_found file.now.side file.now.wave (files file.now.name.now)) }
    ensures found { IfOk result
        (λ table. (files : List ℕ → Option (List ℕ)) → H.told shelf.old ≡ Some files
        → table_found file.now.side file.now.wave (files file.now.name.now) ≡ Ok table) }
    ensures seen { (result ≡ Err Refusal.Read → ⊥) → (result ≡ Err Refusal.Memory → ⊥)
        → IsSeen (H.told shelf.old) (H.picked shelf.new) (source_of file.now) result }
    ensures sound { H.sound shelf.old
        → H.sound shelf.new × (H.faults shelf.new ≡ H.faults shelf.old) }
    ensures counts { (result ≡ Err Refusal.Read → ⊥) → H.faults shelf.new ≡ H.faults shelf.old }
    ensures refused { (asked : Asked) → IsSourceOf asked (source_of file.now)
        → IfErr result (Refuses (H.faults shelf.old) (H.faults shelf.new)
        (H.told shelf.old) (H.picked shelf.new) asked) }
    ensures whole { IfOk result IsTable }
{
    match read_table(alloc, shelf, file.name) {
        Ok(table) => Ok(table),
        Err(fault) => Err(file_refused(file.side, file.wave, fault)),
    }
}

/// The bytes of a file, of which no table is made yet.
pub(crate) fn bytes_of<H: Shelf>(
    alloc: Global,
    shelf: &mut H,
    file: &File<'_>,
) -> Result<Bytes, Refusal>
    requires { H.faults shelf.old < last_fault }
    ensures told { H.told shelf.new ≡ H.told shelf.old }
    ensures rises { H.faults shelf.old ≤ H.faults shelf.new }
    ensures answer { (files : List ℕ → Option (List ℕ)) → H.told shelf.old ≡ Some files
        → H.faults shelf.new ≡ H.faults shelf.old
        → (bytes_found file.now.side file.now.wave result ≡ Err Refusal.Memory)
        ⊎ (bytes_found file.now.side file.now.wave result
        ≡ table_found file.now.side file.now.wave (files file.now.name.now)) }
    ensures found { IfOk (bytes_found file.now.side file.now.wave result)
        (λ table. (files : List ℕ → Option (List ℕ)) → H.told shelf.old ≡ Some files
        → table_found file.now.side file.now.wave (files file.now.name.now) ≡ Ok table) }
    ensures seen { (bytes_found file.now.side file.now.wave result ≡ Err Refusal.Read → ⊥)
        → (bytes_found file.now.side file.now.wave result ≡ Err Refusal.Memory → ⊥)
        → IsSeen (H.told shelf.old) (H.picked shelf.new) (source_of file.now)
        (bytes_found file.now.side file.now.wave result) }
    ensures sound { H.sound shelf.old
        → H.sound shelf.new × (H.faults shelf.new ≡ H.faults shelf.old) }
    ensures counts { (result ≡ Err Refusal.Read → ⊥) → H.faults shelf.new ≡ H.faults shelf.old }
    ensures refused { (asked : Asked) → IsSourceOf asked (source_of file.now)
        → IfErr (bytes_found file.now.side file.now.wave result)
        (Refuses (H.faults shelf.old) (H.faults shelf.new)
        (H.told shelf.old) (H.picked shelf.new) asked) }
{
    match read_bytes(alloc, shelf, file.name) {
        Ok(bytes) => Ok(bytes),
        Err(fault) => Err(file_refused(file.side, file.wave, fault)),
    }
}

/// The bytes of a file, where they are a table, of which none is made yet.
pub(crate) fn table_bytes<H: Shelf>(
    alloc: Global,
    shelf: &mut H,
    file: &File<'_>,
) -> Result<Bytes, Refusal>
    requires { H.faults shelf.old < last_fault }
    ensures told { H.told shelf.new ≡ H.told shelf.old }
    ensures rises { H.faults shelf.old ≤ H.faults shelf.new }
    ensures answer { (files : List ℕ → Option (List ℕ)) → H.told shelf.old ≡ Some files
        → H.faults shelf.new ≡ H.faults shelf.old
        → (bytes_found file.now.side file.now.wave result ≡ Err Refusal.Memory)
        ⊎ (bytes_found file.now.side file.now.wave result
        ≡ table_found file.now.side file.now.wave (files file.now.name.now)) }
    ensures found { IfOk (bytes_found file.now.side file.now.wave result)
        (λ table. (files : List ℕ → Option (List ℕ)) → H.told shelf.old ≡ Some files
        → table_found file.now.side file.now.wave (files file.now.name.now) ≡ Ok table) }
    ensures seen { (bytes_found file.now.side file.now.wave result ≡ Err Refusal.Read → ⊥)
        → (bytes_found file.now.side file.now.wave result ≡ Err Refusal.Memory → ⊥)
        → IsSeen (H.told shelf.old) (H.picked shelf.new) (source_of file.now)
        (bytes_found file.now.side file.now.wave result) }
    ensures sound { H.sound shelf.old
        → H.sound shelf.new × (H.faults shelf.new ≡ H.faults shelf.old) }
    ensures counts { (result ≡ Err Refusal.Read → ⊥) → H.faults shelf.new ≡ H.faults shelf.old }
    ensures refused { (asked : Asked) → IsSourceOf asked (source_of file.now)
        → IfErr (bytes_found file.now.side file.now.wave result)
        (Refuses (H.faults shelf.old) (H.faults shelf.new)
        (H.told shelf.old) (H.picked shelf.new) asked) }
    ensures good { IfOk result (λ bytes. (table : Table) × (table_of bytes ≡ Ok table)) }
{
    let bytes = match bytes_of(alloc, shelf, file) {
        Ok(bytes) => bytes,
        Err(refusal) => return Err(refusal),
    };
    match judge(alloc, bytes.as_slice()) {
        Ok(()) => Ok(bytes),
        Err(fault) => Err(file_refused(file.side, file.wave, fault)),
    }
}

/// The third table of a second join, where one is asked for, or its refusal.
pub(crate) fn third_table<H: Shelf>(
    alloc: Global,
    options: &Options<'_>,
    shelf: &mut H,
) -> Result<Option<Table>, Refusal>
    requires faults { H.faults shelf.old < last_fault }
    ensures told { H.told shelf.new ≡ H.told shelf.old }
    ensures rises { H.faults shelf.old ≤ H.faults shelf.new }
    ensures answer { (files : List ℕ → Option (List ℕ)) → H.told shelf.old ≡ Some files
        → H.faults shelf.new ≡ H.faults shelf.old → (result ≡ Err Refusal.Memory)
        ⊎ (result ≡ third_by (chain_of (asked options.now).kind) files) }
    ensures found { IfOk result
        (λ third. (files : List ℕ → Option (List ℕ)) → H.told shelf.old ≡ Some files
        → third_by (chain_of (asked options.now).kind) files ≡ Ok third) }
    ensures alone { chain_of (asked options.now).kind ≡ None → shelf.new ≡ shelf.old }
    ensures seen { (result ≡ Err Refusal.Read → ⊥) → (result ≡ Err Refusal.Memory → ⊥)
        → ThirdSeen (H.told shelf.old) (H.picked shelf.old) (H.picked shelf.new)
        (chain_of (asked options.now).kind) result }
    ensures sound { H.sound shelf.old
        → H.sound shelf.new × (H.faults shelf.new ≡ H.faults shelf.old) }
    ensures counts { (result ≡ Err Refusal.Read → ⊥) → H.faults shelf.new ≡ H.faults shelf.old }
    ensures refused { IfErr result (Refuses (H.faults shelf.old) (H.faults shelf.new)
        (H.told shelf.old) (H.picked shelf.new) (asked options.now)) }
    ensures whole { IfOk result (λ third. IfSome third IsTable) }
    ensures chained { IfOk result (λ third.
        is_some third ≡ is_some (chain_of (asked options.now).kind)) }
{
    let Some(chain) = options.kind.chain() else {
        return Ok(None);
    };
    let file = File {
        side: Side::S,
        wave: 2,
        name: chain.name,
    };
    match table(alloc, shelf, &file) {
        Ok(table) => Ok(Some(table)),
        Err(refusal) => Err(refusal),
    }
}
