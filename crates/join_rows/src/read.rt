// Reading a table from a shelf.

ghost use Rattle.std.specs.Prelude.{◌≡◌, ◌⊎◌, ◌≤◌, ◌<◌, ◌+◌, ◌-◌, ◌^◌, ◌↔◌, List, ℕ, length, take, IfOk, IfErr, OnOk, Err, Some};
ghost use Rattle.join_rows.specs.Records.{IsTable, table_of};
ghost use Rattle.join_rows.specs.Reads.{IsOfBytes, WholeErr, WholeOk, answer_of};
ghost use Rattle.join_rows.specs.Shelves.{Lacks, Tells, last_fault};
ghost use Rattle.join_rows.specs.declared.fault.TableFault.TheVariants as fault;

use crate::fault::TableFault;
use crate::records::{MOST_BYTES, table_from};
use crate::shelf::Shelf;
use row_cells::{Bytes, Table};
use std::alloc::Global;

// How many bytes one read takes at most.
const PIECE: usize = 4096;

// The bytes of a file.
fn read_whole<H: Shelf>(alloc: Global, shelf: &mut H, name: &str) -> Result<Vec<u8>, TableFault>
    requires { H.faults shelf.old < last_fault }
    ensures told { H.told shelf.new ≡ H.told shelf.old }
    ensures rises { H.faults shelf.old ≤ H.faults shelf.new }
    ensures sound { H.sound shelf.old
        → H.sound shelf.new × (H.faults shelf.new ≡ H.faults shelf.old) }
    ensures ok { IfOk result (λ bytes.
        WholeOk (H.told shelf.old) name.now (H.faults shelf.old) (H.faults shelf.new)
        (H.picked shelf.new) bytes.items) }
    ensures err { IfErr result (
        WholeErr (H.told shelf.old) name.now (H.faults shelf.old) (H.faults shelf.new)
        (H.picked shelf.new)) }
{
    if shelf.pick(name).is_err() {
        return Err(TableFault::Read);
    }
    let mut bytes = Vec::new(alloc);
    let mut piece = [0u8; PIECE];
    'pieces: while bytes.len() <= MOST_BYTES {
        let room = (MOST_BYTES + 1 - bytes.len()).min(PIECE);
        let Ok(count) = shelf.read(&mut piece[..room]) else {
            return Err(TableFault::Read);
        };
        if count == 0 {
            return Ok(bytes);
        }
        bytes.extend_from_slice(&piece[..count])?;
    }
    Err(TableFault::TooLong)
}

/// The bytes of a file of the shelf, of which no table is made yet. What they answer is the table that they are, or what
/// is wrong with them.
///
/// The file is read to its end, to the first fault, or to the first byte past 2^24, at most 4,096 bytes at a time.
pub fn read_bytes<H: Shelf>(alloc: Global, shelf: &mut H, name: &str) -> Result<Bytes, TableFault>
    requires { H.faults shelf.old < last_fault }
    ensures read { (answer_of result ≡ Err fault.Read)
        ↔ ((H.faults shelf.old < H.faults shelf.new) ⊎ Lacks (H.told shelf.old) name.now) }
    ensures answer { (file : List ℕ) → Tells (H.told shelf.old) name.now file
        → H.faults shelf.new ≡ H.faults shelf.old
        → (answer_of result ≡ Err fault.Memory) ⊎ (answer_of result ≡ table_of file) }
    ensures bytes { (answer_of result ≡ Err fault.Read → ⊥)
        → (answer_of result ≡ Err fault.Memory → ⊥)
        → IsOfBytes (H.told shelf.old) name.now (H.picked shelf.new) (answer_of result) }
    ensures table { IfOk (answer_of result) IsTable }
    ensures place { (answer_of result ≡ Err fault.Read → ⊥)
        → (place : ℕ) × (H.picked shelf.new ≡ Some (name.now, place))
        × (place ≤ 2 ^ 24 + 1) × (answer_of result ≡ Err fault.TooLong → 2 ^ 24 < place)
        × (2 ^ 24 < place → (answer_of result ≡ Err fault.TooLong)
        ⊎ (answer_of result ≡ Err fault.Memory)) }
    ensures told { H.told shelf.new ≡ H.told shelf.old }
    ensures rises { H.faults shelf.old ≤ H.faults shelf.new }
    ensures counts { OnOk result (H.faults shelf.new ≡ H.faults shelf.old) }
    ensures sound { H.sound shelf.old
        → H.sound shelf.new × (H.faults shelf.new ≡ H.faults shelf.old) }
{
    match read_whole(alloc, shelf, name) {
        Ok(bytes) => Ok(Bytes::from_vec(bytes)),
        Err(fault) => Err(fault),
    }
}

/// The table in a file of the shelf: its first record is the header, the others are its rows. Each byte order mark at
/// the file's beginning is skipped, and the records are those of RFC 4180 as the `csv` crate's default reader takes
/// them: a line ends at LF, CR or CR LF, and a blank line is no record.
///
/// The file is read to its end, to the first fault, or to the first byte past 2^24, at most 4,096 bytes at a time.
pub fn read_table<H: Shelf>(alloc: Global, shelf: &mut H, name: &str) -> Result<Table, TableFault>
    requires { H.faults shelf.old < last_fault }
    ensures read { (result ≡ Err fault.Read)
        ↔ ((H.faults shelf.old < H.faults shelf.new) ⊎ Lacks (H.told shelf.old) name.now) }
    ensures answer { (file : List ℕ) → Tells (H.told shelf.old) name.now file
        → H.faults shelf.new ≡ H.faults shelf.old
        → (result ≡ Err fault.Memory) ⊎ (result ≡ table_of file) }
    ensures bytes { (result ≡ Err fault.Read → ⊥) → (result ≡ Err fault.Memory → ⊥)
        → IsOfBytes (H.told shelf.old) name.now (H.picked shelf.new) result }
    ensures table { IfOk result IsTable }
    ensures place { (result ≡ Err fault.Read → ⊥)
        → (place : ℕ) × (H.picked shelf.new ≡ Some (name.now, place))
        × (place ≤ 2 ^ 24 + 1) × (result ≡ Err fault.TooLong → 2 ^ 24 < place)
        × (2 ^ 24 < place → (result ≡ Err fault.TooLong) ⊎ (result ≡ Err fault.Memory)) }
    ensures told { H.told shelf.new ≡ H.told shelf.old }
    ensures rises { H.faults shelf.old ≤ H.faults shelf.new }
    ensures sound { H.sound shelf.old
        → H.sound shelf.new × (H.faults shelf.new ≡ H.faults shelf.old) }
{
    let bytes = read_whole(alloc, shelf, name)?;
    table_from(alloc, bytes.as_slice())
}
