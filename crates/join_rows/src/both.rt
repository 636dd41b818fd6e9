// Two tables, made side by side.

ghost use Rattle.std.specs.Prelude.{◌≡◌, ◌⊎◌, IfOk, Err};
ghost use Rattle.join_rows.specs.Records.{IsTable, table_of};
ghost use Rattle.join_rows.specs.declared.fault.TableFault.TheVariants as fault;

use crate::fault::TableFault;
use crate::records::table_in;
use row_cells::Table;
use std::alloc::Global;
use std::thread;
use std::thread::Threads;

/// What is made of a file's bytes: their table, or why there is none.
pub type Made = Result<Table, TableFault>;

/// The tables that the bytes of two files are, each as `table_in` makes it: side by side, the first in a thread of its
/// own, or after the second where no thread can be started.
pub fn both_tables<R: Threads>(rt: &R, alloc: Global, of_r: &[u8], of_s: &[u8]) -> (Made, Made)
    ensures answer_r { (result.0 ≡ Err fault.Memory) ⊎ (result.0 ≡ table_of of_r.now) }
    ensures answer_s { (result.1 ≡ Err fault.Memory) ⊎ (result.1 ≡ table_of of_s.now) }
    ensures table_r { IfOk result.0 IsTable }
    ensures table_s { IfOk result.1 IsTable }
{
    thread::join(rt, || table_in(alloc, of_r), || table_in(alloc, of_s))
}
