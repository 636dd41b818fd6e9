// Looking for a file by its name.

ghost use Rattle.std.specs.Prelude.{◌≡◌, ◌≤◌, ◌<◌, ◌+◌, ◌-◌, ◌^◌, min, Some, None, length, take, drop, MatchOption};
ghost use Rattle.std.specs.List.{slice_get};
ghost use Rattle.join_rows.specs.InMemory.{file_under};
ghost use Rattle.join_rows.specs.declared.named_file.NamedFile.{NamedFile};

use crate::named_file::NamedFile;

// The place of the first file of a name.
pub(crate) fn find(files: &[NamedFile], name: &[u8]) -> Option<usize>
    ensures { MatchOption result (file_under files.now name.now ≡ None)
        (λ i. (f : NamedFile) × (slice_get files.now i ≡ Some f) × (f.name ≡ name.now)
        × (file_under files.now name.now ≡ Some f.bytes)
        × (file_under (take i files.now) name.now ≡ None) × (i < length files.now)) }
{
    for (i, file) in files.iter().enumerate() {
        if file.name.as_slice() == name {
            return Some(i);
        }
    }
    None
}

// Copies the bytes from a place on, as many as there is room for.
pub(crate) fn copy_from(bytes: &[u8], at: u64, into: &mut [u8]) -> usize
    ensures count { result ≡ min (length bytes.now - at) (length into.old) }
    ensures fits { at + result < 2 ^ 64 }
    ensures copied { take result into.new ≡ take result (drop at bytes.now) }
{
    let from = (at as usize).min(bytes.len());
    let rest = &bytes[from..];
    let count = rest.len().min(into.len());
    into[..count].copy_from_slice(&rest[..count]);
    count
}
