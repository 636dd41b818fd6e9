// Writing a text in pieces.

ghost use Rattle.std.specs.Prelude.{◌≡◌, ◌<◌, ◌+◌, ℕ, OnOk, OnErr, IsOk, length};
ghost use Rattle.std.specs.Io.KnownBytes.{append_known};
ghost use Rattle.join_rows.specs.Shelves.{last_fault};
ghost use Rattle.join_rows.specs.Sinks.{AppendsFront, PutsFront};

use join_rows::{Failed, Sink};

/// How many bytes a put has, but for the last one.
const PIECE: usize = 4096;

/// Puts the bytes in pieces of 4,096; no bytes make no put. Ends at the first put that fails.
pub fn put_all<K: Sink>(sink: &mut K, bytes: &[u8]) -> Result<(), Failed>
    requires { K.faults sink.old < last_fault }
    ensures written { OnOk result
        (K.written sink.new ≡ append_known (K.written sink.old) bytes.now) }
    ensures counts { OnOk result (K.faults sink.new ≡ K.faults sink.old) }
    ensures front { OnErr result
        (AppendsFront (K.written sink.old) (K.written sink.new) bytes.now) }
    ensures fails { OnErr result (K.faults sink.old < K.faults sink.new) }
    ensures takes { (more : ℕ) → K.takes sink.old (length bytes.now + more)
        → IsOk result × K.takes sink.new more }
    ensures left { OnErr result (PutsFront (K.written sink.old) (K.written sink.new)
        (K.takes sink.old) (K.takes sink.new) bytes.now) }
{
    let mut place = 0;
    while place < bytes.len() {
        let end = bytes.len().min(place.saturating_add(PIECE));
        sink.put(&bytes[place..end])?;
        place = end;
    }
    Ok(())
}
