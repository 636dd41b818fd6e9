// Where bytes are written.

ghost use Rattle.std.specs.Prelude.{◌≡◌, ◌≤◌, ◌+◌, ℕ, List, Option, OnOk, OnErr, IsOk, length};
ghost use Rattle.std.specs.Result.{is_ok};
ghost use Rattle.std.specs.Io.KnownBytes.{append_known};
ghost use Rattle.join_rows.specs.Shelves.{Faulted};
ghost use Rattle.join_rows.specs.Sinks.{AppendsFront, PutsFront};

use crate::shelf::Failed;

/// Bytes that only grow.
///
/// A sink may tell what was written, a real one doesn't. It counts the calls that failed; the count never falls, and
/// stays at 2^64 - 1.
pub trait Sink {
    /// The bytes written, where the sink tells them.
    ghost written: { Self → Option (List ℕ) };

    /// How many calls failed.
    ghost faults: { Self → ℕ };

    /// No put fails from here on while the pieces together have so many bytes at most. A put that fails takes no more
    /// of them than it appends.
    ghost takes: { Self → ℕ → Type 0 };

    /// Appends the piece, or a front of it where the call fails.
    fn put(&mut self, piece: &[u8]) -> Result<(), Failed>
        ensures rises { faults self.old ≤ faults self.new }
        ensures puts { OnOk result (written self.new ≡ append_known (written self.old) piece.now) }
        ensures counts { OnOk result (faults self.new ≡ faults self.old) }
        ensures front { OnErr result
            (AppendsFront (written self.old) (written self.new) piece.now) }
        ensures fails { OnErr result (Faulted (faults self.old) (faults self.new)) }
        ensures takes { (more : ℕ) → takes self.old (length piece.now + more)
            → IsOk result × takes self.new more }
        ensures left { OnErr result (PutsFront (written self.old) (written self.new)
            (takes self.old) (takes self.new) piece.now) };
}
