// Any writer as a sink.

ghost use Rattle.std.specs.Prelude.{◌≡◌, ◌≤◌, None, OnOk, OnErr, IfOk, IsTrue, ◌⊎◌, ◌<◌, false, true};
ghost use Rattle.std.specs.Io.KnownBytes.{Appends};
ghost use Rattle.join_rows.specs.Shelves.{raised};
ghost use Rattle.join_rows.specs.Sinks.{AppendsSome, failed_puts, held_by};

use crate::shelf::{Failed, one_more};
use crate::sink::Sink;
use std::io::Write;

/// A writer, such as standard output. As a sink it tells nothing of the bytes written; what the writer holds is known
/// where the writer tells it.
#[derive(Drop)]
pub struct StdSink<W: Write> {
    to: W,
    faults: u64,
}

impl<W: Write + Drop> StdSink<W> {
    /// A sink with no faults.
    pub fn new(to: W) -> StdSink<W>
        ensures faults { failed_puts result ≡ 0 }
        ensures writer { held_by W.contents result ≡ W.contents to }
    {
        StdSink { to, faults: 0 }
    }

    /// The writer.
    pub fn into_inner(self) -> W
        ensures { W.contents result ≡ held_by W.contents self }
    {
        self.to
    }
}

// Writes all the bytes, or a front of them. A call that takes nothing, or that was interrupted, is an error.
fn write_on<W: Write>(to: &mut W, piece: &[u8]) -> Result<(), Failed>
    ensures whole { OnOk result (Appends (W.contents to.old) (W.contents to.new) piece.now) }
    ensures front { OnErr result (AppendsSome (W.contents to.old) (W.contents to.new) piece.now) }
{
    let mut rest = piece;
    while !rest.is_empty() {
        match to.write(rest) {
            Ok(0) => return Err(Failed),
            Ok(count) => rest = &rest[count..],
            Err(_) => return Err(Failed),
        }
    }
    match to.flush() {
        Ok(()) => Ok(()),
        Err(_) => Err(Failed),
    }
}

impl<W: Write + Drop> Sink for StdSink<W> {
    ghost written = { λ _. None };

    ghost faults = { λ s. failed_puts s };

    ghost takes = { λ _ _. ⊥ };

    /// Writes the piece, in as many calls of the writer as it asks for, and flushes.
    fn put(&mut self, piece: &[u8]) -> Result<(), Failed>
        ensures whole { OnOk result
            (Appends (held_by W.contents self.old) (held_by W.contents self.new) piece.now) }
        ensures some { OnErr result
            (AppendsSome (held_by W.contents self.old) (held_by W.contents self.new) piece.now) }
        ensures still { OnOk result (failed_puts self.new ≡ failed_puts self.old) }
        ensures raised { OnErr result (failed_puts self.new ≡ raised (failed_puts self.old)) }
    {
        if write_on(&mut self.to, piece).is_err() {
            self.faults = one_more(self.faults);
            return Err(Failed);
        }
        Ok(())
    }
}
