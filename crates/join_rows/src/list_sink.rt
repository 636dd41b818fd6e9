// Bytes that are written to memory.

ghost use Rattle.std.specs.Prelude.{◌≡◌, true, false, ◌≤◌, ◌+◌, ◌++◌, ◌∷◌, ◌<◌, ◌⊎◌, ◌-◌, ℕ, OnOk, OnErr, IfOk, IsOk, IsErr, Some, None, [], length, nat_le};
ghost use Rattle.std.specs.Vec.{vec_capacity};
ghost use Rattle.join_rows.specs.InMemory.{ListState, is_named};
ghost use Rattle.join_rows.specs.Shelves.{Faulted, raised};

use crate::shelf::{Failed, one_more};
use crate::sink::Sink;
use std::alloc::{AllocError, Global};
use std::marker::Model;

/// Bytes in memory, with room for so many, where each put can be told to fail.
#[derive(Drop)]
pub struct ListSink {
    bytes: Vec<u8>,
    room: u64,
    puts: u64,
    failing: Vec<u64>,
    faults: u64,
}

impl Model for ListSink {
    ghost Value = { ListState };

    ghost view = { λ s. record {
      bytes = s.bytes.items;
      room = s.room;
      puts = s.puts;
      failing = s.failing.items;
      faults = s.faults;
    } };

    ghost invariant = { λ s. s.room ≤ vec_capacity s.bytes };
}

impl ListSink {
    /// A sink with room for so many bytes, which it takes at once.
    pub fn new(alloc: Global, room: u64) -> Result<ListSink, AllocError>
        ensures { IfOk result
            (λ sink. sink ≡ record {
              bytes = [];
              room = room;
              puts = 0;
              failing = [];
              faults = 0;
            }) }
    {
        Ok(ListSink {
            bytes: Vec::with_capacity(alloc, room as usize)?,
            room,
            puts: 0,
            failing: Vec::new(alloc),
            faults: 0,
        })
    }

    /// Has a put fail, by its number from 1 on.
    pub fn fail_put(&mut self, call: u64) -> Result<(), AllocError>
        ensures ok { OnOk result (self.new
            ≡ record self.old { failing = self.old.failing ++ call ∷ [] }) }
        ensures err { OnErr result (self.new ≡ self.old) }
    {
        self.failing.push(call)?;
        Ok(())
    }

    /// The bytes.
    pub fn written(&self) -> &[u8]
        ensures { result.now ≡ self.now.bytes }
    {
        self.bytes.as_slice()
    }
}

// Whether so many bytes more fit.
fn has_room(room: u64, held: u64, more: u64) -> bool
    ensures { result ≡ nat_le (held + more) room }
{
    held <= room && more <= room - held
}

impl Sink for ListSink {
    ghost written = { λ s. Some s.bytes };

    ghost faults = { λ s. s.faults };

    ghost takes = { λ s more. (s.failing ≡ []) × (length s.bytes + more ≤ s.room) };

    fn put(&mut self, piece: &[u8]) -> Result<(), Failed>
        ensures counted { self.new ≡ record self.old {
          puts = raised self.old.puts;
          bytes = self.new.bytes;
          faults = self.new.faults;
        } }
        ensures named { is_named self.old.puts self.old.failing ≡ true → IsErr result }
        ensures past { self.old.room < length self.old.bytes + length piece.now → IsErr result }
        ensures there { is_named self.old.puts self.old.failing ≡ false
            → length self.old.bytes + length piece.now ≤ self.old.room → IsOk result }
        ensures puts { OnOk result (self.new.bytes ≡ self.old.bytes ++ piece.now) }
        ensures still { OnOk result (self.new.faults ≡ self.old.faults) }
        ensures rises { self.old.faults ≤ self.new.faults }
        ensures faulted { OnErr result (Faulted self.old.faults self.new.faults) }
        ensures nothing { OnErr result (self.new.bytes ≡ self.old.bytes) }
        ensures fails { OnErr result (self.new.faults ≡ raised self.old.faults) }
    {
        self.puts = one_more(self.puts);
        let fits = has_room(self.room, self.bytes.len() as u64, piece.len() as u64);
        if !fits
            || self.failing.contains(&self.puts)
            || self.bytes.extend_from_slice(piece).is_err()
        {
            self.faults = one_more(self.faults);
            return Err(Failed);
        }
        Ok(())
    }
}
