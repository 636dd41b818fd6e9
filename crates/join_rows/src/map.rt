// A shelf in memory.

ghost use Rattle.std.specs.Prelude.{◌≡◌, true, false, ◌≤◌, ◌<◌, ◌+◌, ◌-◌, ◌^◌, ◌⊎◌, ◌++◌, ◌∷◌, Some, None, IfSome, length, take, drop, [], OnErr, OnOk, IsOk, IsErr, IsSome, IfOk, Ok};
ghost use Rattle.join_rows.specs.Shelves.{AtEnd, Faulted, Lacks, Nexts, moved, raised};
ghost use Rattle.join_rows.specs.InMemory.{Adds, Fills, MapState, file_under, is_named, named_spot};

use crate::find::{copy_from, find};
use crate::named_file::{NamedFile, Place};
use crate::shelf::{Failed, Shelf, one_more};
use row_cells::Bytes;
use std::alloc::{AllocError, Global};
use std::marker::Model;

/// Files in memory, where each call can be told to fail.
#[derive(Drop)]
pub struct MapShelf {
    alloc: Global,
    files: Vec<NamedFile>,
    picked: Option<Place>,
    picks: u64,
    reads: u64,
    failing_picks: Vec<u64>,
    failing_reads: Vec<u64>,
    faults: u64,
}

impl Model for MapShelf {
    ghost Value = { MapState };

    ghost view = { λ s. record {
      files = s.files.items;
      picked = named_spot s.files.items s.picked;
      picks = s.picks;
      reads = s.reads;
      failing_picks = s.failing_picks.items;
      failing_reads = s.failing_reads.items;
      faults = s.faults;
    } };

    ghost invariant = { λ s. IfSome s.picked (λ place. place.file < length s.files.items) };
}

impl MapShelf {
    /// A shelf without files and without faults.
    pub fn new(alloc: Global) -> MapShelf
        ensures { result ≡ record {
          files = [];
          picked = None;
          picks = 0;
          reads = 0;
          failing_picks = [];
          failing_reads = [];
          faults = 0;
        } }
    {
        MapShelf {
            alloc,
            files: Vec::new(alloc),
            picked: None,
            picks: 0,
            reads: 0,
            failing_picks: Vec::new(alloc),
            failing_reads: Vec::new(alloc),
            faults: 0,
        }
    }

    /// Adds a file, in the place of one of that name. Where memory is wanting the shelf stays as it was.
    pub fn add(&mut self, name: &str, bytes: &[u8]) -> Result<(), AllocError>
        ensures ok { OnOk result (Adds self.old.files self.new.files name.now bytes.now) }
        ensures keeps { OnOk result (self.new ≡ record self.old { files = self.new.files }) }
        ensures err { OnErr result (self.new ≡ self.old) }
    {
        let bytes = Bytes::from_slice(self.alloc, bytes)?;
        match find(self.files.as_slice(), name.as_bytes()) {
            Some(place) => self.files[place].replace(bytes),
            None => {
                let name = Bytes::from_slice(self.alloc, name.as_bytes())?;
                self.files.push(NamedFile { name, bytes })?;
            }
        }
        Ok(())
    }

    /// Has a pick fail, by its number from 1 on.
    pub fn fail_pick(&mut self, call: u64) -> Result<(), AllocError>
        ensures ok { OnOk result (self.new
            ≡ record self.old { failing_picks = self.old.failing_picks ++ call ∷ [] }) }
        ensures err { OnErr result (self.new ≡ self.old) }
    {
        self.failing_picks.push(call)?;
        Ok(())
    }

    /// Has a read fail, by its number from 1 on.
    pub fn fail_read(&mut self, call: u64) -> Result<(), AllocError>
        ensures ok { OnOk result (self.new
            ≡ record self.old { failing_reads = self.old.failing_reads ++ call ∷ [] }) }
        ensures err { OnErr result (self.new ≡ self.old) }
    {
        self.failing_reads.push(call)?;
        Ok(())
    }
}

impl Shelf for MapShelf {
    ghost told = { λ s. Some (file_under s.files) };

    ghost picked = { λ s. s.picked };

    ghost faults = { λ s. s.faults };

    ghost sound = { λ s. (s.failing_picks ≡ []) × (s.failing_reads ≡ []) };

    fn pick(&mut self, name: &str) -> Result<(), Failed>
        ensures counted { self.new ≡ record self.old {
          picks = raised self.old.picks;
          picked = self.new.picked;
          faults = self.new.faults;
        } }
        ensures named { is_named self.old.picks self.old.failing_picks ≡ true
            → IsErr result × (self.new.faults ≡ raised self.old.faults) }
        ensures other { is_named self.old.picks self.old.failing_picks ≡ false
            → self.new.faults ≡ self.old.faults }
        ensures there { OnOk result (Lacks (Some (file_under self.old.files)) name.now → ⊥) }
        ensures picks { OnOk result (self.new.picked ≡ Some (name.now, 0)) }
        ensures counts { OnOk result (self.new.faults ≡ self.old.faults) }
        ensures fails { OnErr result (Lacks (Some (file_under self.old.files)) name.now
            ⊎ (is_named self.old.picks self.old.failing_picks ≡ true)) }
        ensures faulted { OnErr result (Lacks (Some (file_under self.old.files)) name.now
            ⊎ Faulted self.old.faults self.new.faults) }
        ensures nothing { OnErr result (self.new.picked ≡ None) }
        ensures rises { self.old.faults ≤ self.new.faults }
        ensures sound { self.old.failing_picks ≡ [] → self.new.faults ≡ self.old.faults }
    {
        self.picks = one_more(self.picks);
        self.picked = None;
        if self.failing_picks.contains(&self.picks) {
            self.faults = one_more(self.faults);
            return Err(Failed);
        }
        let Some(file) = find(self.files.as_slice(), name.as_bytes()) else {
            return Err(Failed);
        };
        self.picked = Some(Place { file, at: 0 });
        Ok(())
    }

    fn read(&mut self, into: &mut [u8]) -> Result<usize, Failed>
        ensures counted { self.new ≡ record self.old {
          reads = raised self.old.reads;
          picked = self.new.picked;
          faults = self.new.faults;
        } }
        ensures nothing { self.old.picked ≡ None → result ≡ Ok 0 }
        ensures named { IsSome self.old.picked
            → is_named self.old.reads self.old.failing_reads ≡ true
            → IsErr result × (self.new.faults ≡ raised self.old.faults) }
        ensures other { is_named self.old.reads self.old.failing_reads ≡ false → IsOk result }
        ensures stays { OnErr result (self.new.picked ≡ self.old.picked) }
        ensures fills { IfOk result
            (λ n. Fills self.old.files self.old.picked n into.old into.new) }
        ensures moves { IfOk result (λ n. self.new.picked ≡ moved n self.old.picked) }
        ensures counts { OnOk result (self.new.faults ≡ self.old.faults) }
        ensures faulted { OnErr result (Faulted self.old.faults self.new.faults) }
        ensures rises { self.old.faults ≤ self.new.faults }
        ensures sound { self.old.failing_reads ≡ [] → self.new.faults ≡ self.old.faults }
        ensures room { IfOk result (λ n. n ≤ length into.old) }
        ensures next { IfOk result
            (λ n. Nexts (Some (file_under self.old.files)) self.old.picked n into.new) }
        ensures end { IfOk result (λ n. n ≡ 0 → 0 < length into.old
            → AtEnd (Some (file_under self.old.files)) self.old.picked) }
    {
        self.reads = one_more(self.reads);
        let Some(place) = self.picked else {
            return Ok(0);
        };
        let Some(picked) = self.files.get(place.file) else {
            return Ok(0);
        };
        if self.failing_reads.contains(&self.reads) {
            self.faults = one_more(self.faults);
            return Err(Failed);
        }
        let Some(file) = find(self.files.as_slice(), picked.name.as_slice()) else {
            return Ok(0);
        };
        let count = copy_from(self.files[file].bytes.as_slice(), place.at, into);
        self.picked = Some(Place {
            file: place.file,
            at: place.at + count as u64,
        });
        Ok(count)
    }
}
