// Real files.

ghost use Rattle.std.specs.Prelude.{◌≡◌, ◌⊎◌, ◌≤◌, ◌<◌, ◌+◌, None, Some, Ok, IfOk, OnOk, OnErr, IfSome, length, take, string_bytes};
ghost use Rattle.std.specs.Io.KnownBytes.{Consumes, IsAtEnd};
ghost use Rattle.join_rows.specs.Disk.{failed_calls, left_of, spot_of};
ghost use Rattle.join_rows.specs.Shelves.{Nexts, moved, raised};

use crate::shelf::{Failed, Shelf, one_more};
use std::alloc::Global;
use std::fs;
use std::io::Read;
use std::rt::Files;

/// The file that is read.
#[derive(Drop)]
struct Picked<R> {
    name: String,
    file: R,
    place: u64,
}

impl<R: Read> Picked<R> {
    // Reads the next bytes. A call that was interrupted has failed.
    fn read_on(&mut self, into: &mut [u8]) -> Result<usize, Failed>
        ensures name { self.new.name ≡ self.old.name }
        ensures place { IfOk result (λ n. self.new.place ≡ self.old.place + n) }
        ensures room { IfOk result (λ n. n ≤ length into.old) }
        ensures bytes { IfOk result (λ n.
            Consumes (R.remaining self.old.file) (R.remaining self.new.file) (take n into.new)) }
        ensures end { IfOk result
            (λ n. n ≡ 0 → 0 < length into.old → IsAtEnd (R.remaining self.new.file)) }
    {
        let Ok(count) = self.file.read(into) else {
            return Err(Failed);
        };
        let Some(place) = self.place.checked_add(count as u64) else {
            return Err(Failed);
        };
        self.place = place;
        Ok(count)
    }
}

/// The files of the system, of which it tells nothing.
#[derive(Drop)]
pub struct DiskShelf<F: Files> {
    alloc: Global,
    files: F,
    picked: Option<Picked<F::File>>,
    faults: u64,
}

impl<F: Files + Drop> DiskShelf<F> {
    /// A shelf with nothing picked and no faults.
    pub fn new(alloc: Global, files: F) -> DiskShelf<F>
        ensures faults { failed_calls result ≡ 0 }
        ensures nothing { spot_of result ≡ None }
    {
        DiskShelf {
            alloc,
            files,
            picked: None,
            faults: 0,
        }
    }

    // The file of a name, at its beginning.
    fn opened(&self, name: &str) -> Option<Picked<F::File>>
        ensures name { IfSome result (λ picked. string_bytes picked.name ≡ name.now) }
        ensures place { IfSome result (λ picked. picked.place ≡ 0) }
    {
        let name = String::from_str(self.alloc, name).ok()?;
        let file = fs::open(&self.files, name.as_str()).ok()?;
        Some(Picked {
            name,
            file,
            place: 0,
        })
    }
}

impl<F: Files + Drop> Shelf for DiskShelf<F> {
    ghost told = { λ _. None };

    ghost picked = { λ s. spot_of s };

    ghost faults = { λ s. failed_calls s };

    ghost sound = { λ _. ⊥ };

    /// Opens the file of this name. Each fault of the system, want of memory for the name too, is a failed call.
    fn pick(&mut self, name: &str) -> Result<(), Failed>
        ensures picks { OnOk result (spot_of self.new ≡ Some (name.now, 0)) }
        ensures nothing { OnErr result (spot_of self.new ≡ None) }
        ensures fails { OnErr result (failed_calls self.new ≡ raised (failed_calls self.old)) }
        ensures counts { OnOk result (failed_calls self.new ≡ failed_calls self.old) }
    {
        self.picked = None;
        let Some(picked) = self.opened(name) else {
            self.faults = one_more(self.faults);
            return Err(Failed);
        };
        self.picked = Some(picked);
        Ok(())
    }

    /// Reads the next bytes of the picked file, by one call of the system. Each fault of it is a failed call, an
    /// interrupted call too.
    fn read(&mut self, into: &mut [u8]) -> Result<usize, Failed>
        ensures nothing { spot_of self.old ≡ None → result ≡ Ok 0 }
        ensures room { IfOk result (λ n. n ≤ length into.old) }
        ensures moves { IfOk result (λ n. spot_of self.new ≡ moved n (spot_of self.old)) }
        ensures next { IfOk result (λ n. Nexts None (spot_of self.old) n into.new) }
        ensures bytes { IfOk result (λ n.
            Consumes (left_of F.File.remaining self.old) (left_of F.File.remaining self.new)
            (take n into.new)) }
        ensures end { IfOk result
            (λ n. n ≡ 0 → 0 < length into.old → IsAtEnd (left_of F.File.remaining self.new)) }
        ensures fails { OnErr result (failed_calls self.new ≡ raised (failed_calls self.old)) }
        ensures counts { OnOk result (failed_calls self.new ≡ failed_calls self.old) }
    {
        let Some(mut picked) = self.picked.take() else {
            return Ok(0);
        };
        let answer = picked.read_on(into);
        if answer.is_err() {
            self.faults = one_more(self.faults);
        }
        self.picked = Some(picked);
        answer
    }
}
