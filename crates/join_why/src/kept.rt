// A shelf that keeps what was read of its files.

ghost use Rattle.std.specs.Prelude.{◌≡◌};

use join_rows::{Failed, Shelf};
use std::alloc::{AllocError, Global};

/// A file that was picked, and what was read of it.
#[derive(Debug, Drop)]
pub struct KeptFile {
    pub name: String,
    pub bytes: Vec<u8>,
    /// All that was read of it is kept; not so where memory was wanting.
    pub is_whole: bool,
}

/// What keeps the files that were picked.
pub trait Keeps {
    /// The files that were picked, in their order; none where memory was wanting for one of their names.
    fn files(&self) -> &[KeptFile];
}

/// A shelf, and the files that were picked from it, in their order.
#[derive(Drop)]
pub struct KeptShelf<H: Shelf> {
    alloc: Global,
    shelf: H,
    files: Vec<KeptFile>,
    // Memory was wanting for a file's name, so what was read can't be told apart.
    is_lost: bool,
}

impl<H: Shelf + Drop> KeptShelf<H> {
    /// This shelf, of which nothing has been kept yet.
    pub fn new(alloc: Global, shelf: H) -> KeptShelf<H>
        ensures { result.shelf ≡ shelf }
    {
        KeptShelf {
            alloc,
            shelf,
            files: Vec::new(alloc),
            is_lost: false,
        }
    }

    /// Notes a file as picked.
    fn note(&mut self, name: &str) -> Result<(), AllocError>
        ensures { self.new.shelf ≡ self.old.shelf }
    {
        let name = String::from_str(self.alloc, name)?;
        self.files.push(KeptFile {
            name,
            bytes: Vec::new(self.alloc),
            is_whole: true,
        })?;
        Ok(())
    }

    /// Keeps what was read of the file that was picked last.
    fn keep(&mut self, piece: &[u8])
        ensures { self.new.shelf ≡ self.old.shelf }
    {
        if let Some(file) = self.files.last_mut() {
            if file.bytes.extend_from_slice(piece).is_err() {
                file.is_whole = false;
            }
        }
    }
}

impl<H: Shelf + Drop> Keeps for KeptShelf<H> {
    fn files(&self) -> &[KeptFile] {
        if self.is_lost {
            &[]
        } else {
            self.files.as_slice()
        }
    }
}

impl<H: Shelf + Drop> Shelf for KeptShelf<H> {
    ghost told = { λ s. H.told s.shelf };

    ghost picked = { λ s. H.picked s.shelf };

    ghost faults = { λ s. H.faults s.shelf };

    ghost sound = { λ s. H.sound s.shelf };

    fn pick(&mut self, name: &str) -> Result<(), Failed> {
        if self.note(name).is_err() {
            self.is_lost = true;
        }
        self.shelf.pick(name)
    }

    fn read(&mut self, into: &mut [u8]) -> Result<usize, Failed> {
        let count = self.shelf.read(into)?;
        self.keep(&into[..count]);
        Ok(count)
    }
}
