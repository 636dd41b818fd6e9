// The files of a shelf in memory.

ghost use Rattle.std.specs.Prelude.{◌≡◌};

use row_cells::Bytes;

#[derive(Drop)]
pub(crate) struct NamedFile {
    pub(crate) name: Bytes,
    pub(crate) bytes: Bytes,
}

impl NamedFile {
    // Has other bytes from here on.
    pub(crate) fn replace(&mut self, bytes: Bytes)
        ensures { self.new ≡ record self.old { bytes = bytes } }
    {
        self.bytes = bytes;
    }
}

// A place in one of the files.
#[derive(Clone, Copy)]
pub(crate) struct Place {
    pub(crate) file: usize,
    pub(crate) at: u64,
}
