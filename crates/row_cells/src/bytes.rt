// Bytes, which contracts see as a list.

ghost use Rattle.std.specs.Prelude.{◌≡◌, ◌<◌, ◌++◌, ◌∷◌, [], Some, length, IfOk, OnOk, OnErr, slice_get};

use std::alloc::{AllocError, Global};
use std::marker::Model;

/// A list of bytes in their order.
#[derive(Debug, Drop)]
pub struct Bytes {
    held: Vec<u8>,
}

impl Model for Bytes {
    ghost use Rattle.std.specs.Prelude.{List, ℕ};

    ghost Value = { List ℕ };

    ghost view = { λ bytes. bytes.held.items };
}

impl Bytes {
    /// The empty list. It takes no memory.
    pub fn new(alloc: Global) -> Bytes
        ensures { result ≡ [] }
    {
        Bytes {
            held: Vec::new(alloc),
        }
    }

    /// The list of a vector's bytes. It takes no memory.
    pub fn from_vec(held: Vec<u8>) -> Bytes
        ensures { result ≡ held.items }
    {
        Bytes { held }
    }

    /// A list of these bytes.
    pub fn from_slice(alloc: Global, bytes: &[u8]) -> Result<Bytes, AllocError>
        ensures { IfOk result (λ items. items ≡ bytes.now) }
    {
        let mut held = Vec::with_capacity(alloc, bytes.len())?;
        held.extend_from_slice(bytes)?;
        Ok(Bytes { held })
    }

    /// How many bytes there are.
    pub fn len(&self) -> u64
        ensures { result ≡ length self.now }
    {
        self.held.len() as u64
    }

    /// The byte at `place`, counted from 0.
    pub fn at(&self, place: u64) -> &u8
        requires { place < length self.now }
        ensures { slice_get self.now place ≡ Some result.now }
    {
        &self.as_slice()[place as usize]
    }

    /// The bytes as a slice.
    pub fn as_slice(&self) -> &[u8]
        ensures { result.now ≡ self.now }
    {
        self.held.as_slice()
    }

    /// The bytes in their order, as they lie. It takes no memory.
    pub fn into_vec(self) -> Result<Vec<u8>, AllocError>
        ensures { IfOk result (λ bytes. bytes.items ≡ self) }
    {
        Ok(self.held)
    }

    /// Equal bytes.
    pub fn copy(&self) -> Result<Bytes, AllocError>
        ensures { IfOk result (λ bytes. bytes ≡ self.now) }
    {
        Bytes::from_slice(*self.held.allocator(), self.as_slice())
    }

    /// Appends a byte.
    pub fn push(&mut self, byte: u8) -> Result<(), AllocError>
        ensures ok { OnOk result (self.new ≡ self.old ++ byte ∷ []) }
        ensures err { OnErr result (self.new ≡ self.old) }
    {
        match self.held.push(byte) {
            Ok(()) => Ok(()),
            Err(_) => Err(AllocError),
        }
    }

    /// Appends bytes.
    pub fn append(&mut self, bytes: &[u8]) -> Result<(), AllocError>
        ensures ok { OnOk result (self.new ≡ self.old ++ bytes.now) }
        ensures err { OnErr result (self.new ≡ self.old) }
    {
        self.held.extend_from_slice(bytes)?;
        Ok(())
    }
}
