// Texts that lie one behind the other, which contracts see as a list.

ghost use Rattle.std.specs.Prelude.{◌≡◌, ◌≤◌, ◌<◌, ◌++◌, ◌∷◌, [], Some, length, OnOk, OnErr, slice_get, slice_range};
ghost use Rattle.row_cells.specs.Texts.{AreEnds, cut};

use std::alloc::{AllocError, Global};
use std::marker::Model;

/// A list of texts in their order, whose bytes lie one behind the other: of a text there are its bytes and four more,
/// and all together have less than 2^32.
#[derive(Debug, Drop)]
pub struct Texts {
    bytes: Vec<u8>,
    // Where each text ends, and the next begins.
    ends: Vec<u32>,
}

impl Model for Texts {
    ghost use Rattle.std.specs.Prelude.{List, ℕ, length};
    ghost use Rattle.row_cells.specs.Texts.{AreEnds, cut};

    ghost Value = { List (List ℕ) };

    ghost view = { λ texts. cut 0 texts.ends.items texts.bytes.items };

    ghost invariant = { λ texts. AreEnds 0 texts.ends.items (length texts.bytes.items) };
}

// Where the text at a place begins.
fn begin_of(ends: &[u32], place: usize) -> u32
    requires { place < length ends.now }
    ensures { slice_get (0 ∷ ends.now) place ≡ Some result }
{
    match place {
        0 => 0,
        _ => ends[place - 1],
    }
}

// The bytes from one place up to another.
fn piece(bytes: &[u8], from: u32, to: u32) -> &[u8]
    requires rises { from ≤ to }
    requires within { to ≤ length bytes.now }
    ensures { result.now ≡ slice_range bytes.now from to }
{
    &bytes[from as usize..to as usize]
}

// The text at a place.
fn text_at<'a>(ends: &[u32], bytes: &'a [u8], place: usize) -> &'a [u8]
    requires within { place < length ends.now }
    requires ends { AreEnds 0 ends.now (length bytes.now) }
    ensures { slice_get (cut 0 ends.now bytes.now) place ≡ Some result.now }
{
    piece(bytes, begin_of(ends, place), ends[place])
}

impl Texts {
    /// The empty list. It takes no memory.
    pub fn new(alloc: Global) -> Texts
        ensures { result ≡ [] }
    {
        Texts {
            bytes: Vec::new(alloc),
            ends: Vec::new(alloc),
        }
    }

    /// How many texts there are.
    pub fn len(&self) -> u64
        ensures { result ≡ length self.now }
    {
        self.ends.as_slice().len() as u64
    }

    /// The text at `place`, counted from 0.
    pub fn at(&self, place: u64) -> &[u8]
        requires { place < length self.now }
        ensures { slice_get self.now place ≡ Some result.now }
    {
        text_at(self.ends.as_slice(), self.bytes.as_slice(), place as usize)
    }

    /// Appends a text. The only error is want of memory, or of room for all bytes together.
    pub fn push(&mut self, text: &[u8]) -> Result<(), AllocError>
        ensures ok { OnOk result (self.new ≡ self.old ++ text.now ∷ []) }
        ensures err { OnErr result (self.new ≡ self.old) }
    {
        let before = self.bytes.as_slice().len();
        let Some(end) = before.checked_add(text.len()) else {
            return Err(AllocError);
        };
        let Ok(end) = u32::try_from(end) else {
            return Err(AllocError);
        };
        self.bytes.extend_from_slice(text)?;
        match self.ends.push(end) {
            Ok(()) => Ok(()),
            Err(_) => {
                self.bytes.truncate(before);
                Err(AllocError)
            }
        }
    }
}
