// Lists of an item, which contracts see as lists.

ghost use Rattle.std.specs.Prelude.{◌≡◌, ◌<◌, ◌++◌, ◌∷◌, [], Some, length, IfOk, OnOk, OnErr, slice_get};

use crate::bytes::Bytes;
use std::alloc::{AllocError, Global};
use std::marker::Model;

/// A list of items in their order.
#[derive(Debug, Drop)]
pub struct Items<T> {
    held: Vec<T>,
}

impl<T> Model for Items<T> {
    ghost use Rattle.std.specs.Prelude.{List};

    ghost Value = { List T };

    ghost view = { λ items. items.held.items };
}

impl<T> Items<T> {
    /// The empty list. It takes no memory.
    pub fn new(alloc: Global) -> Items<T>
        ensures { result ≡ [] }
    {
        Items {
            held: Vec::new(alloc),
        }
    }

    /// The empty list, with room for so many items.
    pub fn with_room(alloc: Global, room: usize) -> Result<Items<T>, AllocError>
        ensures { IfOk result (λ items. items ≡ []) }
    {
        Ok(Items {
            held: Vec::with_capacity(alloc, room)?,
        })
    }

    /// Where the list's memory is from.
    pub fn allocator(&self) -> Global {
        *self.held.allocator()
    }

    /// How many items there are.
    pub fn len(&self) -> u64
        ensures { result ≡ length self.now }
    {
        self.held.len() as u64
    }

    /// The item at `place`, counted from 0.
    pub fn at(&self, place: u64) -> &T
        requires { place < length self.now }
        ensures { slice_get self.now place ≡ Some result.now }
    {
        &self.held[place as usize]
    }

    /// The items as a slice.
    pub fn as_slice(&self) -> &[T]
        ensures { result.now ≡ self.now }
    {
        self.held.as_slice()
    }

    /// The items in their order. It takes no memory.
    pub fn into_vec(self) -> Vec<T>
        ensures { result.items ≡ self }
    {
        self.held
    }

    /// The list of a vector's items. It takes no memory.
    pub fn from_vec(held: Vec<T>) -> Items<T>
        ensures { result ≡ held.items }
    {
        Items { held }
    }
}

impl<T: Drop> Items<T> {
    /// Appends an item, which is dropped where memory is wanting.
    pub fn push(&mut self, item: T) -> Result<(), AllocError>
        ensures ok { OnOk result (self.new ≡ self.old ++ item ∷ []) }
        ensures err { OnErr result (self.new ≡ self.old) }
    {
        self.held.push(item)?;
        Ok(())
    }
}

pub type Names = Items<Bytes>;
