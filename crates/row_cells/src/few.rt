// Lists that are mostly short.

ghost use Rattle.std.specs.Prelude.{◌≡◌, ◌<◌, ◌++◌, ◌∷◌, [], Some, length, IfOk, OnOk, OnErr, slice_get};

use std::alloc::{AllocError, Global};
use std::marker::Model;

// The items: up to two, or a list of its own.
#[derive(Debug, Drop)]
enum Held<T> {
    None,
    One([T; 1]),
    Two([T; 2]),
    More(Vec<T>),
}

/// A list of items in their order. As long as there are two at most they lie within it, and need no memory of their
/// own.
#[derive(Debug, Drop)]
pub struct Few<T> {
    alloc: Global,
    held: Held<T>,
}

impl<T> Model for Few<T> {
    ghost use Rattle.std.specs.Prelude.{List};
    ghost use Rattle.row_cells.specs.Few.{items_in};

    ghost Value = { List T };

    ghost view = { λ few. items_in few.held };
}

impl<T> Few<T> {
    /// The empty list. It takes no memory.
    pub fn new(alloc: Global) -> Few<T>
        ensures { result ≡ [] }
    {
        Few {
            alloc,
            held: Held::None,
        }
    }

    /// The list of a vector's items. It takes no memory.
    pub fn from_vec(items: Vec<T>) -> Few<T>
        ensures { result ≡ items.items }
    {
        Few {
            alloc: *items.allocator(),
            held: Held::More(items),
        }
    }

    /// How many items there are.
    pub fn len(&self) -> u64
        ensures { result ≡ length self.now }
    {
        self.as_slice().len() as u64
    }

    /// The item at `place`, counted from 0.
    pub fn at(&self, place: u64) -> &T
        requires { place < length self.now }
        ensures { slice_get self.now place ≡ Some result.now }
    {
        &self.as_slice()[place as usize]
    }

    /// The items as a slice.
    pub fn as_slice(&self) -> &[T]
        ensures { result.now ≡ self.now }
    {
        match &self.held {
            Held::None => &[],
            Held::One(items) => items,
            Held::Two(items) => items,
            Held::More(items) => items.as_slice(),
        }
    }
}

// A vector of these items, with room for so many.
fn vector<T: Copy>(alloc: Global, items: &[T], room: usize) -> Result<Vec<T>, AllocError>
    ensures { IfOk result (λ vector. vector.items ≡ items.now) }
{
    let mut vector = Vec::with_capacity(alloc, room)?;
    vector.extend_from_slice(items)?;
    Ok(vector)
}

impl<T: Copy> Few<T> {
    /// A list of these items.
    pub fn from_slice(alloc: Global, items: &[T]) -> Result<Few<T>, AllocError>
        ensures { IfOk result (λ few. few ≡ items.now) }
    {
        let held = match items {
            [] => Held::None,
            [one] => Held::One([*one]),
            [one, two] => Held::Two([*one, *two]),
            _ => Held::More(vector(alloc, items, items.len())?),
        };
        Ok(Few { alloc, held })
    }

    /// Appends an item.
    pub fn push(&mut self, item: T) -> Result<(), AllocError>
        ensures ok { OnOk result (self.new ≡ self.old ++ item ∷ []) }
        ensures err { OnErr result (self.new ≡ self.old) }
    {
        let alloc = self.alloc;
        let held = &mut self.held;
        match held {
            Held::None => *held = Held::One([item]),
            Held::One(one) => {
                let one = *one;
                *held = Held::Two([one[0], item]);
            }
            Held::Two(two) => {
                let two = *two;
                let mut items = vector(alloc, &two, 8)?;
                items.extend_from_slice(&[item])?;
                *held = Held::More(items);
            }
            Held::More(items) => items.extend_from_slice(&[item])?,
        }
        Ok(())
    }

    /// Appends items.
    pub fn append(&mut self, items: &[T]) -> Result<(), AllocError>
        ensures { OnOk result (self.new ≡ self.old ++ items.now) }
    {
        if let Held::More(own) = &mut self.held {
            own.extend_from_slice(items)?;
            return Ok(());
        }
        for item in items {
            self.push(*item)?;
        }
        Ok(())
    }

    /// The items in their order. Those of a list with memory of its own are handed out as they lie.
    pub fn into_vec(self) -> Result<Vec<T>, AllocError>
        ensures { IfOk result (λ vector. vector.items ≡ self) }
    {
        let Few { alloc, held } = self;
        match held {
            Held::None => Ok(Vec::new(alloc)),
            Held::One(items) => vector(alloc, &items, 1),
            Held::Two(items) => vector(alloc, &items, 2),
            Held::More(items) => Ok(items),
        }
    }
}
