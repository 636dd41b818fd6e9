// One half of a store: the tuples of a side, and their index.

ghost use Rattle.std.specs.Prelude.{◌≡◌, ◌<◌, ◌≤◌, ◌^◌, List, [], ◌∷◌, ◌++◌, All, filter, IfOk, OnOk, OnErr};
ghost use Rattle.epoch_tags.specs.declared.tuple.Tuple.{Tuple};
ghost use Rattle.migration_plan.specs.Steps.{holds};
ghost use Rattle.store_parts.specs.Indexed.{IsIndexed};
ghost use Rattle.store_parts.specs.Keyed.{FitsKeyAt};
ghost use Rattle.store_parts.specs.Places.{IsMapOf};

use crate::index::{Index, index_by};
use crate::stands::indexed_at;
use epoch_tags::{Tuple, Tuples};
use grid_map::Shape;
use migration_plan::kept;
use row_cells::Side;
use std::alloc::{AllocError, Global};
use std::mem;
use theta_pred::{Access, KeyAtom};

// Drops the last tuple. It takes no memory.
fn drop_last(alloc: Global, tuples: &mut Tuples)
    ensures { (xs : List Tuple) (x : Tuple) → tuples.old ≡ xs ++ x ∷ [] → tuples.new ≡ xs }
{
    let mut held = mem::replace(tuples, Tuples::new(alloc)).into_vec();
    let _ = held.pop();
    *tuples = Tuples::from_vec(held);
}

// The tuples of a side, in the order of adding, and the index by which probes find them.
#[derive(Drop)]
pub(crate) struct Half {
    pub(crate) tuples: Tuples,
    pub(crate) index: Index,
}

impl Half {
    // A half with no tuples. It takes no memory.
    pub(crate) fn new(alloc: Global, key: &Option<KeyAtom>, access: &Option<Access>) -> Half
        ensures tuples { result.tuples ≡ [] }
        ensures index { IsMapOf [] result.index }
    {
        Half {
            tuples: Tuples::new(alloc),
            index: index_by(alloc, key, access),
        }
    }

    // Appends a tuple, and notes its number, if it has one.
    pub(crate) fn add(
        &mut self,
        alloc: Global,
        key: &Option<KeyAtom>,
        access: &Option<Access>,
        side: Side,
        tuple: Tuple,
    ) -> Result<(), AllocError>
        requires columns { FitsKeyAt key.now side tuple }
        requires indexed { IsIndexed key.now access.now side self.old.tuples self.old.index }
        ensures ok { OnOk result (self.new.tuples ≡ self.old.tuples ++ tuple ∷ []) }
        ensures err { OnErr result (self.new.tuples ≡ self.old.tuples) }
        ensures indexed { IsIndexed key.now access.now side self.new.tuples self.new.index }
    {
        let value = indexed_at(key, access, side, &tuple);
        let place = self.tuples.len();
        self.tuples.push(tuple)?;
        if let Err(refused) = self.index.add(alloc, value, place) {
            drop_last(alloc, &mut self.tuples);
            return Err(refused);
        }
        Ok(())
    }

    // Copies of those that the joiner holds in a grid of this shape, in their order, with their index.
    pub(crate) fn kept(
        &self,
        alloc: Global,
        key: &Option<KeyAtom>,
        access: &Option<Access>,
        side: Side,
        shape: Shape,
        id: u32,
    ) -> Result<Half, AllocError>
        requires indexed { IsIndexed key.now access.now side self.now.tuples self.now.index }
        requires shift { shape.shift ≤ shape.k }
        requires k { shape.k ≤ 8 }
        requires id { id < 2 ^ shape.k }
        ensures kept { IfOk result (λ kept.
            kept.tuples ≡ filter (holds shape.k shape.shift id) self.now.tuples) }
        ensures indexed { IfOk result (λ kept.
            IsIndexed key.now access.now side kept.tuples kept.index) }
    {
        let mut copies = Half {
            tuples: Tuples::new(alloc),
            index: self.index.empty_like(alloc),
        };
        for tuple in self.tuples.as_slice() {
            if kept(shape, id, tuple) {
                copies.add(alloc, key, access, side, tuple.copy()?)?;
            }
        }
        Ok(copies)
    }
}

// An index of tuples that are stored.
pub(crate) fn index_of(
    alloc: Global,
    tuples: &[Tuple],
    key: &Option<KeyAtom>,
    access: &Option<Access>,
    side: Side,
) -> Result<Index, AllocError>
    requires { All (FitsKeyAt key.now side) tuples.now }
    ensures { IfOk result (λ index. IsIndexed key.now access.now side tuples.now index) }
{
    let mut index = index_by(alloc, key, access);
    let mut place = 0;
    for tuple in tuples {
        index.add(alloc, indexed_at(key, access, side, tuple), place)?;
        place += 1;
    }
    Ok(index)
}
