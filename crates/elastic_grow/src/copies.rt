// The stores of a grown grid.

ghost use Rattle.std.specs.Prelude.{◌≡◌, ◌≤◌, ◌^◌, Some, slice_get, IfOk};
ghost use Rattle.elastic_grow.specs.Children.{parent_of};
ghost use Rattle.elastic_grow.specs.Stores.{AreKept};

use crate::split::{parent, power};
use grid_map::Shape;
use row_cells::Items;
use std::alloc::{AllocError, Global};
use store_parts::Store;

// For each joiner of a grid of this shape, what it holds of the store of the one whose child it is.
pub(crate) fn of_parents(
    alloc: Global,
    shape: Shape,
    shift: u32,
    stores: &[Store],
) -> Result<Items<Store>, AllocError>
    requires k { shape.k ≤ 8 }
    requires within { shape.shift ≤ shape.k }
    requires shift { shift ≤ 6 }
    ensures { IfOk result (λ kept.
        AreKept shape (λ j. slice_get stores.now (parent_of shift j)) (2 ^ shape.k) kept) }
{
    let mut kept = Items::new(alloc);
    for id in 0..power(shape.k) {
        let Some(store) = stores.get(parent(shift, id) as usize) else {
            return Err(AllocError);
        };
        kept.push(store.kept_copy(shape, id)?)?;
    }
    Ok(kept)
}

// For each joiner of a grid of this shape, what it holds of one store.
pub(crate) fn of_one(alloc: Global, shape: Shape, whole: &Store) -> Result<Items<Store>, AllocError>
    requires k { shape.k ≤ 8 }
    requires within { shape.shift ≤ shape.k }
    ensures { IfOk result (λ kept. AreKept shape (λ j. Some whole.now) (2 ^ shape.k) kept) }
{
    let mut kept = Items::new(alloc);
    for id in 0..power(shape.k) {
        kept.push(whole.kept_copy(shape, id)?)?;
    }
    Ok(kept)
}
