// What the last message of a joiner tells.

ghost use Rattle.std.specs.Prelude.{◌≡◌, IfOk};
ghost use Rattle.joiner_core.specs.Calls.{fin_of};

use super::Epochs;
use crate::stock;
use epoch_tags::{Counts, ToCollector};
use row_cells::Side;
use std::alloc::{AllocError, Global};

impl<'a> Epochs<'a> {
    // The last message.
    pub(crate) fn last_message(&self) -> Result<ToCollector, AllocError>
        ensures { IfOk result (λ m. m ≡ fin_of self.now) }
    {
        Ok(ToCollector::Fin {
            rows_r: stock::count(&self.store, Side::R),
            rows_s: stock::count(&self.store, Side::S),
            moved: copy_of(self.alloc, &self.moved)?,
        })
    }
}

// Equal numbers.
fn copy_of(alloc: Global, counts: &Counts) -> Result<Counts, AllocError>
    ensures { IfOk result (λ copy. copy ≡ counts.now) }
{
    let mut copy = Counts::new(alloc);
    for count in counts.as_slice() {
        copy.push(*count)?;
    }
    Ok(copy)
}
