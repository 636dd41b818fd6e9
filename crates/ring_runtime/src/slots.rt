// Places by the numbers of actors, in which something may be.

ghost use Rattle.std.specs.Prelude.{◌≡◌, ℕ, None, IfOk, length, slice_index_or};

use std::alloc::{AllocError, Global};

// So many places with nothing there.
pub(crate) fn no_slots<T: Drop>(alloc: Global, count: u32) -> Result<Vec<Option<T>>, AllocError>
    ensures none { IfOk result (λ slots. (n : ℕ) → slice_index_or slots.items n None ≡ None) }
    ensures places { IfOk result (λ slots. length slots.items ≡ count) }
{
    let mut slots = Vec::new(alloc);
    for _ in 0..count {
        slots.push(None)?;
    }
    Ok(slots)
}
