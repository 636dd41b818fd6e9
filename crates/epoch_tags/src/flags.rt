// Flags, one for each feeder or joiner.

ghost use Rattle.std.specs.Prelude.{◌≡◌, ℕ, true, false, length, IfOk};
ghost use Rattle.std.specs.List.{list_all};
ghost use Rattle.epoch_tags.specs.Flags.{flag_at, IsEachUp};

use std::alloc::{AllocError, Global};

/// So many flags, all down.
pub fn all_down(alloc: Global, count: u32) -> Result<Vec<bool>, AllocError>
    ensures count { IfOk result (λ flags. length flags.items ≡ count) }
    ensures down { IfOk result (λ flags. (i : ℕ) → flag_at flags.items i ≡ false) }
{
    let mut flags = Vec::new(alloc);
    for i in 0..count {
        let _ = i;
        flags.push(false)?;
    }
    Ok(flags)
}

/// Whether the flag of that number is up. There is none past the end.
pub fn is_up(flags: &Vec<bool>, at: u32) -> bool
    ensures { result ≡ flag_at flags.now.items at }
{
    if (at as usize) < flags.len() {
        flags[at as usize]
    } else {
        false
    }
}

/// Whether all flags are up.
pub fn are_all_up(flags: &Vec<bool>) -> bool
    ensures all { result ≡ list_all (λ up. up) flags.now.items }
    ensures up { result ≡ true → IsEachUp flags.now.items }
    ensures down { result ≡ false → IsEachUp flags.now.items → ⊥ }
{
    flags.iter().all(|up| *up)
}
