// Copies of a key and an access.

ghost use Rattle.std.specs.Prelude.{◌≡◌, IfOk};

use std::alloc::AllocError;
use theta_pred::{Access, KeyAtom};

// An equal key.
pub(crate) fn key_copy(key: &Option<KeyAtom>) -> Result<Option<KeyAtom>, AllocError>
    ensures { IfOk result (λ copy. copy ≡ key.now) }
{
    match key {
        Some(atom) => Ok(Some(atom.copy()?)),
        None => Ok(None),
    }
}

// An equal access.
pub(crate) fn access_copy(access: &Option<Access>) -> Result<Option<Access>, AllocError>
    ensures { IfOk result (λ copy. copy ≡ access.now) }
{
    match access {
        Some(access) => Ok(Some(access.copy()?)),
        None => Ok(None),
    }
}
