// What may follow the front of a text.

ghost use Rattle.std.specs.Prelude.{◌≡◌, ◌≢◌, ◌↔◌, [], ◌∷◌, ◌++◌, take};
ghost use Rattle.std.specs.Prelude.{IfOk, IsTrue, MatchOption, string_bytes};
ghost use Rattle.std.specs.Str.{IsCharBoundary};
ghost use Rattle.predicate_hints.specs.Follow.{IsPredicate, IsReading, MayEnd, MayFollow, Stands};

use std::alloc::{AllocError, Global};
use theta_text::parse;
use theta_tree::PredFault;

// What stands before a place, if that is a place between two characters.
fn front_of(text: &str, place: u64) -> Option<&str>
    ensures { MatchOption result (¬ (IsCharBoundary text.now place))
        (λ front. IsCharBoundary text.now place × (front.now ≡ take place text.now)) }
{
    let (front, _) = text.split_at_checked(place as usize)?;
    Some(front)
}

// A fault of a text, and none of the memory.
fn of_text(fault: PredFault) -> Result<PredFault, AllocError>
    ensures { IfOk result (λ same. (same ≡ fault) × (fault ≢ PredFault.Memory)) }
{
    match fault {
        PredFault::Memory => Err(AllocError),
        _ => Ok(fault),
    }
}

// Why the text is no predicate, if it is none.
fn fault_of(alloc: Global, text: &str) -> Result<Option<PredFault>, AllocError>
    ensures { IfOk result (IsReading text.now) }
{
    match parse(alloc, text).err() {
        None => Ok(None),
        Some(fault) => Ok(Some(of_text(fault)?)),
    }
}

fn is_predicate(alloc: Global, text: &str) -> Result<bool, AllocError>
    ensures { IfOk result (λ is. IsTrue is ↔ IsPredicate text.now) }
{
    match fault_of(alloc, text)? {
        None => Ok(true),
        Some(_) => Ok(false),
    }
}

// Whether the grammar is left just at this place.
fn is_at(fault: PredFault, end: u64) -> bool
    ensures { IsTrue result ↔ (fault ≡ PredFault.Syntax end) }
{
    match fault {
        PredFault::Syntax { place } => place == end,
        _ => false,
    }
}

// Whether the text is a predicate, or leaves the grammar just at its end.
fn stands(alloc: Global, text: &str) -> Result<bool, AllocError>
    ensures { IfOk result (λ may. IsTrue may ↔ Stands text.now) }
{
    match fault_of(alloc, text)? {
        None => Ok(true),
        Some(fault) => Ok(is_at(fault, text.len() as u64)),
    }
}

// A token behind what stands before it, with a blank between them.
fn with_token(alloc: Global, front: &str, token: &str) -> Result<String, AllocError>
    ensures { IfOk result (λ both. string_bytes both ≡ front.now ++ 32 ∷ [] ++ token.now) }
{
    let mut both = String::from_str(alloc, front)?;
    both.push(' ')?;
    both.push_str(token)?;
    Ok(both)
}

/// Whether the token can follow what stands before the place in some predicate within the limits of
/// `theta_text`. The place is a byte's offset, counted from 0, or the text's length; nothing can
/// follow at a place within a character or past the text. The token may be several tokens, which
/// then follow one another.
pub fn may_follow(alloc: Global, text: &str, place: u64, token: &str) -> Result<bool, AllocError>
    ensures { IfOk result (λ may. IsTrue may ↔ MayFollow text.now place token.now) }
{
    let Some(front) = front_of(text, place) else {
        return Ok(false);
    };
    let both = with_token(alloc, front, token)?;
    stands(alloc, both.as_str())
}

/// Whether a predicate can end at the place: what stands before it is one.
pub(crate) fn may_end(alloc: Global, text: &str, place: u64) -> Result<bool, AllocError>
    ensures { IfOk result (λ may. IsTrue may ↔ MayEnd text.now place) }
{
    let Some(front) = front_of(text, place) else {
        return Ok(false);
    };
    is_predicate(alloc, front)
}
