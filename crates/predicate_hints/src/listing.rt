// Which kinds of things can stand at a place.

ghost use Rattle.std.specs.Prelude.{◌≡◌, ◌↔◌, IfOk, IsTrue};
ghost use Rattle.predicate_hints.specs.Listing.{AreThose, CanStand, kinds};

use crate::follow::{may_end, may_follow};
use crate::kinds::{Expected, sample};
use std::alloc::{AllocError, Global};

// In the order in which they are listed.
const KINDS: [Expected; 15] = [
    Expected::Column,
    Expected::Number,
    Expected::Text,
    Expected::Distance,
    Expected::Quoted,
    Expected::Not,
    Expected::Open,
    Expected::Close,
    Expected::Point,
    Expected::Name,
    Expected::Sign,
    Expected::Comparison,
    Expected::And,
    Expected::Or,
    Expected::End,
];

fn can_stand(alloc: Global, text: &str, place: u64, kind: Expected) -> Result<bool, AllocError>
    ensures { IfOk result (λ can. IsTrue can ↔ CanStand text.now place kind) }
{
    match sample(kind) {
        None => may_end(alloc, text, place),
        Some(token) => may_follow(alloc, text, place, token),
    }
}

// Those of some kinds that can stand at the place.
fn those(
    alloc: Global,
    text: &str,
    place: u64,
    kinds: &[Expected],
) -> Result<Vec<Expected>, AllocError>
    ensures { IfOk result (λ found. AreThose (CanStand text.now place) kinds.now found.items) }
{
    let mut found = Vec::new(alloc);
    for &kind in kinds {
        if can_stand(alloc, text, place, kind)? {
            found.push(kind)?;
        }
    }
    Ok(found)
}

/// The kinds of things that can follow what stands before the place in some predicate within the
/// limits of `theta_text`, in the order of `Expected`. The place is a byte's offset, counted from
/// 0, or the text's length; there is no such thing at a place within a character or past the text.
pub fn expected(alloc: Global, text: &str, place: u64) -> Result<Vec<Expected>, AllocError>
    ensures { IfOk result (λ found. AreThose (CanStand text.now place) kinds found.items) }
{
    those(alloc, text, place, &KINDS)
}
