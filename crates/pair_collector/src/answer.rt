// The answer, from what is kept of each joiner.

ghost use Rattle.std.specs.Prelude.{◌≡◌, ◌-◌, ◌^◌, min, map, flat_map, length, slice_index, slice_index_or, IfOk};
ghost use Rattle.std.specs.List.{range_with_len};
ghost use Rattle.pair_collector.specs.Fresh.{kept_behind};
ghost use Rattle.pair_collector.specs.Standing.{held_of, longest, moved_by};

use crate::collected::Loads;
use crate::part::Part;
use epoch_tags::{Counts, Pair};
use std::alloc::{AllocError, Global};

/// How many pairs each joiner made.
pub(crate) fn made(alloc: Global, parts: &[Part]) -> Result<Counts, AllocError>
    ensures { IfOk result (λ made. made ≡ map (λ kept. length kept.pairs) parts.now) }
{
    let mut made = Counts::with_room(alloc, parts.len())?;
    for part in parts {
        made.push(part.pairs().len() as u64)?;
    }
    Ok(made)
}

/// What each joiner holds.
pub(crate) fn loads(alloc: Global, parts: &[Part]) -> Result<Loads, AllocError>
    ensures { IfOk result (λ loads. loads ≡ map (λ kept. held_of kept.last) parts.now) }
{
    let mut loads = Loads::with_room(alloc, parts.len())?;
    for part in parts {
        loads.push(part.held())?;
    }
    Ok(loads)
}

/// In how many steps any joiner moved rows.
fn steps(parts: &[Part]) -> u64
    ensures { result ≡ longest parts.now (length parts.now) }
{
    let mut steps = 0;
    for part in parts {
        steps = part.steps().max(steps);
    }
    steps
}

/// How many rows all joiners moved in a step. A sum past u64's greatest number stays there.
fn moved_in(parts: &[Part], step: u64) -> u64
    ensures { result ≡ min (moved_by parts.now step (length parts.now)) (2 ^ 64 - 1) }
{
    let mut sum = 0u64;
    for part in parts {
        sum = sum.saturating_add(part.moved_in(step));
    }
    sum
}

/// How many rows moved in each step.
pub(crate) fn moved(alloc: Global, parts: &[Part]) -> Result<Counts, AllocError>
    ensures { IfOk result (λ moved. moved ≡ map
        (λ step. min (moved_by parts.now step (length parts.now)) (2 ^ 64 - 1))
        (range_with_len 0 (longest parts.now (length parts.now)))) }
{
    let mut moved = Counts::new(alloc);
    for step in 0..steps(parts) {
        moved.push(moved_in(parts, step))?;
    }
    Ok(moved)
}

/// The pairs of all joiners, one joiner after the other.
pub(crate) fn all_pairs(alloc: Global, parts: Vec<Part>) -> Result<Vec<Pair>, AllocError>
    ensures { IfOk result (λ pairs. pairs.items ≡ flat_map (λ kept. kept.pairs) parts.items) }
{
    let mut pairs = Vec::new(alloc);
    for part in parts {
        pairs.extend_from_slice(part.pairs())?;
    }
    Ok(pairs)
}

/// The number at a place, and 0 past the end.
fn number_at(numbers: &Counts, place: u64) -> u64
    ensures { result ≡ slice_index numbers.now place }
{
    if place < numbers.len() {
        *numbers.at(place)
    } else {
        0
    }
}

/// The pairs of all joiners behind so many of each, one joiner after the other. Past the end of
/// `given` it's 0.
pub(crate) fn fresh_pairs(
    alloc: Global,
    parts: &[Part],
    given: &Counts,
) -> Result<Vec<Pair>, AllocError>
    ensures { IfOk result (λ pairs.
        pairs.items ≡ kept_behind given.now parts.now (length parts.now)) }
{
    let mut pairs = Vec::new(alloc);
    for joiner in 0..parts.len() {
        let known = number_at(given, joiner as u64);
        pairs.extend_from_slice(parts[joiner].pairs_behind(known))?;
    }
    Ok(pairs)
}
