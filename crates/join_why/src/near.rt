// The name that was perhaps meant.

use row_cells::Names;
use std::alloc::{AllocError, Global};
use std::str;
use strsim::damerau_levenshtein;

/// A longer name is near none, since how far two names are apart takes the product of their lengths.
const LONGEST: usize = 64;

/// How many letters two names differ in; 1 where they differ in case alone.
fn distance(alloc: Global, one: &str, other: &str) -> Result<usize, AllocError> {
    if one.eq_ignore_ascii_case(other) {
        Ok(1)
    } else {
        damerau_levenshtein(alloc, one, other)
    }
}

/// How far a name is, where it is near: in at most a third of the wanted one's bytes, and one at least.
fn near_by(alloc: Global, name: &[u8], wanted: &str) -> Result<Option<usize>, AllocError> {
    let Ok(name) = str::from_utf8(name) else {
        return Ok(None);
    };
    if name.len() > LONGEST || wanted.len() > LONGEST {
        return Ok(None);
    }
    let apart = distance(alloc, name, wanted)?;
    Ok(if apart <= 1.max(wanted.len() / 3) {
        Some(apart)
    } else {
        None
    })
}

/// The place of the name that is nearest to the wanted one, where one is near.
pub(crate) fn nearest(
    alloc: Global,
    names: &Names,
    wanted: &str,
) -> Result<Option<usize>, AllocError> {
    let mut found: Option<(usize, usize)> = None;
    for (place, name) in names.as_slice().iter().enumerate() {
        if let Some(apart) = near_by(alloc, name.as_slice(), wanted)? {
            if found.is_none_or(|best| apart < best.0) {
                found = Some((apart, place));
            }
        }
    }
    Ok(found.map(|best| best.1))
}
