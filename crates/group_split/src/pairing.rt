// The pairs of a part, by the numbers that its rows have in R.

ghost use Rattle.std.specs.Prelude.{◌≡◌, ◌++◌, ◌<◌, ◌^◌, All, OnOk, length, map};
ghost use Rattle.group_split.specs.Parts.{pair_in};

use epoch_tags::{Counts, Pair, Pairs};
use std::alloc::AllocError;

// A pair of the part with R's rows of these indices, by the index of its row.
fn pair_in(indices: &Counts, pair: Pair) -> Pair
    requires there { pair.i < length indices.now }
    requires small { All (λ index. index < 2 ^ 32) indices.now }
    ensures { result ≡ pair_in indices.now pair }
{
    let index = *indices.at(u64::from(pair.i));
    Pair {
        i: index as u32,
        j: pair.j,
    }
}

// Appends pairs of the part with R's rows of these indices, by the rows' indices.
pub(crate) fn add_pairs(all: &mut Pairs, indices: &Counts, pairs: &Pairs) -> Result<(), AllocError>
    requires there { All (λ pair. pair.i < length indices.now) pairs.now }
    requires small { All (λ index. index < 2 ^ 32) indices.now }
    ensures { OnOk result (all.new ≡ all.old ++ map (pair_in indices.now) pairs.now) }
{
    for pair in pairs.as_slice() {
        all.push(pair_in(indices, *pair))?;
    }
    Ok(())
}
