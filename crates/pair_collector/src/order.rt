// The order in which pairs are answered.

ghost use Rattle.std.specs.Prelude.{◌≡◌, IsPermutation};
ghost use Rattle.pair_collector.specs.Order.{InOrder};

use epoch_tags::{Pair, Pairs};

/// Sorts pairs by the row of R and then by the row of S. Equal pairs stay.
fn sort_pairs(pairs: &mut [Pair])
    ensures permutation { IsPermutation pairs.old pairs.new }
    ensures order { InOrder pairs.new }
{
    pairs.sort_unstable_by_key(|pair| (pair.i, pair.j));
}

/// The pairs of a vector by the row of R and then by the row of S. Equal pairs stay. It takes no memory.
pub fn in_order(mut pairs: Vec<Pair>) -> Pairs
    ensures permutation { IsPermutation pairs.items result }
    ensures order { InOrder result }
{
    sort_pairs(&mut pairs);
    Pairs::from_vec(pairs)
}
