// Triples of rows.

ghost use Rattle.std.specs.Prelude.{◌≡◌, ◌<◌, All, IfOk, length, map};
ghost use Rattle.chain_join.specs.Triples.{triple_at as triple_at'};

use epoch_tags::Pair;
use row_cells::Items;
use std::alloc::{AllocError, Global};

/// A row of R, a row of S and a row of Q, by their numbers counted from 0.
#[derive(Clone, Copy, Debug, PartialEq, Eq)]
pub struct Triple {
    pub i: u32,
    pub j: u32,
    pub l: u32,
}

pub type Triples = Items<Triple>;

// The triple of a joined row, by its place among the first pairs, and a row of Q.
fn triple_at(firsts: &[Pair], pair: Pair) -> Triple
    requires { pair.i < length firsts.now }
    ensures { result ≡ triple_at' firsts.now pair }
{
    let first = firsts[pair.i as usize];
    Triple {
        i: first.i,
        j: first.j,
        l: pair.j,
    }
}

/// The triples of pairs of a joined row and a row of Q, in their order.
pub(crate) fn triples_of(
    alloc: Global,
    firsts: &[Pair],
    seconds: &[Pair],
) -> Result<Triples, AllocError>
    requires { All (λ pair. pair.i < length firsts.now) seconds.now }
    ensures { IfOk result (λ triples. triples ≡ map (triple_at' firsts.now) seconds.now) }
{
    let mut triples = Triples::with_room(alloc, seconds.len())?;
    for pair in seconds {
        triples.push(triple_at(firsts, *pair))?;
    }
    Ok(triples)
}
