// Pairs of rows, which contracts see as a list.

use crate::tuple::Pair;
use row_cells::Few;

/// A list of pairs in their order. As long as there are two at most they lie within it, so that a row with few matches
/// needs no memory for them.
pub type Pairs = Few<Pair>;
