//! The tree of a predicate, the grammar by which a text reads as one, and the faults of a text that doesn't.
#![tactic(auto)]

mod fault;
mod token;
mod tree;

pub use fault::PredFault;
pub use token::{Keyword, Placed, Token};
pub use tree::{Name, Op, Pred, Signed, Sum, Term, TextSide};
