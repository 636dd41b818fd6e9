//! Predicates over the rows of two tables: names become places, and the truth is computed.
#![tactic(auto)]

mod access;
mod agree;
mod atom;
mod bounds;
mod copies;
mod fault;
mod key;
mod kind;
mod named;
mod numeric;
mod one_sided;
mod range;
mod resolver;
mod short;
mod spans;
mod suffice;
mod sums;
mod terms;
mod text_atom;
mod theta;
mod tree;
mod tree_agreements;
mod tree_spans;
mod truth;

pub use access::ways_are_one;
pub use agree::{Access, Alone, Interval, Range, Same, Sames, SumPair};
pub use atom::{KeyAtom, Linear, Part, Parts};
pub use fault::ResolveFault;
pub use resolver::resolve;
pub use short::longest_sum;
pub use text_atom::TextAtom;
pub use theta::Theta;
pub use theta_tree::{Name, Op, Pred, Signed, Sum, Term, TextSide};
pub use tree::{Column, Columns};
