//! The header and the rows of a join, as those of a table that can be joined again.
#![tactic(auto)]

mod names;
mod rows;

pub use names::joined_names;
pub use rows::joined_rows;
