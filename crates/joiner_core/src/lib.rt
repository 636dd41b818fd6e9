//! The joiner: it tells apart old, late, new and moved rows in whatever order messages come.
#![tactic(auto)]

mod epochs;
mod joiner;
mod machine;
mod stock;

pub use joiner::{Joiner, beginnings_are_one, first_store};
