//! A chain of three relations: R is joined with S, and the joined rows with Q, each by a run in threads.
#![tactic(auto)]

mod chain;
mod second;
mod triples;

pub use chain::{ChainFault, ChainRun, run_chain};
pub use joined_rows::joined_names;
pub use second::Third;
pub use triples::{Triple, Triples};
