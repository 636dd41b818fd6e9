//! What `jm` would make of its words and files, and in plain words why it would refuse them.
#![tactic(auto)]

mod cause;
mod file;
mod kept;
mod lines;
mod lookup;
mod near;
mod plan;
mod predicate;
mod program;
mod reasons;
mod shown;
mod source;
mod verdict;
mod words;

pub use cause::cause_of;
pub use kept::{Keeps, KeptFile, KeptShelf};
pub use program::why_program;
pub use reasons::explain;
pub use verdict::{Verdict, judge};
