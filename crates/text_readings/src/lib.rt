//! That each text reads as a predicate or as a fault, and in one way.
#![tactic(auto)]

mod laws;

pub use laws::{every_text_reads, texts_read_one_way};
