//! That `jm-why` says of words and files what `jm` says of them.
#![tactic(auto)]

mod laws;

pub use laws::verdicts_agree;
