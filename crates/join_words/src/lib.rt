//! The words of the command line: what they ask for, or the first thing that is wrong with them.
#![tactic(auto)]

mod apart;
mod checks;
mod found;
mod kind;
mod laws;
mod names;
mod options;
mod process;
mod reading;
mod syntax;

pub use apart::Word;
pub use checks::words_apart;
pub use kind::{Chain, Grid, Kind, Wave};
pub use laws::requests_have_no_match;
pub use options::{Options, WordsError, WordsFault};
pub use process::command_words;
pub use reading::read_words;
pub use syntax::command;
