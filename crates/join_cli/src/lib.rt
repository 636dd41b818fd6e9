//! The top call of `jm`: the words, two files, a predicate, the run of their join, and the output.
#![tactic(auto)]

mod after_early_lines;
mod chain;
mod conclude;
mod entry;
mod exit_status;
mod groups;
mod growth;
mod growth_output;
mod in_one;
mod input;
mod laws;
mod outcome;
mod output;
mod program;
mod rings;
mod run;
mod text;
mod texts;
mod top;
mod wave_output;
mod waves;
mod work;
mod work_of_groups;

pub use entry::{Ended, jm_program};
pub use join_plan::{InputFault, LimitFault, TextFault};
pub use join_words::{WordsFault, command_words};
pub use laws::{fixed_output_is_one, past_is_too_long};
pub use outcome::{Journals, Outcome};
pub use program::{exit_code, jm_main, tell};
pub use top::join_main;
