//! The report of a run as a value, and its text.
#![tactic(auto)]

mod report_numbers;
mod text_of_each_line;

pub use report_numbers::{Growth, Joiner, Joiners, Report, Step, Steps};
