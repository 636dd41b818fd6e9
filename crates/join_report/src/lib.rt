//! The texts of an output: the pairs, their rows, or a summary of them, and the report of a run, in one grid or in one
//! that grew; the numbers of its waves, added up; and a text put into a sink piece by piece.
#![tactic(auto)]

mod grids;
mod pairs;
mod put;
mod rows;
mod summary_of_pairs;
mod told;
mod waves;

pub use pairs::pairs_text;
pub use put::put_all;
pub use rows::rows_text;
pub use summary_of_pairs::summary_text;
pub use told::{GrownRun, grown_report_text, report_of_grown_run, report_of_run, report_text};
pub use waves::sum_counts;
