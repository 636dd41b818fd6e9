//! The report of a run as a picture: the grid's life, its load and its last joiners, as one SVG.
#![tactic(auto)]

mod error;
mod field;
mod find;
mod life;
mod load;
mod nearest;
mod read;
mod svg;
mod totals;
mod words;

pub use error::ReportError;
pub use read::read_report;
pub use svg::picture;
