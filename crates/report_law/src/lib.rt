//! That `report_picture` reads what `join_report` writes of a run.
#![tactic(auto)]

mod laws;

pub use laws::{grown_reports_are_read, reportable_is_read, reports_are_read};
