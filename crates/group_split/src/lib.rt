//! A join with any number of joiners, in groups: each row of R goes to one group, S goes to every group.
#![tactic(auto)]

mod draws;
mod join;
mod pairing;
mod parts;
mod sizing;

pub use draws::numbers;
pub use join::{GroupsRun, Runs, run_groups};
pub use parts::part;
pub use sizing::{digits, group_of, sizes};
