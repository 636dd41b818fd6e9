//! The tickets that place rows in the grid, and the rows that each feeder has.
#![tactic(auto)]

mod deal;
mod draws;
mod generator;
mod place;

pub use deal::share;
pub use draws::tickets;
pub use generator::Tickets;
pub use place::{Feed, Place, Share};
