//! Growth at rest: each joiner of a grid splits into four.
#![tactic(auto)]

mod copies;
mod growing;
mod laws;
mod split;
mod whole;

pub use growing::grow;
pub use laws::{children_hold, each_has_one_parent};
pub use split::children;
