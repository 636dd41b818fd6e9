//! That the lists of all seats of a run agree, after each bout.
#![tactic(auto)]

mod laws;

pub use laws::{ring_seats_agree, seats_agree};
