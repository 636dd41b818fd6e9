//! Rings between two actors, whose calls wait for nothing, and outlets, in which messages wait for a place in a ring.
#![tactic(auto)]

mod ends;
mod outlet;

pub use ends::{RingIn, RingOut, beside, ring};
pub use outlet::Outlet;
