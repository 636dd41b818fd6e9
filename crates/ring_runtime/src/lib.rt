//! Seats, each an actor's machine with the ends of its rings and what waits for them, and runs over them; no call of
//! theirs can wait.
#![tactic(auto)]

mod bouts;
mod ends;
mod holding;
mod inlets;
mod left;
mod outlets;
mod runs;
mod seat;
mod seating;
mod slots;
mod turns_side_by_side;
mod wiring;

pub use bouts::{RingSeats, ring_bout};
pub use ends::{RingEnd, RingEnds, RingRun};
pub use inlets::Inlets;
pub use outlets::Outlets;
pub use ring_links::{Outlet, RingIn, RingOut, beside, ring};
pub use runs::ring_run;
pub use seat::{RingSeat, RingStep};
