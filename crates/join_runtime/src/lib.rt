//! Seats, each an actor's machine with its inbox and its mouths; their turns, and bouts of turns side by side in
//! threads.
#![tactic(auto)]

mod ahead;
mod bouts;
mod early_lines;
mod ends;
mod fresh;
mod gathered;
mod kept;
mod left;
mod mouths;
mod runs;
mod seat;
mod seating;
mod started;
mod turns_side_by_side;

pub use actor_core::{Rest, Upto, WaveRun};
pub use bouts::{Seats, bout};
pub use early_lines::{EarlyFault, run_early};
pub use ends::{End, Ends, Told, Trail, WaveTold};
pub use runs::{run, run_wave};
pub use seat::Seat;
