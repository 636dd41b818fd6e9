//! The actors of a run as one kind: their machines behind one type, their numbers and links, how each begins, and what
//! the last two of them answer.
#![tactic(auto)]

mod answers;
mod cast;
mod crossing;
mod endings;
mod laws;
mod leavings;
mod links;
mod machines;
mod rests;
mod start;
mod step;
mod wave_runs;
mod waves;

pub use answers::answer;
pub use cast::Cast;
pub use crossing::shares_predicates;
pub use endings::last_two;
pub use laws::{events_fit, first_cores_are_one, stands_beyond, stands_upto};
pub use leavings::machines_left;
pub use machines::Core;
pub use rests::{Rest, Stores, Upto};
pub use start::{core_at, joiners_of};
pub use step::Step;
pub use wave_runs::{WaveRun, wave_run};
pub use waves::cores_in_wave;
