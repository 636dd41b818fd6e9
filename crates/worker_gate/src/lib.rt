//! Gates that actors pass at each turn, by which a test sees two of them at work at one time, or how far a run has
//! come; what becomes of memory when a run ends; and how seats are dealt to workers.
#![tactic(auto)]

mod counting;
mod dealt_seats;
mod ending;
mod gate;
mod pair;
mod progress;

pub use counting::CountingGate;
pub use dealt_seats::standing_at;
pub use ending::{EarlierGate, LastGate};
pub use gate::{Gate, NoGate, Spot};
pub use pair::PairGate;
pub use progress::{ProgressGate, Screen};
