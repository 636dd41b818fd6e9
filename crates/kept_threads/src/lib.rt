//! A pool of threads that are kept between rounds of work. In each round they own items while they work on them, and
//! then hand them back.
#![tactic(auto)]

mod job;
mod pool;
mod signal;
mod task;
mod worker;

pub use pool::Pool;
pub use signal::Signals;
pub use task::Task;
