//! What the words ask for, made ready to be joined: the texts of the predicates, the tables, the
//! columns and the numbers, or the first refusal.
#![tactic(auto)]

mod both_files;
mod columns;
mod continued;
mod fault;
mod files;
mod fitting;
mod headers;
mod later;
mod laws;
mod numbers;
mod order_of_refusals;
mod places;
mod predicate;
mod reading;
mod refusal_of_fault;
mod rows;
mod text;
mod waves;

pub use fault::{InputFault, LimitFault, Refusal, TextFault};
pub use files::{Gathered, Tables};
pub use fitting::{Planned, Third};
pub use laws::requests_have_one_plan;
pub use order_of_refusals::prepare;
pub use refusal_of_fault::Which;
pub use waves::{WaveEnd, WaveEnds};
