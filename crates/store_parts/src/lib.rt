//! The tuples that a joiner holds, and the pairs that a tuple makes with them.
#![tactic(auto)]

mod band;
mod by_stamp;
mod copies;
mod counted_looks;
mod counted_steps;
mod half;
mod hashed;
mod index;
mod length_classes;
mod numbers;
mod ordered;
mod places;
mod probe;
mod stands;
mod store;
mod value_windows;

pub use by_stamp::Which;
pub use counted_looks::Looks;
pub use counted_steps::Steps;
pub use store::Store;
pub use theta_pred::{Access, KeyAtom};
