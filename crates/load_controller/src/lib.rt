//! The controller's machine, its journal, and what a lawful journal keeps to.
#![tactic(auto)]

mod asks_in_place;
mod controller;
mod decisions;
mod held_settles;
mod laws;
mod ledger;
mod line;
mod marks;
mod post;
mod stop;

pub use controller::Controller;
pub use laws::{
    each_has_settled, fits_again, migrates_seldom, start_fits, stays_near, waves_migrate_seldom,
};
pub use line::{Cause, Journal, TurnLine};
