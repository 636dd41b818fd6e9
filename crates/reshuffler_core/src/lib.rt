//! A feeder: it asks for its rows batch by batch, sends the granted ones to the joiners that hold
//! them, and follows the controller's orders.
#![tactic(auto)]

mod feeder;
mod sending;

pub use feeder::Feeder;
