//! What actors send one another: tuples, pairs and messages, each in an envelope; and the messages that wait at a
//! receiver.
#![tactic(auto)]

mod actor;
mod flags;
mod held;
mod message;
mod pairs;
mod tuple;

pub use actor::Actor;
pub use flags::{all_down, are_all_up, is_up};
pub use held::Held;
pub use message::{Envelope, Msg, Post, Sends, ToCollector, ToController, ToFeeder, ToJoiner};
pub use pairs::Pairs;
pub use tuple::{Counts, Pair, Tuple, Tuples};
