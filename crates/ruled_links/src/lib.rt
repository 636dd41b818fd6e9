//! Ordered links between two actors, and inboxes with several senders, each over one queue that keeps a rule.
#![tactic(auto)]

mod delivery;
mod ends;
mod mailbox;
mod opening;
mod parts;
mod rule;

pub use ends::{In, Out, gather, link};
pub use mailbox::{Inbox, Mouth, gather_mouth};
pub use opening::{Actors, Mouths, inbox};
