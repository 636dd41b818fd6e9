// The messages of each kind of actor.

use crate::actor::Actor;
use crate::pairs::Pairs;
use crate::tuple::{Counts, Tuple};
use row_cells::Items;

/// A message to a joiner.
#[derive(Drop)]
pub enum ToJoiner {
    /// A row, from a feeder.
    Tup(Tuple),
    /// From here on the feeder's rows are of this epoch and go by this shift.
    Turn { epoch: u32, shift: u32 },
    /// The feeder sends nothing more.
    End,
    /// A stored row, from the partner of the step to this epoch.
    Moved { epoch: u32, tuple: Tuple },
    /// The partner moves nothing more in the step to this epoch.
    MovedEnd { epoch: u32 },
}

/// A message to a feeder.
#[derive(Clone, Copy, Debug, PartialEq, Eq)]
pub enum ToFeeder {
    /// A step to this epoch and shift begins.
    Order { epoch: u32, shift: u32 },
    /// The batch that was asked for may be sent.
    Grant,
    /// No step will come any more.
    Stop,
}

/// A message to the controller.
#[derive(Clone, Copy, Debug, PartialEq, Eq)]
pub enum ToController {
    /// A feeder wants to send a batch of so many rows of R and of S.
    Ask { dr: u32, ds: u32 },
    /// A feeder has sent its last batch.
    Drained,
    /// A joiner has all that it holds in this epoch.
    Settled { epoch: u32 },
}

/// A message to the collector.
#[derive(Drop)]
pub enum ToCollector {
    /// Pairs that a joiner found.
    Found(Pairs),
    /// A joiner's last message: the rows that it holds, and how many it moved in each step.
    Fin {
        rows_r: u64,
        rows_s: u64,
        moved: Counts,
    },
}

/// A message to any actor.
#[derive(Drop)]
pub enum Msg {
    Joiner(ToJoiner),
    Feeder(ToFeeder),
    Controller(ToController),
    Collector(ToCollector),
}

/// A message with its sender.
#[derive(Drop)]
pub struct Envelope {
    pub from: Actor,
    pub msg: Msg,
}

/// A message with its receiver.
#[derive(Drop)]
pub struct Post {
    pub to: Actor,
    pub msg: Msg,
}

pub type Sends = Items<Post>;
