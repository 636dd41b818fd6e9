// Who sends and receives.

/// An actor of a run. Feeders and joiners are numbered from 0.
#[derive(Clone, Copy, Debug, PartialEq, Eq)]
pub enum Actor {
    Feeder(u32),
    Joiner(u32),
    Controller,
    Collector,
}
