// Whether a call made an event.

/// What became of a call that makes an event if it can.
#[derive(Clone, Copy, Debug, PartialEq, Eq)]
pub enum Step {
    /// One event was made.
    Took,
    /// There was nothing to do.
    Idle,
}
