// Laws of seats. Each is the contract of a function that does nothing, so that calls above can cite it.

ghost use Rattle.seats_law.specs.Agreement.{RingSeatsAgree, SeatsAgree};

/// The lists of seats that stand for a task, with what was received on each link a front of what was sent, are an
/// agreeing family of it. `join_runtime::bout` promises both after each bout.
pub fn seats_agree()
    ensures { SeatsAgree }
{}

/// The same of the seats of a run over rings, and of `ring_runtime::bout`.
pub fn ring_seats_agree()
    ensures { RingSeatsAgree }
{}
