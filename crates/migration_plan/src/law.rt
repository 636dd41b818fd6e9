// What a step does to what the joiners hold.

ghost use Rattle.migration_plan.specs.Laws.{OneStep};

/// In a step a joiner keeps what it held of the exchanged side and gets what its partner held of it,
/// which is nothing of its own; of the other side it keeps a part.
pub fn one_step()
    ensures { OneStep }
{}
