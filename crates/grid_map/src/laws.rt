// What the costs keep to.

ghost use Rattle.grid_map.specs.Load.{StaysNear};

/// A shift that was best stays near the best until a side has doubled.
pub fn stays_near()
    ensures { StaysNear }
{}
