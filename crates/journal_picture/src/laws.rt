// What the points of every lawful journal keep to.

ghost use Rattle.journal_picture.specs.Bound.{StaysWithin};
ghost use Rattle.journal_picture.specs.Points.{EachHasItsPoint};

/// Where no shift is fixed, four times the load of each point of a lawful journal at which no step is under way is at
/// most five times the best.
pub fn points_stay_within()
    ensures { StaysWithin }
{}

/// Of a lawful journal that counts at most 2^32 rows of a side, each line that counts a row has a point.
pub fn each_line_has_its_point()
    ensures { EachHasItsPoint }
{}
