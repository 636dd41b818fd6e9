// What every lawful journal keeps to.

ghost use Rattle.load_controller.specs.Laws.{EachHasSettled, FitsAgain, MigratesSeldom, StartFits, StaysNear, WavesMigrateSeldom};

/// A run's first line is one from which a controller can begin, so with it each other law speaks of a run.
pub fn start_fits()
    ensures { StartFits }
{}

/// Where no shift is fixed, each line of a lawful journal that isn't moving is near the best grid.
pub fn stays_near()
    ensures { StaysNear }
{}

/// A lawful journal has at most k migrations for each binary digit of its counts.
pub fn migrates_seldom()
    ensures { MigratesSeldom }
{}

/// A line that isn't moving is one from which a controller can begin, where the journal's first line
/// is one and its counts are at most 2^32.
pub fn fits_again()
    ensures { FitsAgain }
{}

/// Where a journal's last line isn't moving, each joiner has settled every epoch after the first.
pub fn each_has_settled()
    ensures { EachHasSettled }
{}

/// The waves of a run have together no more migrations and decisions than one with all their rows.
pub fn waves_migrate_seldom()
    ensures { WavesMigrateSeldom }
{}
