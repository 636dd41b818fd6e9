// The grids of a run, of which its journal tells.

ghost use Rattle.std.specs.Prelude.{◌≡◌, ◌≤◌, ◌*◌, ◌^◌, ℕ};
ghost use Rattle.grid_map.specs.Grid.{columns as columns', rows as rows'};
ghost use Rattle.grid_map.specs.Load.{AreWeights};
ghost use Rattle.load_controller.specs.Journal.{last_epoch as last_epoch', shift_at as shift_at'};
ghost use Rattle.trace_law.specs.Validity.{IsValidSetting};
ghost use Rattle.join_report.specs.Report.{AreWithin, first_shift, last_shift_from};
ghost use Rattle.join_report.specs.Report.{least_copies as least_copies'};

use grid_map::{Shape, Weights, best_shift, copies};
use load_controller::Journal;
use trace_law::Setting;

/// The shift of the lines of an epoch: that of the first of them, or `first` where there is none.
pub(crate) fn shift_at(journal: &Journal, first: u32, epoch: u32) -> u32
    ensures shift { result ≡ shift_at' first epoch journal.now }
    ensures within { (k : ℕ) → first ≤ k → AreWithin k journal.now → result ≤ k }
{
    for line in journal.as_slice() {
        if line.epoch == epoch {
            return line.shift;
        }
    }
    first
}

/// The last epoch, 0 where there is no line.
fn last_epoch(journal: &Journal) -> u32
    ensures { result ≡ last_epoch' journal.now }
{
    let mut epoch = 0;
    for line in journal.as_slice() {
        epoch = line.epoch;
    }
    epoch
}

/// The grid of the first epoch.
pub(crate) fn first_grid(setting: &Setting) -> Shape
    requires { IsValidSetting setting.now }
    ensures k { result.k ≡ setting.now.k }
    ensures shift { result.shift ≡ first_shift setting.now }
    ensures within { result.shift ≤ setting.now.k }
{
    Shape {
        k: setting.k,
        shift: setting.fixed.unwrap_or(setting.k / 2),
    }
}

/// The grid of the last epoch of waves that begin at this one.
pub(crate) fn last_grid(first: Shape, journal: &Journal) -> Shape
    requires first { first.shift ≤ first.k }
    requires shifts { AreWithin first.k journal.now }
    ensures k { result.k ≡ first.k }
    ensures shift { result.shift ≡ last_shift_from first.shift journal.now }
    ensures within { result.shift ≤ first.k }
{
    Shape {
        k: first.k,
        shift: shift_at(journal, first.shift, last_epoch(journal)),
    }
}

/// Two to this power.
fn power(exponent: u32) -> u64
    requires { exponent ≤ 8 }
    ensures { result ≡ 2 ^ exponent }
{
    1 << exponent
}

/// How many rows a grid has.
pub(crate) fn rows(shape: Shape) -> u64
    requires shift { shape.shift ≤ shape.k }
    requires k { shape.k ≤ 8 }
    ensures { result ≡ rows' shape.k shape.shift }
{
    power(shape.k - shape.shift)
}

/// How many columns it has.
pub(crate) fn columns(shape: Shape) -> u64
    requires shift { shape.shift ≤ shape.k }
    requires k { shape.k ≤ 8 }
    ensures { result ≡ columns' shape.shift }
{
    power(shape.shift)
}

/// The fewest copies at any shift.
pub(crate) fn least_copies(shape: Shape, weights: Weights, x: u64, y: u64) -> u64
    requires shift { shape.shift ≤ shape.k }
    requires k { shape.k ≤ 8 }
    requires weights { AreWeights weights }
    requires x { x ≤ 2 ^ 32 }
    requires y { y ≤ 2 ^ 32 }
    ensures { result ≡ least_copies' shape.k shape.shift (weights.r * x) (weights.s * y) }
{
    let shift = best_shift(shape, weights, x, y);
    copies(Shape { k: shape.k, shift }, weights, x, y)
}
