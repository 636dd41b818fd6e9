// The points of a journal.

ghost use Rattle.std.specs.Prelude.{◌≡◌, ◌≤◌, ◌*◌, ◌^◌, ℕ, All, IfOk, IsTrue};
ghost use Rattle.grid_map.specs.Load.{AreWeights, copies};
ghost use Rattle.journal_picture.specs.Points as of;
ghost use Rattle.journal_picture.specs.Bound.{AreNear, IsWithin};

use grid_map::{Shape, Weights, best_shift, copies};
use load_controller::TurnLine;
use row_cells::Items;
use std::alloc::{AllocError, Global};

/// What is drawn of a line of a journal.
#[derive(Clone, Copy, Debug, PartialEq, Eq)]
pub struct Point {
    /// How many rows of both sides were counted.
    pub rows: u64,
    /// How many copies of rows all joiners hold, each counting what a row of its side weighs.
    pub load: u64,
    /// The least load of a grid of as many joiners for the same rows.
    pub best: u64,
    /// How many steps have begun.
    pub epoch: u32,
    pub shift: u32,
    /// Whether a step is under way.
    pub moving: bool,
}

// The most rows of a side for which a load is told.
const MOST_ROWS: u64 = 1 << 32;

/// A line is of a grid of 2^k joiners, and counts rows of which the load is told.
fn has_point(k: u32, line: TurnLine) -> bool
    ensures is { result ≡ of.has_point k line }
    ensures shift { IsTrue result → line.shift ≤ k }
    ensures rows_r { IsTrue result → line.rows_r ≤ 2 ^ 32 }
    ensures rows_s { IsTrue result → line.rows_s ≤ 2 ^ 32 }
{
    line.shift <= k
        && line.rows_r <= MOST_ROWS
        && line.rows_s <= MOST_ROWS
        && 0 < line.rows_r + line.rows_s
}

/// The point of a line.
fn point_of(k: u32, weights: Weights, line: TurnLine) -> Point
    requires k { k ≤ 8 }
    requires weights { AreWeights weights }
    requires shift { line.shift ≤ k }
    requires rows_r { line.rows_r ≤ 2 ^ 32 }
    requires rows_s { line.rows_s ≤ 2 ^ 32 }
    ensures is { result ≡ of.point_of k weights line }
    ensures least { (shift : ℕ) → shift ≤ k
        → result.best ≤ copies k shift (weights.r * line.rows_r) (weights.s * line.rows_s) }
{
    let shape = Shape {
        k,
        shift: line.shift,
    };
    let best = Shape {
        k,
        shift: best_shift(shape, weights, line.rows_r, line.rows_s),
    };
    Point {
        rows: line.rows_r + line.rows_s,
        load: copies(shape, weights, line.rows_r, line.rows_s),
        best: copies(best, weights, line.rows_r, line.rows_s),
        epoch: line.epoch,
        shift: line.shift,
        moving: line.moving,
    }
}

/// The points of a journal of 2^k joiners, in its order: one for each line that counts a row. A line that no grid of so
/// many joiners has, or of more than 2^32 rows of a side, has none. Where each line that isn't moving is near the
/// best grid, four times the load of a point that isn't moving is at most five times the best.
pub fn points(
    alloc: Global,
    k: u32,
    weights: Weights,
    journal: &[TurnLine],
) -> Result<Items<Point>, AllocError>
    requires k { k ≤ 8 }
    requires weights { AreWeights weights }
    ensures is { IfOk result (λ points. points ≡ of.points_of k weights journal.now) }
    ensures near { AreNear k weights journal.now → IfOk result (All IsWithin) }
{
    let mut points = Items::new(alloc);
    for &line in journal {
        if has_point(k, line) {
            points.push(point_of(k, weights, line))?;
        }
    }
    Ok(points)
}
