// The points that are drawn.

ghost use Rattle.std.specs.Prelude.{◌≡◌, All, IfOk};
ghost use Rattle.journal_picture.specs.Curve as of;
ghost use Rattle.journal_picture.specs.Curve.{IsAmong, IsCovered};

use crate::place::{column, height};
use crate::point::Point;
use row_cells::Items;
use std::alloc::{AllocError, Global};

/// The higher of two points, the first where they are as high.
fn higher(peak: Point, point: Point) -> Point
    ensures { result ≡ of.higher peak point }
{
    if height(point) <= height(peak) {
        peak
    } else {
        point
    }
}

/// What is drawn of points that follow one another in one column of pixels.
#[derive(Clone, Copy, Debug, PartialEq, Eq)]
pub struct Stretch {
    /// The first that is as high as each.
    pub highest: Point,
    pub last: Point,
}

/// A stretch with one point more.
fn with_point(stretch: Stretch, point: Point) -> Stretch
    ensures { result ≡ of.with_point stretch point }
{
    Stretch {
        highest: higher(stretch.highest, point),
        last: point,
    }
}

/// A point alone.
fn alone(point: Point) -> Stretch
    ensures { result ≡ of.alone point }
{
    Stretch {
        highest: point,
        last: point,
    }
}

/// The stretches of points, in their order, over an axis of so many rows. Where the points' rows never fall, as in a
/// journal, there are at most 601, one for each column.
pub fn stretches(alloc: Global, total: u64, points: &[Point]) -> Result<Items<Stretch>, AllocError>
    ensures is { IfOk result (λ stretches. stretches ≡ of.stretches_of total points.now) }
    ensures among { IfOk result (λ stretches. All (IsAmong points.now) stretches) }
    ensures highest { IfOk result (λ stretches. All (IsCovered total stretches) points.now) }
{
    let mut stretches = Items::new(alloc);
    let [first, rest @ ..] = points else {
        return Ok(stretches);
    };
    let mut stretch = alone(*first);
    for &point in rest {
        if column(total, point) == column(total, stretch.last) {
            stretch = with_point(stretch, point);
        } else {
            stretches.push(stretch)?;
            stretch = alone(point);
        }
    }
    stretches.push(stretch)?;
    Ok(stretches)
}

/// The greatest height of a point at which no step is under way, and of one at which a step is; 0 where there is none.
#[derive(Clone, Copy, Debug, PartialEq, Eq)]
pub struct Greatest {
    pub still: u128,
    pub moving: u128,
}

/// The greatest heights of points.
pub fn greatest_heights(points: &[Point]) -> Greatest
    ensures still { result.still ≡ of.greatest_still points.now }
    ensures moving { result.moving ≡ of.greatest_moving points.now }
{
    let mut still: u128 = 0;
    let mut moving: u128 = 0;
    for &point in points {
        if point.moving {
            moving = moving.max(height(point));
        } else {
            still = still.max(height(point));
        }
    }
    Greatest { still, moving }
}
