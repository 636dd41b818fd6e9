// What a grid costs: the tuples that all joiners hold together, each counting what a row of its side weighs.

ghost use Rattle.std.specs.Prelude.{◌≡◌, ◌≤◌, ◌^◌, ◌*◌, ◌⊎◌};
ghost use Rattle.grid_map.specs.Load as load;
ghost use Rattle.grid_map.specs.Load.{AreWeights, HasFewest, IsSmallest};

use crate::shape::{Shape, power};

/// What a row of R and a row of S weigh, each from 1 to 1,024.
#[derive(Clone, Copy, Debug, PartialEq, Eq)]
pub struct Weights {
    pub r: u32,
    pub s: u32,
}

// How many copies of weighed rows all joiners hold.
fn copies_of(shape: Shape, x: u64, y: u64) -> u64
    requires shift { shape.shift ≤ shape.k }
    requires k { shape.k ≤ 8 }
    requires x { x ≤ 2 ^ 42 }
    requires y { y ≤ 2 ^ 42 }
    ensures { result ≡ load.copies shape.k shape.shift x y }
{
    x * u64::from(power(shape.shift)) + y * u64::from(power(shape.k - shape.shift))
}

// So many rows of this weight.
fn weighed(weight: u32, rows: u64) -> u64
    requires weight { weight ≤ 2 ^ 10 }
    requires rows { rows ≤ 2 ^ 32 }
    ensures value { result ≡ weight * rows }
    ensures few { result ≤ 2 ^ 42 }
{
    u64::from(weight) * rows
}

/// How many copies of tuples all joiners hold, with `x` rows of R and `y` rows of S, each counting its weight: the
/// number of joiners times the load of the grid in the sense of Elseidy et al., PVLDB 7(6), 2014.
pub fn copies(shape: Shape, weights: Weights, x: u64, y: u64) -> u64
    requires shift { shape.shift ≤ shape.k }
    requires k { shape.k ≤ 8 }
    requires weights { AreWeights weights }
    requires x { x ≤ 2 ^ 32 }
    requires y { y ≤ 2 ^ 32 }
    ensures { result ≡ load.copies shape.k shape.shift (weights.r * x) (weights.s * y) }
{
    copies_of(shape, weighed(weights.r, x), weighed(weights.s, y))
}

// The smallest shift with the fewest copies.
fn smallest_best(k: u32, x: u64, y: u64) -> u32
    requires k { k ≤ 8 }
    requires x { x ≤ 2 ^ 42 }
    requires y { y ≤ 2 ^ 42 }
    ensures value { result ≡ load.smallest_best k k x y }
    ensures fewest { HasFewest k result x y }
    ensures smallest { IsSmallest k result x y }
{
    let mut best = 0;
    for below in 0..k {
        let shift = below + 1;
        let challenger = copies_of(Shape { k, shift }, x, y);
        if challenger < copies_of(Shape { k, shift: best }, x, y) {
            best = shift;
        }
    }
    best
}

// The shift with the fewest copies of weighed rows.
#[tactic(auto, using(crate::proofs::Best::as_few))]
fn best_of(shape: Shape, x: u64, y: u64) -> u32
    requires shift { shape.shift ≤ shape.k }
    requires k { shape.k ≤ 8 }
    requires x { x ≤ 2 ^ 42 }
    requires y { y ≤ 2 ^ 42 }
    ensures value { result ≡ load.best_shift shape.k shape.shift x y }
    ensures fewest { HasFewest shape.k result x y }
    ensures stays { HasFewest shape.k shape.shift x y → result ≡ shape.shift }
    ensures smallest { (result ≡ shape.shift) ⊎ IsSmallest shape.k result x y }
{
    let smallest = smallest_best(shape.k, x, y);
    let best = Shape {
        k: shape.k,
        shift: smallest,
    };
    if copies_of(shape, x, y) <= copies_of(best, x, y) {
        return shape.shift;
    }
    smallest
}

/// The shift with the fewest copies: the shape's own where it is among them, else the smallest.
pub fn best_shift(shape: Shape, weights: Weights, x: u64, y: u64) -> u32
    requires shift { shape.shift ≤ shape.k }
    requires k { shape.k ≤ 8 }
    requires weights { AreWeights weights }
    requires x { x ≤ 2 ^ 32 }
    requires y { y ≤ 2 ^ 32 }
    ensures value { result ≡ load.best_shift shape.k shape.shift (weights.r * x) (weights.s * y) }
    ensures fewest { HasFewest shape.k result (weights.r * x) (weights.s * y) }
    ensures stays { HasFewest shape.k shape.shift (weights.r * x) (weights.s * y)
        → result ≡ shape.shift }
    ensures smallest { (result ≡ shape.shift)
        ⊎ IsSmallest shape.k result (weights.r * x) (weights.s * y) }
{
    best_of(shape, weighed(weights.r, x), weighed(weights.s, y))
}
