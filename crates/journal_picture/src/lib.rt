//! The journal of a run as a picture over time: the grid's load against the best, and each change of the grid, as one
//! SVG.
#![tactic(auto)]

mod axes;
mod changes;
mod curve;
mod drawing;
mod labels;
mod laws;
mod panel;
mod place;
mod point;
mod words;

pub use changes::{Step, steps, waves};
pub use curve::{Greatest, Stretch, greatest_heights, stretches};
pub use drawing::Drawing;
pub use laws::{each_line_has_its_point, points_stay_within};
pub use place::height;
pub use point::{Point, points};
