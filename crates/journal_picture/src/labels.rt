// Where the labels of steps stand, so that none covers another.

use crate::changes::Step;
use crate::place::{across, rows};

/// How wide a step's label is, with the room behind it.
const WIDTH: u128 = 112;

/// The labels placed so far: the lane of the last, counted from the top, how many lanes there are, and how far to the
/// right a label reaches.
#[derive(Clone, Copy)]
pub(crate) struct Labels {
    pub(crate) lane: u64,
    pub(crate) lanes: u64,
    reach: u128,
}

impl Labels {
    /// No label yet.
    pub(crate) fn none() -> Labels {
        Labels {
            lane: 0,
            lanes: 0,
            reach: 0,
        }
    }

    /// One label more, at this place. Where an earlier one reaches that far it stands a lane below the last, so that
    /// no line from a label down to its step crosses another label.
    pub(crate) fn with(self, place: u128) -> Labels {
        let lane = if self.reach <= place {
            0
        } else {
            self.lane.saturating_add(1)
        };
        Labels {
            lane,
            lanes: self.lanes.max(lane.saturating_add(1)),
            reach: self.reach.max(place.saturating_add(WIDTH)),
        }
    }
}

/// How many lanes the labels of these steps take.
pub(crate) fn lanes(total: u64, steps: &[Step]) -> u64 {
    let mut labels = Labels::none();
    for step in steps {
        labels = labels.with(across(total, rows(step.begun)));
    }
    labels.lanes
}
