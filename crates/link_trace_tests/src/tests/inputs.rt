// The inputs and settings of the worked runs.

use grid_map::Weights;
use link_trace::{Input, Setting};
use row_tickets::Feed;
use run_inputs::input;
use std::alloc::{AllocError, Global};

/// Eight rows a side, each pair of which matches. At each shift each joiner holds equally many.
pub(super) fn eight_rows_a_side(alloc: Global) -> Result<Input, AllocError> {
    let numbers = b"01234567";
    input(
        alloc,
        "1 = 1",
        (numbers, &[0, 32, 64, 96, 128, 160, 192, 224]),
        (numbers, &[0, 1, 2, 3, 4, 5, 6, 7]),
    )
}

/// The same with 24 rows of R behind them.
pub(super) fn with_more_of_r(alloc: Global) -> Result<Input, AllocError> {
    let numbers = b"01234567abcdefghijklmnopqrstuvwx";
    let numbers_s = b"01234567";
    input(
        alloc,
        "1 = 1",
        (numbers, numbers),
        (numbers_s, &[0, 1, 2, 3, 4, 5, 6, 7]),
    )
}

pub(super) fn four_joiners() -> Setting {
    Setting {
        k: 2,
        feeders: 1,
        workers: 1,
        batch: 4,
        feed: Feed::RFirst,
        fixed: None,
        weights: Weights { r: 1, s: 1 },
    }
}
