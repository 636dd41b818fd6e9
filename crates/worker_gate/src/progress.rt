// A gate that shows how far a run has come.

use crate::gate::{Gate, Spot};
use std::sync::atomic::{AtomicU64, Ordering};

/// What shows a text at once, as a terminal does.
pub trait Screen: Sync {
    fn show(&self, text: &[u8]);
}

// No percentage.
const NONE: u64 = 101;

// The length of the line that is shown.
const WIDTH: usize = 14;

/// A gate that stands open, and shows on a screen which part of the batches were sent, in whole percents, each once as
/// it comes. The line ends in a carriage return, so that whatever is shown next stands over it; where all were sent the
/// line is blank.
#[derive(Drop)]
pub struct ProgressGate<S> {
    screen: S,
    shown: AtomicU64,
}

impl<S: Screen> ProgressGate<S> {
    /// A gate that has shown nothing.
    pub fn new(screen: S) -> ProgressGate<S> {
        ProgressGate {
            screen,
            shown: AtomicU64::new(NONE),
        }
    }
}

// The whole percents of a part, at most 100; of nothing all.
fn percents(part: u64, whole: u64) -> u64 {
    if part >= whole {
        return 100;
    }
    match part.checked_mul(100) {
        Some(hundredfold) => hundredfold / whole,
        None => part / (whole / 100),
    }
}

// The digit with this value.
fn digit(value: u64) -> u8 {
    b'0' + (value % 10) as u8
}

// The line of a percentage below 100.
fn line(percents: u64) -> [u8; WIDTH] {
    let mut line = *b"jm:  0 % done\r";
    if percents >= 10 {
        line[4] = digit(percents / 10);
    }
    line[5] = digit(percents);
    line
}

impl<S: Screen> Gate for ProgressGate<S> {
    fn pass(&self, _spot: Spot) {}

    fn fed(&self, sent: u64, batches: u64) {
        let percents = percents(sent, batches);
        if self.shown.swap(percents, Ordering::SeqCst) == percents {
            return;
        }
        if percents < 100 {
            self.screen.show(&line(percents));
        } else {
            self.screen.show(b"             \r");
        }
    }
}
