// What the feeders of a run haven't sent.

use crate::bouts::RingSeats;

impl<'a> RingSeats<'a> {
    // How many batches are left to all feeders together. A sum past 2^64 - 1 stays there.
    pub(crate) fn batches_left(&self) -> u64 {
        let mut left = 0u64;
        for seat in &self.seats {
            left = left.saturating_add(seat.batches_left());
        }
        left
    }
}
