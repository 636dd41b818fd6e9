// The tickets of a side's first rows.

ghost use Rattle.std.specs.Prelude.{◌≡◌, IfOk, map};
ghost use Rattle.std.specs.List.{range_with_len};
ghost use Rattle.row_tickets.specs.Tickets.{ticket_of};

use crate::generator::Tickets;
use row_cells::{Bytes, Side};
use std::alloc::{AllocError, Global};

/// The tickets of the first `count` rows of a side.
pub fn tickets(alloc: Global, seed: u64, side: Side, count: u64) -> Result<Bytes, AllocError>
    ensures { IfOk result (λ drawn. drawn ≡ map (ticket_of seed side) (range_with_len 0 count)) }
{
    let mut from = Tickets::at(seed, side, 0);
    let mut drawn = Bytes::new(alloc);
    for _i in 0..count {
        drawn.push(from.draw())?;
    }
    Ok(drawn)
}
