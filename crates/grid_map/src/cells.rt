// Which joiner holds which ticket. Joiners are numbered row by row, from 0.

ghost use Rattle.std.specs.Prelude.{◌≡◌, ◌<◌, ◌≤◌, ◌-◌, ◌^◌, ◌==◌, ◌&&◌, ℕ};
ghost use Rattle.grid_map.specs.Grid as grid;

use crate::shape::{Shape, power};

/// The row of a ticket of R, from 0 to 2^(k - shift) - 1: the ticket's highest bits.
#[tactic(auto, using(crate::proofs::Halves::high_row))]
pub fn row_of(shape: Shape, ticket: u8) -> u32
    requires shift { shape.shift ≤ shape.k }
    requires k { shape.k ≤ 8 }
    ensures value { result ≡ grid.row_of shape.k shape.shift ticket }
    ensures below { result < 2 ^ (shape.k - shape.shift) }
{
    u32::from(ticket) >> (8 - (shape.k - shape.shift))
}

/// The column of a ticket of S, from 0 to 2^shift - 1: the ticket's lowest bits.
pub fn col_of(shape: Shape, ticket: u8) -> u32
    requires shift { shape.shift ≤ shape.k }
    requires k { shape.k ≤ 8 }
    ensures value { result ≡ grid.column_of shape.shift ticket }
    ensures below { result < 2 ^ shape.shift }
{
    u32::from(ticket) % power(shape.shift)
}

/// Whether the joiner stands in the ticket's row.
pub fn holds_r(shape: Shape, id: u32, ticket: u8) -> bool
    requires shift { shape.shift ≤ shape.k }
    requires k { shape.k ≤ 8 }
    requires id { id < 2 ^ shape.k }
    ensures { result ≡ grid.holds_r shape.k shape.shift id ticket }
{
    id >> shape.shift == row_of(shape, ticket)
}

/// Whether the joiner stands in the ticket's column.
pub fn holds_s(shape: Shape, id: u32, ticket: u8) -> bool
    requires shift { shape.shift ≤ shape.k }
    requires k { shape.k ≤ 8 }
    requires id { id < 2 ^ shape.k }
    ensures { result ≡ grid.holds_s shape.shift id ticket }
{
    id % power(shape.shift) == col_of(shape, ticket)
}

/// The one joiner that holds both a row of R with ticket `t` and a row of S with ticket `u`.
#[tactic(auto, using(crate::proofs::Halves::meets, crate::proofs::Halves::meet_below))]
pub fn meet(shape: Shape, t: u8, u: u8) -> u32
    requires shift { shape.shift ≤ shape.k }
    requires k { shape.k ≤ 8 }
    ensures value { result ≡ grid.meet shape.k shape.shift t u }
    ensures below { result < 2 ^ shape.k }
    ensures alone { (id : ℕ)
        → (grid.holds_r shape.k shape.shift id t && grid.holds_s shape.shift id u)
        ≡ (id == result) }
{
    row_of(shape, t) * power(shape.shift) + col_of(shape, u)
}

/// The joiner with whom `id` exchanges rows in the step between the shifts `low` and `low + 1`.
#[tactic(auto, using(crate::proofs::Halves::partner_below, crate::proofs::Halves::back_again))]
pub fn partner(k: u32, low: u32, id: u32) -> u32
    requires low { low < k }
    requires k { k ≤ 8 }
    requires id { id < 2 ^ k }
    ensures value { result ≡ grid.partner low id }
    ensures below { result < 2 ^ k }
    ensures back { grid.partner low result ≡ id }
{
    id ^ power(low)
}
