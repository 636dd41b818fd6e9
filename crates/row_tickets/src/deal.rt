// The rows that a feeder has, dealt out to the feeders in turn.

ghost use Rattle.std.specs.Prelude.{◌≡◌, ◌^◌, ◌<◌, ◌≤◌, ◌++◌, max, flat_map, IfOk, OnOk};
ghost use Rattle.row_tickets.specs.Share.{share, share_of, both_at, indices};

use crate::place::{Feed, Place, Share};
use row_cells::Side;
use std::alloc::{AllocError, Global};

/// The rows of feeder `p`: those whose index leaves `p` when divided by the number of feeders.
pub fn share(
    alloc: Global,
    feed: Feed,
    feeders: u32,
    p: u32,
    rows_r: u64,
    rows_s: u64,
) -> Result<Share, AllocError>
    requires feeder { p < feeders }
    requires rows_r { rows_r ≤ 2 ^ 18 }
    requires rows_s { rows_s ≤ 2 ^ 18 }
    ensures { IfOk result (λ places. places ≡ share feed feeders p rows_r rows_s) }
{
    let mut places = Share::new(alloc);
    match feed {
        Feed::Alternate => add_both(&mut places, feeders, p, rows_r, rows_s)?,
        Feed::RFirst => {
            add_side(&mut places, feeders, p, Side::R, rows_r)?;
            add_side(&mut places, feeders, p, Side::S, rows_s)?;
        }
        Feed::SFirst => {
            add_side(&mut places, feeders, p, Side::S, rows_s)?;
            add_side(&mut places, feeders, p, Side::R, rows_r)?;
        }
    }
    Ok(places)
}

fn add_side(
    places: &mut Share,
    feeders: u32,
    p: u32,
    side: Side,
    rows: u64,
) -> Result<(), AllocError>
    requires feeder { p < feeders }
    requires rows { rows ≤ 2 ^ 18 }
    ensures { OnOk result (places.new ≡ places.old ++ share_of feeders p side rows) }
{
    let mut i = u64::from(p);
    'rows: while i < rows {
        places.push(Place {
            side,
            index: i as u32,
        })?;
        i += u64::from(feeders);
    }
    Ok(())
}

fn add_both(
    places: &mut Share,
    feeders: u32,
    p: u32,
    rows_r: u64,
    rows_s: u64,
) -> Result<(), AllocError>
    requires feeder { p < feeders }
    requires rows_r { rows_r ≤ 2 ^ 18 }
    requires rows_s { rows_s ≤ 2 ^ 18 }
    ensures { OnOk result
        (places.new
        ≡ places.old ++ flat_map (both_at rows_r rows_s) (indices feeders p (max rows_r rows_s))) }
{
    let rows = rows_r.max(rows_s);
    let mut i = u64::from(p);
    'rows: while i < rows {
        add_index(places, i, rows_r, rows_s)?;
        i += u64::from(feeders);
    }
    Ok(())
}

fn add_index(places: &mut Share, i: u64, rows_r: u64, rows_s: u64) -> Result<(), AllocError>
    requires { i < 2 ^ 18 }
    ensures { OnOk result (places.new ≡ places.old ++ both_at rows_r rows_s i) }
{
    let index = i as u32;
    if i < rows_r {
        places.push(Place {
            side: Side::R,
            index,
        })?;
    }
    if i < rows_s {
        places.push(Place {
            side: Side::S,
            index,
        })?;
    }
    Ok(())
}
