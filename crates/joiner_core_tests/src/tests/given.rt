// What a joiner is given, as a line.

ghost use Rattle.std.specs.Prelude.{◌≡◌, length, IfOk};

use epoch_tags::{Actor, ToJoiner, Tuple};
use row_cells::{Cell, Cells, Side};
use std::alloc::{AllocError, Global};

pub(super) fn number(word: &str) -> u32 {
    word.parse::<u32>().unwrap_or(0)
}

fn side(word: &str) -> Side {
    if word == "R" { Side::R } else { Side::S }
}

// A row of one cell, whose number is the row's index.
pub(super) fn row(
    alloc: Global,
    side: Side,
    index: u32,
    ticket: u8,
    stamp: u32,
) -> Result<Tuple, AllocError>
    ensures width { IfOk result (λ tuple. length tuple.cells ≡ 1) }
    ensures stamp { IfOk result (λ tuple. tuple.stamp ≡ stamp) }
{
    let mut cells = Cells::new(alloc);
    cells.push(Cell::decimal(alloc, u64::from(index))?)?;
    Ok(Tuple {
        side,
        index,
        ticket,
        stamp,
        cells,
    })
}

fn row_of(
    alloc: Global,
    of: &str,
    index: &str,
    ticket: &str,
    stamp: &str,
) -> Result<Tuple, AllocError> {
    row(
        alloc,
        side(of),
        number(index),
        ticket.parse::<u8>().unwrap_or(0),
        number(stamp),
    )
}

// The feeder or joiner of a word, as feeder_0.
pub(super) fn sender(word: &str) -> Actor {
    match word.split_once('_') {
        Some(("feeder", id)) => Actor::Feeder(number(id)),
        Some((_, id)) => Actor::Joiner(number(id)),
        None => Actor::Collector,
    }
}

// A row has its side, index, ticket and stamp; one that the partner moves has the epoch before these.
pub(super) fn message(alloc: Global, words: &[&str]) -> Result<ToJoiner, AllocError> {
    match *words {
        [_, "row", of, index, ticket, stamp] => {
            let tuple = row_of(alloc, of, index, ticket, stamp)?;
            Ok(ToJoiner::Tup(tuple))
        }
        [_, "moved", epoch, of, index, ticket, stamp] => {
            let tuple = row_of(alloc, of, index, ticket, stamp)?;
            Ok(ToJoiner::Moved {
                epoch: number(epoch),
                tuple,
            })
        }
        [_, "turn", epoch, shift] => Ok(ToJoiner::Turn {
            epoch: number(epoch),
            shift: number(shift),
        }),
        [_, "moved_end", epoch] => Ok(ToJoiner::MovedEnd {
            epoch: number(epoch),
        }),
        _ => Ok(ToJoiner::End),
    }
}
