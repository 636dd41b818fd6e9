use epoch_tags::{Counts, Held, Pair, Pairs, Tuple, all_down, are_all_up, is_up};
use row_cells::{Cell, Cells, Side};
use std::test::Fail;

#[test]
fn a_copy_has_all_of_its_tuple(rt: HostRuntime) -> Result<(), Fail> {
    let alloc = rt.alloc();
    let mut cells = Cells::new(alloc);
    cells.push(Cell::decimal(alloc, 42)?)?;
    let tuple = Tuple {
        side: Side::S,
        index: 7,
        ticket: 255,
        stamp: 3,
        cells,
    };
    let copy = tuple.copy()?;
    assert!(rt; copy.side == Side::S, "side");
    assert!(rt;
        (copy.index, copy.ticket, copy.stamp) == (7, 255, 3),
        "numbers"
    );
    assert!(rt; copy.cells.len() == 1, "cells");
    assert!(rt; copy.cells.number_at(0) == Some(42), "number of the cell");
    assert!(rt;
        copy.cells.text_at(0) == b"42".as_slice(),
        "text of the cell"
    );
    assert!(rt; tuple.stamp == 3, "the tuple itself");
    Ok(())
}

#[test]
fn lists_keep_their_order(rt: HostRuntime) -> Result<(), Fail> {
    let mut counts = Counts::new(rt.alloc());
    counts.push(9)?;
    counts.push(4)?;
    let counts = counts.into_vec();
    assert_eq!(rt; counts.as_slice(), [9, 4].as_slice());
    Ok(())
}

// Three pairs, of which two would lie within the list.
#[test]
fn pairs_keep_their_order(rt: HostRuntime) -> Result<(), Fail> {
    let mut pairs = Pairs::new(rt.alloc());
    pairs.push(Pair { i: 0, j: 7 })?;
    pairs.push(Pair { i: 1, j: 6 })?;
    assert_eq!(rt; pairs.len(), 2);
    pairs.push(Pair { i: 2, j: 5 })?;
    assert_eq!(rt; *pairs.at(2), Pair { i: 2, j: 5 });
    let wanted = [
        Pair { i: 0, j: 7 },
        Pair { i: 1, j: 6 },
        Pair { i: 2, j: 5 },
    ];
    assert_eq!(rt; pairs.as_slice(), wanted.as_slice());
    Ok(())
}

// None, one and two pairs, which lie within the list, and four, which don't: a vector of them, a list of that, a list
// of the same, and twice as many in one.
#[test]
fn pairs_are_handed_out(rt: HostRuntime) -> Result<(), Fail> {
    for count in [0, 1, 2, 4] {
        let mut pairs = Pairs::new(rt.alloc());
        for i in 0..count {
            pairs.push(Pair { i, j: i })?;
        }
        let held = pairs.into_vec()?;
        assert_eq!(rt; held.len(), count as usize);
        let same = Pairs::from_slice(rt.alloc(), held.as_slice())?;
        let mut pairs = Pairs::from_vec(held);
        assert_eq!(rt; pairs.as_slice(), same.as_slice());
        pairs.append(same.as_slice())?;
        assert_eq!(rt; pairs.len(), 2 * u64::from(count));
        for i in 0..count {
            assert_eq!(rt; *pairs.at(u64::from(count + i)), Pair { i, j: i });
        }
    }
    Ok(())
}

// Four messages of sender 1, which leave in the order in which they came.
#[test]
fn held_messages_leave_in_order(rt: HostRuntime) -> Result<(), Fail> {
    let mut held: Held<u32> = Held::start(rt.alloc(), 2)?;
    assert!(rt; held.is_empty(), "nothing yet");
    held.hold(1, 5)?;
    held.hold(1, 6)?;
    held.hold(1, 7)?;
    held.hold(1, 8)?;
    assert!(rt; held.count() == 4, "all");
    assert!(rt; held.first(1).copied() == Some(5), "first");
    assert!(rt; held.is_clear(0) && !held.is_clear(1), "of each sender");
    assert!(rt; held.take_first(1) == Some(5), "first taken");
    assert!(rt; held.take_first(1) == Some(6), "second taken");
    assert!(rt; held.take_first(0) == None, "of the other");
    assert!(rt; held.count() == 2, "left");
    assert!(rt; !held.is_empty(), "two are left");
    assert!(rt; held.first(2).is_none(), "no such sender");
    Ok(())
}

#[test]
fn flags_go_up_one_by_one(rt: HostRuntime) -> Result<(), Fail> {
    let mut flags = all_down(rt.alloc(), 2)?;
    assert!(rt; !is_up(&flags, 1), "down");
    flags[1] = true;
    assert!(rt;
        is_up(&flags, 1) && !is_up(&flags, 2),
        "up, and none past the end"
    );
    assert!(rt; !are_all_up(&flags), "one is down");
    flags[0] = true;
    assert!(rt; are_all_up(&flags), "all up");
    Ok(())
}
