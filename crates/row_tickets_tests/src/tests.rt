use row_cells::Side;
use row_tickets::{Feed, Place, Tickets, share, tickets};
use std::test::Fail;

#[test]
fn first_tickets_of_seed_42(rt: HostRuntime) -> Result<(), Fail> {
    let drawn = tickets(rt.alloc(), 42, Side::R, 6)?;
    assert_eq!(rt; drawn.as_slice(), [161, 123, 186, 131, 191, 203].as_slice());
    assert_eq!(rt; Tickets::at(42, Side::R, 3).draw(), 131);
    Ok(())
}

#[test]
fn shares_of_two_feeders(rt: HostRuntime) -> Result<(), Fail> {
    let r = |index| Place {
        side: Side::R,
        index,
    };
    let s = |index| Place {
        side: Side::S,
        index,
    };
    let cases = [
        (Feed::Alternate, [r(1), s(1), r(3), s(3), s(5)]),
        (Feed::RFirst, [r(1), r(3), s(1), s(3), s(5)]),
        (Feed::SFirst, [s(1), s(3), s(5), r(1), r(3)]),
    ];
    for (feed, wanted) in cases {
        let places = share(rt.alloc(), feed, 2, 1, 4, 6)?;
        assert!(rt; places.as_slice() == wanted.as_slice(), "{feed:?}");
    }
    Ok(())
}

#[test]
fn one_feeder_has_all_rows(rt: HostRuntime) -> Result<(), Fail> {
    let places = share(rt.alloc(), Feed::RFirst, 1, 0, 8, 8)?;
    assert_eq!(rt; places.len(), 16);
    for (i, place) in places.as_slice().iter().enumerate() {
        let side = if i < 8 { Side::R } else { Side::S };
        assert!(rt; place.side == side, "place {i}");
        assert!(rt; place.index as usize == i % 8, "place {i}");
    }
    Ok(())
}
