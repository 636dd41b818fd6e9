use epoch_tags::Tuple;
use grid_map::Shape;
use migration_plan::{chain, exchanged_side, kept, low_of, next_step, partner_in_step};
use row_cells::{Cells, Side};
use std::test::Fail;

#[test]
fn a_chain_goes_by_one_up_to_its_goal(rt: HostRuntime) -> Result<(), Fail> {
    let down = chain(rt.alloc(), 3, 0)?.into_vec();
    assert!(rt; down.as_slice() == [2, 1, 0].as_slice(), "from 3 to 0");
    let up = chain(rt.alloc(), 1, 4)?.into_vec();
    assert!(rt; up.as_slice() == [2, 3, 4].as_slice(), "from 1 to 4");
    assert!(rt; chain(rt.alloc(), 2, 2)?.len() == 0, "from 2 to 2");
    Ok(())
}

#[test]
fn a_step_names_its_shift_its_bit_and_its_side(rt: HostRuntime) {
    let cases = [(2, 4, 3, 2, Side::R), (2, 0, 1, 1, Side::S)];
    for (shift, goal, next, low, side) in cases {
        assert!(rt; next_step(shift, goal) == next, "from {shift} to {goal}");
        if next == shift + 1 || shift == next + 1 {
            assert!(rt;
                low_of(shift, next) == low,
                "the bit from {shift} to {goal}"
            );
            assert!(rt;
                exchanged_side(shift, next) == side,
                "the side from {shift} to {goal}"
            );
        }
    }
}

#[test]
fn a_partner_is_the_joiner_that_differs_in_the_bit_of_the_step(rt: HostRuntime) {
    let cases = [(2, 3, 5, 1), (3, 2, 5, 1), (0, 1, 5, 4), (3, 4, 5, 13)];
    for (old, new, id, partner) in cases {
        let found = partner_in_step(4, old, new, id);
        assert!(rt; found == partner, "of joiner {id} from {old} to {new}");
        assert!(rt; partner_in_step(4, old, new, found) == id, "and back");
    }
}

#[test]
fn a_joiner_keeps_a_tuple_by_its_side(rt: HostRuntime) {
    let cases = [
        (Side::R, 208, 2, 14, true),
        (Side::R, 208, 2, 10, false),
        (Side::R, 208, 3, 14, true),
        (Side::S, 6, 2, 14, true),
        (Side::S, 6, 2, 10, true),
        (Side::S, 6, 3, 10, false),
    ];
    for (side, ticket, shift, id, want) in cases {
        let tuple = Tuple {
            side,
            index: 0,
            ticket,
            stamp: 0,
            cells: Cells::new(rt.alloc()),
        };
        let shape = Shape { k: 4, shift };
        assert!(rt;
            kept(shape, id, &tuple) == want,
            "ticket {ticket} at shift {shift} and joiner {id}"
        );
    }
}
