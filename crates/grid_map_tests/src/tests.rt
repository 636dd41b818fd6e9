use grid_map::{
    Shape, Weights, best_shift, col_of, copies, holds_r, holds_s, meet, partner, row_of,
};

const ONE: Weights = Weights { r: 1, s: 1 };

#[test]
fn tickets_meet_at_one_joiner(rt: HostRuntime) {
    let cases = [(2, 3, 2), (3, 1, 6)];
    for (shift, row, column) in cases {
        let shape = Shape { k: 4, shift };
        assert!(rt; row_of(shape, 208) == row, "row at shift {shift}");
        assert!(rt; col_of(shape, 6) == column, "column at shift {shift}");
        assert!(rt; meet(shape, 208, 6) == 14, "joiner at shift {shift}");
        assert!(rt;
            holds_r(shape, 14, 208) && holds_s(shape, 14, 6),
            "held at shift {shift}"
        );
    }
    assert_eq!(rt; partner(4, 2, 14), 10);
}

#[test]
fn the_best_shift_stays_at_a_tie_and_else_is_the_smallest(rt: HostRuntime) {
    let copies_of = [
        (2, 255, 64, 1276),
        (1, 255, 64, 1022),
        (2, 256, 64, 1280),
        (1, 256, 64, 1024),
    ];
    for (shift, x, y, want) in copies_of {
        assert!(rt;
            copies(Shape { k: 4, shift }, ONE, x, y) == want,
            "shift {shift}, {x} rows"
        );
    }
    let cases = [
        (2, 0, 8, 4, 0),
        (2, 1, 8, 4, 1),
        (2, 2, 8, 4, 0),
        (2, 0, 0, 0, 0),
        (2, 1, 0, 0, 1),
        (2, 2, 0, 0, 2),
        (4, 2, 256, 64, 1),
        (4, 2, 128, 64, 2),
    ];
    for (k, shift, x, y, want) in cases {
        assert!(rt;
            best_shift(Shape { k, shift }, ONE, x, y) == want,
            "shift {shift}, {x} and {y} rows"
        );
    }
}

#[test]
fn a_heavy_side_moves_the_best_shift(rt: HostRuntime) {
    let weights = Weights { r: 4, s: 1 };
    let cases = [(0, 64), (1, 80), (2, 136)];
    for (shift, want) in cases {
        assert!(rt;
            copies(Shape { k: 2, shift }, weights, 8, 8) == want,
            "shift {shift}"
        );
    }
    assert_eq!(rt; best_shift(Shape { k: 2, shift: 1 }, weights, 8, 8), 0);
}
