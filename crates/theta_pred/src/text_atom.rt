// The columns of an equality of texts that an index of stored rows serves.

ghost use Rattle.std.specs.Prelude.{◌≡◌};
ghost use Rattle.theta_pred.specs.TextAtoms;

use crate::tree::Column;
use row_cells::Side;

/// The columns of an equality of two texts, one of R and one of S, by their places counted from 0.
#[derive(Clone, Copy, Debug, PartialEq, Eq)]
pub struct TextAtom {
    pub r: u64,
    pub s: u64,
}

// Two columns, where they are of different sides.
pub(crate) fn of_columns(left: Column, right: Column) -> Option<TextAtom>
    ensures { result ≡ TextAtoms.of_columns left right }
{
    match (left.side, right.side) {
        (Side::R, Side::S) => Some(TextAtom {
            r: left.place,
            s: right.place,
        }),
        (Side::S, Side::R) => Some(TextAtom {
            r: right.place,
            s: left.place,
        }),
        _ => None,
    }
}
