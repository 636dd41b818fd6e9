// Which columns a tree names.

ghost use Rattle.std.specs.Prelude.{◌≡◌};
ghost use Rattle.row_cells.specs.declared.table.Side.TheVariants.{R as R', S as S'};
ghost use Rattle.theta_pred.specs.Formula.{formula_of};
ghost use Rattle.theta_pred.specs.OneSided.{names, text_names};
ghost use Rattle.theta_pred.specs.Sums.{of_side};

use crate::key::names_side;
use crate::tree::{Text, Tree};
use row_cells::Side;

// The other side.
pub(crate) fn other_of(side: Side) -> Side
    ensures { result ≡ of_side S' R' side }
{
    match side {
        Side::R => Side::S,
        Side::S => Side::R,
    }
}

// Whether a side of a test on texts is a column of this side.
fn text_names(text: &Text, side: Side) -> bool
    ensures { result ≡ text_names side text.now }
{
    match text {
        Text::Given(_) => false,
        Text::Cell(column) => column.side == side,
    }
}

// Whether a tree names a column of this side.
pub(crate) fn names(tree: &Tree, side: Side) -> bool
    ensures { result ≡ names side (formula_of tree.now) }
{
    match tree {
        Tree::Or(members) => {
            for member in members {
                if names(member, side) {
                    return true;
                }
            }
            false
        }
        Tree::And(members) => {
            for member in members {
                if names(member, side) {
                    return true;
                }
            }
            false
        }
        Tree::Not(member) => names(member, side),
        Tree::Num { left, op: _, right } => {
            names_side(left.as_slice(), side) || names_side(right.as_slice(), side)
        }
        Tree::Abs {
            sum,
            op: _,
            bound: _,
        } => names_side(sum.as_slice(), side),
        Tree::Txt { left, op: _, right } => text_names(left, side) || text_names(right, side),
    }
}
