// The columns whose cells are read as numbers.

ghost use Rattle.std.specs.Prelude.{◌≡◌, ◌++◌, IfOk, OnOk, option_to_list};
ghost use Rattle.theta_pred.specs.Formula.{formula_of};
ghost use Rattle.theta_pred.specs.Numeric.{AreNumeric, place_if_on, number_places, term_places, sum_places};
ghost use Rattle.theta_pred.specs.Sound.{IsSound};
ghost use Rattle.theta_pred.specs.Sums.{of_side};

use crate::tree::{Column, Columns, Number, SignedTerms, Tree};
use row_cells::Side;
use std::alloc::{AllocError, Global};

// The places of a side's columns that stand in a sum.
pub(crate) fn numeric_places(
    alloc: Global,
    tree: &Tree,
    side: Side,
    width_r: u64,
    width_s: u64,
) -> Result<Columns, AllocError>
    requires { IsSound width_r width_s (formula_of tree.now) }
    ensures { IfOk result (λ places.
        AreNumeric (formula_of tree.now) side (of_side width_r width_s side) places) }
{
    let mut places = Vec::new(alloc);
    add_places(tree, side, &mut places)?;
    places.sort_unstable();
    places.dedup();
    Ok(Columns::from_vec(places))
}

// Appends the places of a side's columns that stand in a sum, in the order of writing.
fn add_places(tree: &Tree, side: Side, places: &mut Vec<u64>) -> Result<(), AllocError>
    ensures { OnOk result
        (places.new.items ≡ places.old.items ++ sum_places side (formula_of tree.now)) }
{
    match tree {
        Tree::Or(members) => {
            for member in members {
                add_places(member, side, places)?;
            }
            Ok(())
        }
        Tree::And(members) => {
            for member in members {
                add_places(member, side, places)?;
            }
            Ok(())
        }
        Tree::Not(member) => add_places(member, side, places),
        Tree::Num { left, op: _, right } => {
            add_sum_places(left, side, places)?;
            add_sum_places(right, side, places)
        }
        Tree::Abs {
            sum,
            op: _,
            bound: _,
        } => add_sum_places(sum, side, places),
        Tree::Txt {
            left: _,
            op: _,
            right: _,
        } => Ok(()),
    }
}

fn add_sum_places(sum: &SignedTerms, side: Side, places: &mut Vec<u64>) -> Result<(), AllocError>
    ensures { OnOk result (places.new.items ≡ places.old.items ++ term_places side sum.now) }
{
    for term in sum.as_slice() {
        if let Some(place) = place_of(term.number, side) {
            places.push(place)?;
        }
    }
    Ok(())
}

// The place of the term's column, where it is on the side.
pub(crate) fn place_of(number: Number, side: Side) -> Option<u64>
    ensures { option_to_list result ≡ number_places side number }
{
    match number {
        Number::Given(_) => None,
        Number::Cell(column) => if column.side == side {
            Some(column.place)
        } else {
            None
        },
    }
}
