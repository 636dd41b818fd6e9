// The truth of a tree at two rows.

ghost use Rattle.std.specs.Prelude.{◌≡◌, ◌≤◌, length, option_map, Some};
ghost use Rattle.theta_pred.specs.Formula.{formula_of};
ghost use Rattle.theta_pred.specs.Sound.{IsSound};
ghost use Rattle.theta_pred.specs.Sums.{sum_of, text_of};
ghost use Rattle.theta_pred.specs.Truth;

use crate::sums::{sum, text};
use crate::tree::{SignedTerms, Text, Tree};
use row_cells::Cells;
use std::cmp::Ordering;
use theta_tree::Op;

// Whether the tree, which is one over headers of these widths, is true of two rows of any width.
pub(crate) fn is_true(tree: &Tree, width_r: u64, width_s: u64, r: &Cells, s: &Cells) -> bool
    requires { IsSound width_r width_s (formula_of tree.now) }
    ensures { result ≡ Truth.is_true r.now s.now (formula_of tree.now) }
{
    match tree {
        Tree::Or(members) => {
            for member in members {
                if is_true(member, width_r, width_s, r, s) {
                    return true;
                }
            }
            false
        }
        Tree::And(members) => {
            for member in members {
                if !is_true(member, width_r, width_s, r, s) {
                    return false;
                }
            }
            true
        }
        Tree::Not(member) => !is_true(member, width_r, width_s, r, s),
        Tree::Num { left, op, right } => sums_compare(left, *op, right, r, s),
        Tree::Abs { sum, op, bound } => size_compares(sum, *op, *bound, r, s),
        Tree::Txt { left, op, right } => allows(*op, text(left, r, s).cmp(text(right, r, s))),
    }
}

// Whether a test on two sums is true.
fn sums_compare(left: &SignedTerms, op: Op, right: &SignedTerms, r: &Cells, s: &Cells) -> bool
    requires left { length left.now ≤ 16 }
    requires right { length right.now ≤ 16 }
    ensures { result
        ≡ Truth.compares op (sum_of r.now s.now left.now) (sum_of r.now s.now right.now) }
{
    match (sum(left, r, s), sum(right, r, s)) {
        (Some(left), Some(right)) => allows(op, left.cmp(&right)),
        _ => false,
    }
}

// Whether a test on a sum's absolute value is true.
fn size_compares(terms: &SignedTerms, op: Op, bound: i64, r: &Cells, s: &Cells) -> bool
    requires { length terms.now ≤ 16 }
    ensures { result
        ≡ Truth.compares op (option_map Truth.size_of (sum_of r.now s.now terms.now)) (Some bound) }
{
    match sum(terms, r, s) {
        Some(value) => allows(op, value.abs().cmp(&i128::from(bound))),
        None => false,
    }
}

// Whether the comparison lets its two sides stand in this order.
fn allows(op: Op, order: Ordering) -> bool
    ensures { result ≡ Truth.allows op order }
{
    match op {
        Op::Eq => order.is_eq(),
        Op::Ne => order.is_ne(),
        Op::Lt => order.is_lt(),
        Op::Le => order.is_le(),
        Op::Gt => order.is_gt(),
        Op::Ge => order.is_ge(),
    }
}
