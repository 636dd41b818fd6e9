// Whether a tree says no more than its agreements.

ghost use Rattle.std.specs.Prelude.{◌≡◌, IsTrue, Some};
ghost use Rattle.theta_pred.specs.Accesses.{access_of, Suffices, Terms};
ghost use Rattle.theta_pred.specs.Formula.{formula_of};
ghost use Rattle.theta_pred.specs.Sufficing.{agreements_suffice, gives_agreement, is_equality};

use crate::key::do_split;
use crate::one_sided::names;
use crate::text_atom::of_columns;
use crate::tree::{Text, Tree};
use row_cells::Side;
use theta_tree::Op;

// Whether a tree is an equality of both sides.
fn is_equality(tree: &Tree) -> bool
    ensures { result ≡ is_equality (formula_of tree.now) }
{
    match tree {
        Tree::Num {
            left,
            op: Op::Eq,
            right,
        } => do_split(left.as_slice(), right.as_slice()),
        Tree::Txt {
            left: Text::Cell(left),
            op: Op::Eq,
            right: Text::Cell(right),
        } => of_columns(*left, *right).is_some(),
        _ => false,
    }
}

// Whether a tree gives an agreement by itself.
fn gives_agreement(tree: &Tree) -> bool
    ensures { result ≡ gives_agreement (formula_of tree.now) }
{
    is_equality(tree) || !names(tree, Side::S) || !names(tree, Side::R)
}

// Whether each member of a tree's conjunctions gives an agreement.
pub(crate) fn agreements_suffice(tree: &Tree) -> bool
    ensures { result ≡ agreements_suffice (formula_of tree.now) }
{
    match tree {
        Tree::And(members) => {
            for member in members {
                if !agreements_suffice(member) {
                    return false;
                }
            }
            true
        }
        _ => gives_agreement(tree),
    }
}

// What it says of a tree's access. It has no code.
pub(crate) fn suffice_law(tree: &Tree, width_r: u64, width_s: u64)
    ensures { (terms : Terms) → IsTrue (agreements_suffice (formula_of tree.now))
        → access_of (formula_of tree.now) ≡ Some terms
        → Suffices
        (record { formula = formula_of tree.now; width_r = width_r; width_s = width_s }) terms }
{}
