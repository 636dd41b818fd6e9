// Copies of trees.

ghost use Rattle.std.specs.Prelude.{◌≡◌, ◌++◌, ◌∷◌, [], map, IfOk, OnOk};
ghost use Rattle.theta_pred.specs.Formula.{formula_of, num, txt};

use crate::tree::{SignedTerms, Text, Tree};
use std::alloc::{AllocError, Global};
use theta_tree::Op;

// Appends the copy of a tree.
#[cycle(copies)]
fn add_copy(alloc: Global, tree: &Tree, copies: &mut Vec<Tree>) -> Result<(), AllocError>
    ensures { OnOk result (map formula_of copies.new.items
        ≡ map formula_of copies.old.items ++ formula_of tree.now ∷ []) }
{
    copies.push(copy_of(alloc, tree)?)?;
    Ok(())
}

// Trees that say the same, one for each.
#[cycle(copies)]
fn copies_of(alloc: Global, trees: &Vec<Tree>) -> Result<Vec<Tree>, AllocError>
    ensures { IfOk result (λ copies.
        map formula_of copies.items ≡ map formula_of trees.now.items) }
{
    let mut copies = Vec::with_capacity(alloc, trees.len())?;
    for tree in trees {
        if let Err(refused) = add_copy(alloc, tree, &mut copies) {
            drop(copies);
            return Err(refused);
        }
    }
    Ok(copies)
}

// A tree that says the same.
#[cycle(copies)]
pub(crate) fn copy_of(alloc: Global, tree: &Tree) -> Result<Tree, AllocError>
    ensures { IfOk result (λ copy. formula_of copy ≡ formula_of tree.now) }
{
    match tree {
        Tree::Or(members) => Ok(Tree::Or(copies_of(alloc, members)?)),
        Tree::And(members) => Ok(Tree::And(copies_of(alloc, members)?)),
        Tree::Not(member) => {
            let copy = copy_of(alloc, member)?;
            Ok(Tree::Not(Box::new(alloc, copy)?))
        }
        Tree::Num { left, op, right } => num_copy(alloc, left, *op, right),
        Tree::Abs { sum, op, bound } => {
            let sum = sum_copy(alloc, sum)?;
            Ok(Tree::Abs {
                sum,
                op: *op,
                bound: *bound,
            })
        }
        Tree::Txt { left, op, right } => txt_copy(left, *op, right),
    }
}

fn num_copy(
    alloc: Global,
    left: &SignedTerms,
    op: Op,
    right: &SignedTerms,
) -> Result<Tree, AllocError>
    ensures { IfOk result (λ tree. formula_of tree ≡ num left.now op right.now) }
{
    let left = sum_copy(alloc, left)?;
    match sum_copy(alloc, right) {
        Ok(right) => Ok(Tree::Num { left, op, right }),
        Err(refused) => {
            drop(left);
            Err(refused)
        }
    }
}

fn txt_copy(left: &Text, op: Op, right: &Text) -> Result<Tree, AllocError>
    ensures { IfOk result (λ tree. formula_of tree ≡ txt left.now op right.now) }
{
    let left = text_copy(left)?;
    match text_copy(right) {
        Ok(right) => Ok(Tree::Txt { left, op, right }),
        Err(refused) => {
            drop(left);
            Err(refused)
        }
    }
}

fn sum_copy(alloc: Global, sum: &SignedTerms) -> Result<SignedTerms, AllocError>
    ensures { IfOk result (λ copy. copy ≡ sum.now) }
{
    Ok(SignedTerms::from_vec(Vec::from_slice(alloc, sum.as_slice())?))
}

fn text_copy(text: &Text) -> Result<Text, AllocError>
    ensures { IfOk result (λ copy. copy ≡ text.now) }
{
    Ok(match text {
        Text::Given(bytes) => Text::Given(bytes.copy()?),
        Text::Cell(column) => Text::Cell(*column),
    })
}
