// From names to places.

ghost use Rattle.std.specs.Prelude.{◌≡◌, ◌≤◌, ◌++◌, length, map, All, IfOk, IfErr, OnOk};
ghost use Rattle.theta_pred.specs.Formula.{formula_of, formulas, num, txt};
ghost use Rattle.theta_pred.specs.Names.{sum_names, side_names, joined, names_in, StandsOnce};
ghost use Rattle.theta_pred.specs.Resolved.{resolved_sum, resolved_side, resolved, Tells};
ghost use Rattle.theta_pred.specs.Sound.{IsTextWithin, AreWithin, IsSound, AreSound};
ghost use Rattle.theta_tree.specs.Sizes.{longest, longest_sum};

use crate::fault::ResolveFault;
use crate::terms::{resolved_terms, resolved_text};
use crate::theta::Theta;
use crate::tree::Tree;
use row_cells::Names;
use std::alloc::Global;
use theta_tree::{Op, Pred, Sum, TextSide};

// The trees of some members.
#[cycle(resolver)]
fn resolved_members(
    alloc: Global,
    members: &Vec<Pred>,
    names_r: &Names,
    names_s: &Names,
) -> Result<Vec<Tree>, ResolveFault>
    requires { longest (map longest_sum members.now.items) ≤ 16 }
    ensures ok { IfOk result (λ trees.
        map formula_of trees.items ≡ map (resolved names_r.now names_s.now) members.now.items) }
    ensures sound { OnOk result (AreSound (length names_r.now) (length names_s.now)
        (formulas (map (resolved names_r.now names_s.now) members.now.items))) }
    ensures once { OnOk result
        (All (StandsOnce names_r.now names_s.now) (joined (map names_in members.now.items))) }
    ensures err { IfErr result
        (Tells names_r.now names_s.now (joined (map names_in members.now.items))) }
{
    let mut trees = Vec::with_capacity(alloc, members.len())?;
    for member in members {
        trees.push(resolved_tree(alloc, member, names_r, names_s)?)?;
    }
    Ok(trees)
}

// The same tree with each name replaced by its column.
#[cycle(resolver)]
fn resolved_tree(
    alloc: Global,
    pred: &Pred,
    names_r: &Names,
    names_s: &Names,
) -> Result<Tree, ResolveFault>
    requires { longest_sum pred.now ≤ 16 }
    ensures ok { IfOk result (λ tree. formula_of tree ≡ resolved names_r.now names_s.now pred.now) }
    ensures sound { OnOk result (IsSound (length names_r.now) (length names_s.now)
        (resolved names_r.now names_s.now pred.now)) }
    ensures once { OnOk result (All (StandsOnce names_r.now names_s.now) (names_in pred.now)) }
    ensures err { IfErr result (Tells names_r.now names_s.now (names_in pred.now)) }
{
    match pred {
        Pred::Or(members) => {
            let trees = resolved_members(alloc, members, names_r, names_s)?;
            Ok(Tree::Or(trees))
        }
        Pred::And(members) => {
            let trees = resolved_members(alloc, members, names_r, names_s)?;
            Ok(Tree::And(trees))
        }
        Pred::Not(member) => {
            let tree = resolved_tree(alloc, member, names_r, names_s)?;
            Ok(Tree::Not(Box::new(alloc, tree)?))
        }
        Pred::Num { left, op, right } => resolved_num(alloc, left, *op, right, names_r, names_s),
        Pred::Abs { sum, op, bound } => {
            let sum = resolved_terms(alloc, sum, names_r, names_s)?;
            Ok(Tree::Abs {
                sum,
                op: *op,
                bound: *bound,
            })
        }
        Pred::Txt { left, op, right } => resolved_txt(left, *op, right, names_r, names_s),
    }
}

fn resolved_num(
    alloc: Global,
    left: &Sum,
    op: Op,
    right: &Sum,
    names_r: &Names,
    names_s: &Names,
) -> Result<Tree, ResolveFault>
    ensures ok { IfOk result (λ tree. formula_of tree
        ≡ num (resolved_sum names_r.now names_s.now left.now) op
        (resolved_sum names_r.now names_s.now right.now)) }
    ensures left_within { OnOk result (AreWithin (length names_r.now) (length names_s.now)
        (resolved_sum names_r.now names_s.now left.now)) }
    ensures right_within { OnOk result (AreWithin (length names_r.now) (length names_s.now)
        (resolved_sum names_r.now names_s.now right.now)) }
    ensures once { OnOk result
        (All (StandsOnce names_r.now names_s.now) (sum_names left.now ++ sum_names right.now)) }
    ensures err { IfErr result
        (Tells names_r.now names_s.now (sum_names left.now ++ sum_names right.now)) }
{
    let left_sum = resolved_terms(alloc, left, names_r, names_s)?;
    let right_sum = resolved_terms(alloc, right, names_r, names_s)?;
    Ok(Tree::Num {
        left: left_sum,
        op,
        right: right_sum,
    })
}

fn resolved_txt(
    left: &TextSide,
    op: Op,
    right: &TextSide,
    names_r: &Names,
    names_s: &Names,
) -> Result<Tree, ResolveFault>
    ensures ok { IfOk result (λ tree. formula_of tree
        ≡ txt (resolved_side names_r.now names_s.now left.now) op
        (resolved_side names_r.now names_s.now right.now)) }
    ensures left_within { OnOk result (IsTextWithin (length names_r.now) (length names_s.now)
        (resolved_side names_r.now names_s.now left.now)) }
    ensures right_within { OnOk result (IsTextWithin (length names_r.now) (length names_s.now)
        (resolved_side names_r.now names_s.now right.now)) }
    ensures once { OnOk result
        (All (StandsOnce names_r.now names_s.now) (side_names left.now ++ side_names right.now)) }
    ensures err { IfErr result
        (Tells names_r.now names_s.now (side_names left.now ++ side_names right.now)) }
{
    let left_text = resolved_text(left, names_r, names_s)?;
    let right_text = resolved_text(right, names_r, names_s)?;
    Ok(Tree::Txt {
        left: left_text,
        op,
        right: right_text,
    })
}

/// The predicate over two tables with these headers. Names that the predicate doesn't use may
/// stand there more than once. A fault tells of the first name from the left that doesn't stand
/// in its header just once.
pub fn resolve(
    alloc: Global,
    pred: &Pred,
    names_r: &Names,
    names_s: &Names,
) -> Result<Theta, ResolveFault>
    requires { longest_sum pred.now ≤ 16 }
    ensures ok { IfOk result (λ theta. theta ≡ record {
      formula = resolved names_r.now names_s.now pred.now;
      width_r = length names_r.now;
      width_s = length names_s.now;
    }) }
    ensures once { OnOk result (All (StandsOnce names_r.now names_s.now) (names_in pred.now)) }
    ensures err { IfErr result (Tells names_r.now names_s.now (names_in pred.now)) }
{
    let tree = resolved_tree(alloc, pred, names_r, names_s)?;
    Ok(Theta::over(alloc, tree, names_r.len(), names_s.len())?)
}
