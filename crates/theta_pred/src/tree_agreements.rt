// The agreements of a tree's conjunctions: equalities of both sides, and tests of one side alone.

ghost use Rattle.std.specs.Prelude.{◌≡◌, ◌≤◌, ◌++◌, length, map, option_to_list, IfOk, OnOk};
ghost use Rattle.theta_pred.specs.Accesses.{
  agreement_in,
  agreement_of,
  agreements_at,
  agreements_of,
  alone,
  of_sums,
  own_in,
  AreOver,
  IsOver,
};
ghost use Rattle.theta_pred.specs.Formula.{formula_of};
ghost use Rattle.theta_pred.specs.Sound.{IsSound};

use crate::agree::{Alone, Same, Sames, SumPair};
use crate::bounds::constant_apart;
use crate::copies::copy_of;
use crate::key::{columns, do_split};
use crate::one_sided::{names, other_of};
use crate::text_atom::of_columns;
use crate::theta::Theta;
use crate::tree::{SignedTerm, Text, Tree};
use row_cells::Side;
use std::alloc::{AllocError, Global};
use theta_tree::Op;

// The agreement of two equal sums.
fn sum_pair(alloc: Global, left: &[SignedTerm], right: &[SignedTerm]) -> Result<Same, AllocError>
    requires left { length left.now ≤ 16 }
    requires right { length right.now ≤ 16 }
    ensures { IfOk result (λ same. agreement_of same ≡ of_sums left.now right.now) }
{
    Ok(Same::Sums(SumPair {
        r_sum: columns(alloc, left, right, Side::R, false)?,
        s_sum: columns(alloc, left, right, Side::S, true)?,
        gap: -constant_apart(left, right),
    }))
}

// Appends the agreement of a tree that is an equality of both sides.
fn add_equality(
    alloc: Global,
    tree: &Tree,
    width_r: u64,
    width_s: u64,
    sames: &mut Vec<Same>,
) -> Result<(), AllocError>
    requires { IsSound width_r width_s (formula_of tree.now) }
    ensures says { OnOk result (map agreement_of sames.new.items
        ≡ map agreement_of sames.old.items ++ option_to_list (agreement_in (formula_of tree.now))) }
    ensures widths { OnOk result (AreOver width_r width_s sames.old.items
        → AreOver width_r width_s sames.new.items) }
{
    match tree {
        Tree::Num {
            left,
            op: Op::Eq,
            right,
        } => {
            if do_split(left.as_slice(), right.as_slice()) {
                sames.push(sum_pair(alloc, left.as_slice(), right.as_slice())?)?;
            }
            Ok(())
        }
        Tree::Txt {
            left: Text::Cell(left),
            op: Op::Eq,
            right: Text::Cell(right),
        } => {
            if let Some(atom) = of_columns(*left, *right) {
                sames.push(Same::Texts(atom))?;
            }
            Ok(())
        }
        _ => Ok(()),
    }
}

// The test that a tree is of rows of this side.
fn alone(
    alloc: Global,
    side: Side,
    tree: &Tree,
    width_r: u64,
    width_s: u64,
) -> Result<Same, AllocError>
    requires { IsSound width_r width_s (formula_of tree.now) }
    ensures says { IfOk result (λ same. agreement_of same ≡ alone side (formula_of tree.now)) }
    ensures widths { IfOk result (IsOver width_r width_s) }
{
    let copy = copy_of(alloc, tree)?;
    Ok(Same::Alone(Alone {
        side,
        test: Theta::over(alloc, copy, width_r, width_s)?,
    }))
}

// Appends what a tree says of rows of this side, where it names no column of the other.
fn add_own(
    alloc: Global,
    side: Side,
    tree: &Tree,
    width_r: u64,
    width_s: u64,
    sames: &mut Vec<Same>,
) -> Result<(), AllocError>
    requires { IsSound width_r width_s (formula_of tree.now) }
    ensures says { OnOk result (map agreement_of sames.new.items
        ≡ map agreement_of sames.old.items ++ option_to_list (own_in side (formula_of tree.now))) }
    ensures widths { OnOk result (AreOver width_r width_s sames.old.items
        → AreOver width_r width_s sames.new.items) }
{
    if !names(tree, other_of(side)) {
        sames.push(alone(alloc, side, tree, width_r, width_s)?)?;
    }
    Ok(())
}

// Appends what a tree says by itself.
fn add_member(
    alloc: Global,
    tree: &Tree,
    width_r: u64,
    width_s: u64,
    sames: &mut Vec<Same>,
) -> Result<(), AllocError>
    requires { IsSound width_r width_s (formula_of tree.now) }
    ensures says { OnOk result (map agreement_of sames.new.items
        ≡ map agreement_of sames.old.items ++ agreements_at (formula_of tree.now)) }
    ensures widths { OnOk result (AreOver width_r width_s sames.old.items
        → AreOver width_r width_s sames.new.items) }
{
    add_equality(alloc, tree, width_r, width_s, sames)?;
    add_own(alloc, Side::R, tree, width_r, width_s, sames)?;
    add_own(alloc, Side::S, tree, width_r, width_s, sames)
}

// Appends the agreements of a tree's conjunctions.
fn add_sames(
    alloc: Global,
    tree: &Tree,
    width_r: u64,
    width_s: u64,
    sames: &mut Vec<Same>,
) -> Result<(), AllocError>
    requires { IsSound width_r width_s (formula_of tree.now) }
    ensures says { OnOk result (map agreement_of sames.new.items
        ≡ map agreement_of sames.old.items ++ agreements_of (formula_of tree.now)) }
    ensures widths { OnOk result (AreOver width_r width_s sames.old.items
        → AreOver width_r width_s sames.new.items) }
{
    match tree {
        Tree::And(members) => {
            for member in members {
                add_sames(alloc, member, width_r, width_s, sames)?;
            }
            Ok(())
        }
        _ => add_member(alloc, tree, width_r, width_s, sames),
    }
}

// All agreements of a tree.
pub(crate) fn sames_of(
    alloc: Global,
    tree: &Tree,
    width_r: u64,
    width_s: u64,
) -> Result<Sames, AllocError>
    requires { IsSound width_r width_s (formula_of tree.now) }
    ensures says { IfOk result (λ sames.
        map agreement_of sames ≡ agreements_of (formula_of tree.now)) }
    ensures widths { IfOk result (AreOver width_r width_s) }
{
    let mut sames = Vec::new(alloc);
    add_sames(alloc, tree, width_r, width_s, &mut sames)?;
    Ok(Sames::from_vec(sames))
}
