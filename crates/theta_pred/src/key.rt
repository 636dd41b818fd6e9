// The key atom of a tree: the first test of its top conjunction that an index can serve.

ghost use Rattle.std.specs.Prelude.{◌≡◌, ◌≤◌, ◌^◌, not, ◌++◌, length, map, option_map, IfOk, OnOk, Some};
ghost use Rattle.std.specs.Option.{ForSome};
ghost use Rattle.theta_pred.specs.Formula.{band, formula_of, formulas, num};
ghost use Rattle.theta_pred.specs.Keys.{
  atom_in,
  atom_of,
  columns_of,
  conjuncts,
  difference,
  first_of,
  is_of_kind,
  key_member,
  key_of,
  names_side,
  splits,
  Atom,
  IsKeyOf,
};
ghost use Rattle.theta_pred.specs.Sizes.{IsAtMost};
ghost use Rattle.theta_pred.specs.Sound.{IsSound};

use crate::atom::{KeyAtom, Linear, Part, Parts};
use crate::bounds::{band_high, band_low, constant, constant_apart, num_high, num_low};
use crate::kind::Kind;
use crate::numeric::place_of;
use crate::tree::{SignedTerm, Tree};
use row_cells::Side;
use std::alloc::{AllocError, Global};
use theta_tree::Op;

// Whether a sum names a column of this side.
pub(crate) fn names_side(sum: &[SignedTerm], side: Side) -> bool
    ensures { result ≡ names_side side sum.now }
{
    for term in sum {
        if place_of(term.number, side).is_some() {
            return true;
        }
    }
    false
}

// Whether two sums name a column of each side.
pub(crate) fn do_split(left: &[SignedTerm], right: &[SignedTerm]) -> bool
    ensures { result ≡ splits left.now right.now }
{
    (names_side(left, Side::R) || names_side(right, Side::R))
        && (names_side(left, Side::S) || names_side(right, Side::S))
}

// Whether a member splits, and is of this kind.
pub(crate) fn is_of_kind(kind: Kind, tree: &Tree) -> bool
    ensures { result ≡ is_of_kind kind (formula_of tree.now) }
{
    match tree {
        Tree::Num { left, op, right } => {
            kind.is_of_num(*op) && do_split(left.as_slice(), right.as_slice())
        }
        Tree::Abs { sum, op, bound: _ } => { kind.is_of_band(*op) && do_split(sum.as_slice(), &[]) }
        _ => false,
    }
}

// The first of the members that splits and is of this kind.
fn first_member(kind: Kind, members: &[Tree]) -> Option<&Tree>
    ensures { option_map (λ tree. formula_of tree.now) result
        ≡ first_of kind (formulas (map formula_of members.now)) }
{
    for member in members {
        if is_of_kind(kind, member) {
            return Some(member);
        }
    }
    None
}

// The first member of the top conjunction that splits and is of this kind.
fn first_of(kind: Kind, tree: &Tree) -> Option<&Tree>
    ensures { option_map (λ tree. formula_of tree.now) result
        ≡ first_of kind (conjuncts (formula_of tree.now)) }
{
    match tree {
        Tree::And(members) => first_member(kind, members.as_slice()),
        _ => if is_of_kind(kind, tree) {
            Some(tree)
        } else {
            None
        },
    }
}

// Appends the columns of a side, each with its sign, or with the other one where turned.
fn add_columns(
    sum: &[SignedTerm],
    side: Side,
    turned: bool,
    parts: &mut Vec<Part>,
) -> Result<(), AllocError>
    ensures { OnOk result (parts.new.items ≡ parts.old.items ++ columns_of side turned sum.now) }
{
    for term in sum {
        if let Some(column) = place_of(term.number, side) {
            let minus = if turned { !term.minus } else { term.minus };
            parts.push(Part { minus, column })?;
        }
    }
    Ok(())
}

// The columns of a side in a difference, or in its opposite where turned.
pub(crate) fn columns(
    alloc: Global,
    left: &[SignedTerm],
    right: &[SignedTerm],
    side: Side,
    turned: bool,
) -> Result<Linear, AllocError>
    requires left { length left.now ≤ 16 }
    requires right { length right.now ≤ 16 }
    ensures { IfOk result (λ sum.
        sum.parts ≡ columns_of side turned left.now ++ columns_of side (not turned) right.now) }
{
    let mut parts = Vec::new(alloc);
    add_columns(left, side, turned, &mut parts)?;
    add_columns(right, side, !turned, &mut parts)?;
    Ok(Linear {
        parts: Parts::from_vec(parts),
    })
}

// The atom of a difference between these bounds.
fn difference(
    alloc: Global,
    left: &[SignedTerm],
    right: &[SignedTerm],
    low: Option<i128>,
    high: Option<i128>,
) -> Result<KeyAtom, AllocError>
    requires left { length left.now ≤ 16 }
    requires right { length right.now ≤ 16 }
    requires low { ForSome low (IsAtMost (2 ^ 100)) }
    requires high { ForSome high (IsAtMost (2 ^ 100)) }
    ensures { IfOk result (λ key. atom_of key ≡ difference left.now right.now low high) }
{
    Ok(KeyAtom {
        r_sum: columns(alloc, left, right, Side::R, false)?,
        s_sum: columns(alloc, left, right, Side::S, true)?,
        low,
        high,
    })
}

// The atom of a test of two sums.
fn num_atom(
    alloc: Global,
    left: &[SignedTerm],
    op: Op,
    right: &[SignedTerm],
) -> Result<KeyAtom, AllocError>
    requires left { length left.now ≤ 16 }
    requires right { length right.now ≤ 16 }
    ensures { IfOk result (λ key. Some (atom_of key) ≡ atom_in (num left.now op right.now)) }
{
    let constant = constant_apart(left, right);
    difference(
        alloc,
        left,
        right,
        num_low(op, constant),
        num_high(op, constant),
    )
}

// The atom of a test of an absolute value.
fn band_atom(alloc: Global, sum: &[SignedTerm], op: Op, bound: i64) -> Result<KeyAtom, AllocError>
    requires { length sum.now ≤ 16 }
    ensures { IfOk result (λ key. Some (atom_of key) ≡ atom_in (band sum.now op bound)) }
{
    let constant = constant(sum);
    let low = band_low(op, bound, constant);
    let high = band_high(op, bound, constant);
    difference(alloc, sum, &[], low, high)
}

// The atom of a test, where it is one of sums.
pub(crate) fn atom_in(
    alloc: Global,
    tree: &Tree,
    width_r: u64,
    width_s: u64,
) -> Result<Option<KeyAtom>, AllocError>
    requires { IsSound width_r width_s (formula_of tree.now) }
    ensures { IfOk result (λ key. option_map atom_of key ≡ atom_in (formula_of tree.now)) }
{
    match tree {
        Tree::Num { left, op, right } => {
            let key = num_atom(alloc, left.as_slice(), *op, right.as_slice())?;
            Ok(Some(key))
        }
        Tree::Abs { sum, op, bound } => {
            let key = band_atom(alloc, sum.as_slice(), *op, *bound)?;
            Ok(Some(key))
        }
        _ => Ok(None),
    }
}

// The first equality; where there is none, the first band; where there is none, the first inequality.
fn key_member(tree: &Tree) -> Option<&Tree>
    ensures { option_map (λ tree. formula_of tree.now) result
        ≡ key_member (conjuncts (formula_of tree.now)) }
{
    if let Some(member) = first_of(Kind::Equality, tree) {
        return Some(member);
    }
    if let Some(member) = first_of(Kind::Band, tree) {
        return Some(member);
    }
    first_of(Kind::Inequality, tree)
}

// The key atom of a tree, where it has one.
pub(crate) fn key_of(
    alloc: Global,
    tree: &Tree,
    width_r: u64,
    width_s: u64,
) -> Result<Option<KeyAtom>, AllocError>
    requires { IsSound width_r width_s (formula_of tree.now) }
    ensures { IfOk result (λ key. option_map atom_of key ≡ key_of (formula_of tree.now)) }
{
    match key_member(tree) {
        Some(member) => atom_in(alloc, member, width_r, width_s),
        None => Ok(None),
    }
}

// What a tree's key atom says of it. It has no code.
pub(crate) fn key_law(tree: &Tree, width_r: u64, width_s: u64)
    requires { IsSound width_r width_s (formula_of tree.now) }
    ensures { (atom : Atom) → key_of (formula_of tree.now) ≡ Some atom
        → IsKeyOf
        (record { formula = formula_of tree.now; width_r = width_r; width_s = width_s }) atom }
{}
