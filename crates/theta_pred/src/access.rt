// What rows of the two sides agree in by a tree's conjunctions, and the range beside it.

ghost use Rattle.std.specs.Prelude.{◌≡◌, ◌||◌, map, option_map, IfOk, Option, Some};
ghost use Rattle.theta_pred.specs.Accesses.{
  access_of,
  agreement_of,
  all_terms,
  has_same,
  tells_more,
  terms_of,
  AreOver,
  IsAccessOf,
  IsOverRows,
  Terms,
};
ghost use Rattle.theta_pred.specs.declared.agree.Access.{Access as Access'};
ghost use Rattle.theta_pred.specs.declared.atom.KeyAtom.{KeyAtom as KeyAtom'};
ghost use Rattle.theta_pred.specs.Formula.{formula_of, Meaning};
ghost use Rattle.theta_pred.specs.Keys.{atom_of, key_of};
ghost use Rattle.theta_pred.specs.Sound.{IsSound};

use crate::agree::{Access, Same};
use crate::key::key_of;
use crate::range::{range_of, tells_more};
use crate::tree::Tree;
use crate::tree_agreements::sames_of;
use crate::tree_spans::spans_of;
use std::alloc::{AllocError, Global};

// All that a tree says by agreements and a range.
fn all_of(alloc: Global, tree: &Tree, width_r: u64, width_s: u64) -> Result<Access, AllocError>
    requires { IsSound width_r width_s (formula_of tree.now) }
    ensures says { IfOk result (λ access. terms_of access ≡ all_terms (formula_of tree.now)) }
    ensures widths { IfOk result (λ access. AreOver width_r width_s access.sames) }
{
    let sames = sames_of(alloc, tree, width_r, width_s)?;
    let spans = spans_of(alloc, tree, width_r, width_s)?;
    let range = range_of(alloc, spans.as_slice())?;
    Ok(Access { sames, range })
}

// Whether there is an agreement.
fn has_same(sames: &[Same]) -> bool
    ensures { result ≡ has_same (map agreement_of sames.now) }
{
    sames.len() != 0
}

// Whether an access says more than the key atom of its tree.
fn tells_more_of(
    alloc: Global,
    tree: &Tree,
    width_r: u64,
    width_s: u64,
    access: &Access,
) -> Result<bool, AllocError>
    requires { IsSound width_r width_s (formula_of tree.now) }
    ensures { IfOk result (λ more. more ≡ (has_same (terms_of access.now).sames
        || tells_more (key_of (formula_of tree.now)) (terms_of access.now).range)) }
{
    if has_same(access.sames.as_slice()) {
        return Ok(true);
    }
    let key = key_of(alloc, tree, width_r, width_s)?;
    tells_more(alloc, &key, &access.range)
}

// The access of a tree, where it has one.
pub(crate) fn access_of(
    alloc: Global,
    tree: &Tree,
    width_r: u64,
    width_s: u64,
) -> Result<Option<Access>, AllocError>
    requires { IsSound width_r width_s (formula_of tree.now) }
    ensures says { IfOk result (λ access.
        option_map terms_of access ≡ access_of (formula_of tree.now)) }
    ensures widths { IfOk result (IsOverRows
        (record { formula = formula_of tree.now; width_r = width_r; width_s = width_s })) }
{
    let access = all_of(alloc, tree, width_r, width_s)?;
    match tells_more_of(alloc, tree, width_r, width_s, &access) {
        Ok(true) => Ok(Some(access)),
        Ok(false) => {
            drop(access);
            Ok(None)
        }
        Err(refused) => {
            drop(access);
            Err(refused)
        }
    }
}

// What a tree's access says of it. It has no code.
pub(crate) fn access_law(tree: &Tree, width_r: u64, width_s: u64)
    ensures { (terms : Terms) → access_of (formula_of tree.now) ≡ Some terms
        → IsAccessOf
        (record { formula = formula_of tree.now; width_r = width_r; width_s = width_s }) terms }
{}

/// Two keys that say the same are one. So are two accesses, whose tests of one side read rows of one predicate's widths.
/// It has no code.
pub fn ways_are_one()
    ensures keys { (a b : Option KeyAtom') → option_map atom_of a ≡ option_map atom_of b → a ≡ b }
    ensures accesses { (theta : Meaning) (a b : Option Access')
        → IsOverRows theta a → IsOverRows theta b
        → option_map terms_of a ≡ option_map terms_of b → a ≡ b }
{}
