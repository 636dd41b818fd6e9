// The tests of two sums in a tree's conjunctions that can give a range.

ghost use Rattle.std.specs.Prelude.{◌≡◌, ◌++◌, map, option_to_list, IfOk, OnOk};
ghost use Rattle.theta_pred.specs.Accesses.{span_in, spans, spans_of};
ghost use Rattle.theta_pred.specs.Formula.{formula_of};
ghost use Rattle.theta_pred.specs.Keys.{atom_of};
ghost use Rattle.theta_pred.specs.Sound.{IsSound};

use crate::atom::KeyAtom;
use crate::key::{atom_in, is_of_kind};
use crate::kind::Kind;
use crate::spans::upright;
use crate::tree::Tree;
use row_cells::Side;
use std::alloc::{AllocError, Global};

// Appends what a tree says of two sums, where it is a test of this kind.
fn add_span(
    alloc: Global,
    kind: Kind,
    tree: &Tree,
    width_r: u64,
    width_s: u64,
    spans: &mut Vec<KeyAtom>,
) -> Result<(), AllocError>
    requires { IsSound width_r width_s (formula_of tree.now) }
    ensures { OnOk result (map atom_of spans.new.items
        ≡ map atom_of spans.old.items ++ option_to_list (span_in kind (formula_of tree.now))) }
{
    if is_of_kind(kind, tree) {
        if let Some(span) = atom_in(alloc, tree, width_r, width_s)? {
            spans.push(upright(alloc, Side::R, &span)?)?;
        }
    }
    Ok(())
}

// Appends the tests of this kind in a tree's conjunctions.
fn add_spans(
    alloc: Global,
    kind: Kind,
    tree: &Tree,
    width_r: u64,
    width_s: u64,
    spans: &mut Vec<KeyAtom>,
) -> Result<(), AllocError>
    requires { IsSound width_r width_s (formula_of tree.now) }
    ensures { OnOk result (map atom_of spans.new.items
        ≡ map atom_of spans.old.items ++ spans_of kind (formula_of tree.now)) }
{
    match tree {
        Tree::And(all) => {
            for member in all {
                add_spans(alloc, kind, member, width_r, width_s, spans)?;
            }
            Ok(())
        }
        _ => add_span(alloc, kind, tree, width_r, width_s, spans),
    }
}

// All tests that can give a range.
pub(crate) fn spans_of(
    alloc: Global,
    tree: &Tree,
    width_r: u64,
    width_s: u64,
) -> Result<Vec<KeyAtom>, AllocError>
    requires { IsSound width_r width_s (formula_of tree.now) }
    ensures { IfOk result (λ all. map atom_of all.items ≡ spans (formula_of tree.now)) }
{
    let mut all = Vec::new(alloc);
    add_spans(alloc, Kind::Band, tree, width_r, width_s, &mut all)?;
    add_spans(alloc, Kind::Inequality, tree, width_r, width_s, &mut all)?;
    Ok(all)
}
