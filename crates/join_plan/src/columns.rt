// A predicate over the headers of two tables.

ghost use Rattle.std.specs.Prelude.{◌≡◌, ◌⊎◌, ◌≤◌, ℕ, IfErr, IfOk, Ok, Err, length};
ghost use Rattle.theta_tree.specs.Sizes.{longest_sum};
ghost use Rattle.theta_tree.specs.Texts.{tree_of};
ghost use Rattle.join_rows.specs.Shelves.{Spot, Told};
ghost use Rattle.join_words.specs.Words.{Asked};
ghost use Rattle.join_plan.specs.Causes.{HasText, Refuses};
ghost use Rattle.join_plan.specs.Columns.{theta_over};

use crate::fault::Refusal;
use crate::refusal_of_fault::{Which, columns_refused};
use row_cells::Names;
use std::alloc::Global;
use theta_pred::{Theta, resolve};
use theta_tree::Pred;

/// The predicate over these headers, or its first wrong name.
pub(crate) fn theta(
    alloc: Global,
    which: Which,
    pred: &Pred,
    names_r: &Names,
    names_s: &Names,
) -> Result<Theta, Refusal>
    requires { longest_sum pred.now ≤ 16 }
    ensures answer { (result ≡ Err Refusal.Memory)
        ⊎ (result ≡ theta_over which names_r.now names_s.now (tree_of pred.now)) }
    ensures found { IfOk result
        (λ theta. theta_over which names_r.now names_s.now (tree_of pred.now) ≡ Ok theta) }
    ensures refused { (old new : ℕ) (told : Told) (spot : Spot) (asked : Asked)
        → HasText which asked → IfErr result (Refuses old new told spot asked) }
    ensures width_r { IfOk result (λ theta. theta.width_r ≡ length names_r.now) }
    ensures width_s { IfOk result (λ theta. theta.width_s ≡ length names_s.now) }
{
    match resolve(alloc, pred, names_r, names_s) {
        Ok(theta) => Ok(theta),
        Err(fault) => Err(columns_refused(which, fault)),
    }
}
