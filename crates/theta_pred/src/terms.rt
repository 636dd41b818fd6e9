// The terms of sums, and the sides of tests on texts, over places.

ghost use Rattle.std.specs.Prelude.{◌≡◌, length, All, IfOk, IfErr, OnOk};
ghost use Rattle.theta_pred.specs.Names.{term_names, sum_names, side_names, StandsOnce};
ghost use Rattle.theta_pred.specs.Resolved.{resolved_term, resolved_sum, resolved_side, Tells};
ghost use Rattle.theta_pred.specs.Sound.{IsNumberWithin, IsTextWithin, AreWithin};

use crate::fault::ResolveFault;
use crate::named::resolved_name;
use crate::tree::{Number, SignedTerm, SignedTerms, Text};
use row_cells::Names;
use std::alloc::Global;
use theta_tree::{Sum, Term, TextSide};

fn resolved_number(term: &Term, names_r: &Names, names_s: &Names) -> Result<Number, ResolveFault>
    ensures ok { IfOk result (λ number. number ≡ resolved_term names_r.now names_s.now term.now) }
    ensures within { OnOk result (IsNumberWithin (length names_r.now) (length names_s.now)
        (resolved_term names_r.now names_s.now term.now)) }
    ensures once { OnOk result (All (StandsOnce names_r.now names_s.now) (term_names term.now)) }
    ensures err { IfErr result (Tells names_r.now names_s.now (term_names term.now)) }
{
    match term {
        Term::Const(value) => Ok(Number::Given(*value)),
        Term::Col(name) => Ok(Number::Cell(resolved_name(name, names_r, names_s)?)),
    }
}

pub(crate) fn resolved_text(
    side: &TextSide,
    names_r: &Names,
    names_s: &Names,
) -> Result<Text, ResolveFault>
    ensures ok { IfOk result (λ text. text ≡ resolved_side names_r.now names_s.now side.now) }
    ensures within { OnOk result (IsTextWithin (length names_r.now) (length names_s.now)
        (resolved_side names_r.now names_s.now side.now)) }
    ensures once { OnOk result (All (StandsOnce names_r.now names_s.now) (side_names side.now)) }
    ensures err { IfErr result (Tells names_r.now names_s.now (side_names side.now)) }
{
    match side {
        TextSide::Lit(bytes) => Ok(Text::Given(bytes.copy()?)),
        TextSide::Col(name) => Ok(Text::Cell(resolved_name(name, names_r, names_s)?)),
    }
}

pub(crate) fn resolved_terms(
    alloc: Global,
    sum: &Sum,
    names_r: &Names,
    names_s: &Names,
) -> Result<SignedTerms, ResolveFault>
    ensures ok { IfOk result (λ terms. terms ≡ resolved_sum names_r.now names_s.now sum.now) }
    ensures within { OnOk result (AreWithin (length names_r.now) (length names_s.now)
        (resolved_sum names_r.now names_s.now sum.now)) }
    ensures once { OnOk result (All (StandsOnce names_r.now names_s.now) (sum_names sum.now)) }
    ensures err { IfErr result (Tells names_r.now names_s.now (sum_names sum.now)) }
{
    let mut terms = SignedTerms::with_room(alloc, sum.len() as usize)?;
    for signed in sum.as_slice() {
        let number = resolved_number(&signed.term, names_r, names_s)?;
        terms.push(SignedTerm {
            minus: signed.minus,
            number,
        })?;
    }
    Ok(terms)
}
