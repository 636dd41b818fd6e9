// Sums.

ghost use Rattle.std.specs.Prelude.{◌≡◌, ◌<◌, ◌≤◌, List, ◌∷◌, length, Bool, IfOk, MatchOption};
ghost use Rattle.theta_tree.specs.declared.token.Placed.{Placed as PlacedToken};
ghost use Rattle.theta_tree.specs.Grammar.{FirstText, SumText};
ghost use Rattle.theta_text.specs.Machine.{Symbol, sum, more, verdict};
ghost use Rattle.theta_tree.specs.Faults.{words};
ghost use Rattle.theta_tree.specs.Texts.{limits};
ghost use Rattle.theta_text.specs.Views.{Leads};

use crate::parser::parts::{next, term_of};
use std::alloc::Global;
use theta_tree::{Placed, PredFault, Signed, Sum, Token};

// How many terms a sum has beside the first.
const MORE: u32 = 15;

// The first term, which needs no sign.
fn first_of(tokens: &[Placed], end: u64) -> Result<(Signed, &[Placed]), PredFault>
    ensures read { IfOk result (λ x.
        FirstText limits.greatest (words tokens.now) x.0 (words x.1.now)) }
    ensures run { (s : List Symbol) → Leads (verdict limits end (sum ∷ s) tokens.now)
        (λ x. verdict limits end (more limits.more ∷ s) x.1.now) result }
    ensures shorter { IfOk result (λ x. length x.1.now < length tokens.now) }
{
    let Some((first, rest)) = next(tokens) else {
        return Err(PredFault::Syntax { place: end });
    };
    match first.token {
        Token::Sign(minus) => {
            let (term, left) = term_of(rest, end)?;
            Ok((Signed { minus, term }, left))
        }
        _ => {
            let (term, left) = term_of(tokens, end)?;
            Ok((Signed { minus: false, term }, left))
        }
    }
}

// sum = [ "+" | "-" ] term { ( "+" | "-" ) term }
pub(crate) fn sum_of<'a>(
    alloc: Global,
    tokens: &'a [Placed],
    end: u64,
) -> Result<(Sum, &'a [Placed]), PredFault>
    ensures read { IfOk result (λ x. SumText limits (words tokens.now) x.0 (words x.1.now)) }
    ensures run { (s : List Symbol) → Leads (verdict limits end (sum ∷ s) tokens.now)
        (λ x. verdict limits end s x.1.now) result }
    ensures shorter { IfOk result (λ x. length x.1.now < length tokens.now) }
    ensures narrow { IfOk result (λ x. length x.0 ≤ 16) }
{
    let (first, mut rest) = first_of(tokens, end)?;
    let mut terms = Sum::new(alloc);
    terms.push(first)?;
    let mut room = MORE;
    while let Some((minus, place, after)) = sign(rest) {
        if room == 0 {
            return Err(PredFault::Wide { place });
        }
        let (term, left) = term_of(after, end)?;
        terms.push(Signed { minus, term })?;
        room -= 1;
        rest = left;
    }
    Ok((terms, rest))
}

// Whether a sign is a minus, its place, and the tokens behind it.
fn sign(tokens: &[Placed]) -> Option<(bool, u64, &[Placed])>
    ensures { MatchOption result
        ((p : PlacedToken) (rest : List PlacedToken) → tokens.now ≡ p ∷ rest → (m : Bool)
        → p.token ≡ Token.Sign m → ⊥)
        (λ x. (p : PlacedToken) × (tokens.now ≡ p ∷ x.2.now) × (p.token ≡ Token.Sign x.0)
        × (p.place ≡ x.1)) }
{
    let (first, rest) = next(tokens)?;
    match first.token {
        Token::Sign(minus) => Some((minus, first.place, rest)),
        _ => None,
    }
}
