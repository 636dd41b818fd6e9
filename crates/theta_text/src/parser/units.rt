// Units, conjunctions and predicates.

ghost use Rattle.std.specs.Prelude.{◌≡◌, ◌++◌, ◌<◌, ◌≤◌, List, ◌∷◌, [], length, map, IfOk};
ghost use Rattle.theta_tree.specs.Grammar.{any, every, joined, IsAnd, IsOr, Unit', Conj, Predicate, NumTest, BandRest, TxtTest};
ghost use Rattle.theta_text.specs.Machine.{Symbol, unit, tail, close, open', sum, op, bound, side, verdict};
ghost use Rattle.theta_tree.specs.Faults.{words};
ghost use Rattle.theta_tree.specs.Texts.{tree_of, limits};
ghost use Rattle.theta_tree.specs.Sizes.{longest, longest_sum};
ghost use Rattle.theta_text.specs.Views.{Leads, OnlyMemory, BeginsOff, IsPast};
ghost use Rattle.theta_text.specs.Starts.{unit_start};

use crate::parser::parts::{bound_of, closed, next, op_of, opened, side_of};
use crate::parser::sums::sum_of;
use std::alloc::Global;
use theta_tree::{Keyword, Placed, Pred, PredFault, Token};

// What a unit begins as.
#[derive(Clone, Copy)]
enum Start {
    StartNot,
    StartOpen,
    StartBand,
    StartTxt,
    StartNum,
}

// Appends a member.
fn add(members: &mut Vec<Pred>, member: Pred) -> Result<(), PredFault>
    ensures { OnlyMemory result
        (λ _. members.new.items ≡ members.old.items ++ member ∷ []) }
{
    members.push(member)?;
    Ok(())
}

// pred = conj { "or" conj }
#[cycle(parser)]
pub(crate) fn predicate<'a>(
    alloc: Global,
    tokens: &'a [Placed],
    end: u64,
    depth: u32,
) -> Result<(Pred, &'a [Placed]), PredFault>
    ensures read { IfOk result (λ x.
        Predicate (Unit' limits depth) (words tokens.now) (tree_of x.0) (words x.1.now)) }
    ensures run { (s : List Symbol)
        → Leads (verdict limits end (unit depth ∷ tail depth ∷ s) tokens.now)
        (λ x. verdict limits end s x.1.now) result }
    ensures shorter { IfOk result (λ x. length x.1.now < length tokens.now) }
    ensures narrow { IfOk result (λ x. longest_sum x.0 ≤ 16) }
{
    let (first, mut rest) = conj(alloc, tokens, end, depth)?;
    let mut others = Vec::new(alloc);
    while let Some(after) = after_or(rest) {
        match conj(alloc, after, end, depth) {
            Ok((member, left)) => {
                if let Err(fault) = add(&mut others, member) {
                    drop(first);
                    drop(others);
                    return Err(fault);
                }
                rest = left;
            }
            Err(fault) => {
                drop(first);
                drop(others);
                return Err(fault);
            }
        }
    }
    Ok((any_of(first, others)?, rest))
}

// conj = unit { "and" unit }
#[cycle(parser)]
fn conj<'a>(
    alloc: Global,
    tokens: &'a [Placed],
    end: u64,
    depth: u32,
) -> Result<(Pred, &'a [Placed]), PredFault>
    ensures read { IfOk result (λ x.
        Conj (Unit' limits depth) (words tokens.now) (tree_of x.0) (words x.1.now)) }
    ensures run { (s : List Symbol)
        → Leads (verdict limits end (unit depth ∷ tail depth ∷ s) tokens.now)
        (λ x. verdict limits end (tail depth ∷ s) x.1.now) result }
    ensures ends { IfOk result (λ x. BeginsOff IsAnd x.1.now) }
    ensures shorter { IfOk result (λ x. length x.1.now < length tokens.now) }
    ensures narrow { IfOk result (λ x. longest_sum x.0 ≤ 16) }
{
    let (first, mut rest) = one_unit(alloc, tokens, end, depth)?;
    let mut others = Vec::new(alloc);
    while let Some(after) = after_and(rest) {
        match one_unit(alloc, after, end, depth) {
            Ok((member, left)) => {
                if let Err(fault) = add(&mut others, member) {
                    drop(first);
                    drop(others);
                    return Err(fault);
                }
                rest = left;
            }
            Err(fault) => {
                drop(first);
                drop(others);
                return Err(fault);
            }
        }
    }
    Ok((every_of(first, others)?, rest))
}

// unit = "not" unit | "(" pred ")" | test
#[cycle(parser)]
fn one_unit<'a>(
    alloc: Global,
    tokens: &'a [Placed],
    end: u64,
    depth: u32,
) -> Result<(Pred, &'a [Placed]), PredFault>
    ensures read { IfOk result (λ x.
        Unit' limits depth (words tokens.now) (tree_of x.0) (words x.1.now)) }
    ensures run { (s : List Symbol) → Leads (verdict limits end (unit depth ∷ s) tokens.now)
        (λ x. verdict limits end s x.1.now) result }
    ensures shorter { IfOk result (λ x. length x.1.now < length tokens.now) }
    ensures narrow { IfOk result (λ x. longest_sum x.0 ≤ 16) }
{
    let Some((first, rest)) = next(tokens) else {
        return Err(PredFault::Syntax { place: end });
    };
    match start_of(&first.token) {
        Start::StartNot => {
            if depth == 0 {
                return Err(PredFault::Deep { place: first.place });
            }
            let (inner, rest) = one_unit(alloc, rest, end, depth - 1)?;
            let inner = Box::new(alloc, inner)?;
            Ok((Pred::Not(inner), rest))
        }
        Start::StartOpen => {
            if depth == 0 {
                return Err(PredFault::Deep { place: first.place });
            }
            let (inner, rest) = predicate(alloc, rest, end, depth - 1)?;
            match closed(rest, end) {
                Ok(rest) => Ok((inner, rest)),
                Err(fault) => {
                    drop(inner);
                    Err(fault)
                }
            }
        }
        Start::StartBand => band_of(alloc, rest, end),
        Start::StartTxt => txt_of(tokens, end),
        Start::StartNum => num_of(alloc, tokens, end),
    }
}

fn start_of(token: &Token) -> Start
    ensures { result ≡ unit_start token.now }
{
    match token {
        Token::Word(Keyword::Not, _) => Start::StartNot,
        Token::Open => Start::StartOpen,
        Token::Word(Keyword::Abs, _) => Start::StartBand,
        Token::Word(Keyword::Text, _) => Start::StartTxt,
        Token::Literal(_) => Start::StartTxt,
        _ => Start::StartNum,
    }
}

// sum op sum
fn num_of<'a>(
    alloc: Global,
    tokens: &'a [Placed],
    end: u64,
) -> Result<(Pred, &'a [Placed]), PredFault>
    ensures read { IfOk result (λ x.
        NumTest limits (words tokens.now) (tree_of x.0) (words x.1.now)) }
    ensures run { (s : List Symbol) → Leads (verdict limits end (sum ∷ op ∷ sum ∷ s) tokens.now)
        (λ x. verdict limits end s x.1.now) result }
    ensures shorter { IfOk result (λ x. length x.1.now < length tokens.now) }
    ensures narrow { IfOk result (λ x. longest_sum x.0 ≤ 16) }
{
    let (left, rest1) = sum_of(alloc, tokens, end)?;
    let (op, rest2) = op_of(rest1, end)?;
    let (right, rest3) = sum_of(alloc, rest2, end)?;
    Ok((Pred::Num { left, op, right }, rest3))
}

// side op side
fn txt_of(tokens: &[Placed], end: u64) -> Result<(Pred, &[Placed]), PredFault>
    ensures read { IfOk result (λ x. TxtTest (words tokens.now) (tree_of x.0) (words x.1.now)) }
    ensures run { (s : List Symbol) → Leads (verdict limits end (side ∷ op ∷ side ∷ s) tokens.now)
        (λ x. verdict limits end s x.1.now) result }
    ensures shorter { IfOk result (λ x. length x.1.now < length tokens.now) }
    ensures narrow { IfOk result (λ x. longest_sum x.0 ≤ 16) }
{
    let (left, rest1) = side_of(tokens, end)?;
    let (op, rest2) = op_of(rest1, end)?;
    let (right, rest3) = side_of(rest2, end)?;
    Ok((Pred::Txt { left, op, right }, rest3))
}

// "(" sum ")" op number, behind "abs"
fn band_of<'a>(
    alloc: Global,
    tokens: &'a [Placed],
    end: u64,
) -> Result<(Pred, &'a [Placed]), PredFault>
    ensures read { IfOk result (λ x.
        BandRest limits (words tokens.now) (tree_of x.0) (words x.1.now)) }
    ensures run { (s : List Symbol)
        → Leads (verdict limits end (open' ∷ sum ∷ close ∷ op ∷ bound ∷ s) tokens.now)
        (λ x. verdict limits end s x.1.now) result }
    ensures shorter { IfOk result (λ x. length x.1.now < length tokens.now) }
    ensures narrow { IfOk result (λ x. longest_sum x.0 ≤ 16) }
{
    let rest1 = opened(tokens, end)?;
    let (sum, rest2) = sum_of(alloc, rest1, end)?;
    let rest3 = closed(rest2, end)?;
    let (op, rest4) = op_of(rest3, end)?;
    let (bound, rest5) = bound_of(rest4, end)?;
    Ok((Pred::Abs { sum, op, bound }, rest5))
}

fn after_and(tokens: &[Placed]) -> Option<&[Placed]>
    ensures { IsPast IsAnd tokens.now result }
{
    let (first, rest) = next(tokens)?;
    match first.token {
        Token::Word(Keyword::And, _) => Some(rest),
        _ => None,
    }
}

fn after_or(tokens: &[Placed]) -> Option<&[Placed]>
    ensures { IsPast IsOr tokens.now result }
{
    let (first, rest) = next(tokens)?;
    match first.token {
        Token::Word(Keyword::Or, _) => Some(rest),
        _ => None,
    }
}

// One member alone stands for itself.
fn any_of(first: Pred, others: Vec<Pred>) -> Result<Pred, PredFault>
    ensures tree { OnlyMemory result
        (λ p. tree_of p ≡ joined any (tree_of first) (map tree_of others.items)) }
    ensures narrow { OnlyMemory result (λ p.
        longest_sum first ≤ 16 → longest (map longest_sum others.items) ≤ 16
        → longest_sum p ≤ 16) }
{
    let mut all = others;
    if all.is_empty() {
        return Ok(first);
    }
    all.insert(0, first)?;
    Ok(Pred::Or(all))
}

fn every_of(first: Pred, others: Vec<Pred>) -> Result<Pred, PredFault>
    ensures tree { OnlyMemory result
        (λ p. tree_of p ≡ joined every (tree_of first) (map tree_of others.items)) }
    ensures narrow { OnlyMemory result (λ p.
        longest_sum first ≤ 16 → longest (map longest_sum others.items) ≤ 16
        → longest_sum p ≤ 16) }
{
    let mut all = others;
    if all.is_empty() {
        return Ok(first);
    }
    all.insert(0, first)?;
    Ok(Pred::And(all))
}
