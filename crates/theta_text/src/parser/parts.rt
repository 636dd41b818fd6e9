// The small parts: signs, names, terms and the sides of text tests.

ghost use Rattle.std.specs.Prelude.{◌≡◌, ◌<◌, List, [], ◌∷◌, length, IfOk, MatchOption};
ghost use Rattle.theta_tree.specs.Grammar.{FieldText, DotText, NameText, TermText, OpText, BoundText, ColumnText, SideText};
ghost use Rattle.theta_text.specs.Machine.{Symbol, close, open', dot, field, name, term, op, bound, side, verdict};
ghost use Rattle.theta_tree.specs.Faults.{words};
ghost use Rattle.theta_tree.specs.Texts.{limits};
ghost use Rattle.theta_text.specs.Views.{Leads};
ghost use Rattle.theta_text.specs.Starts.{named_side, is_text};

use crate::parser::number::number;
use row_cells::{Bytes, Side};
use theta_tree::{Keyword, Name, Op, Placed, PredFault, Term, TextSide, Token};

// The first token and the others.
pub(crate) fn next(tokens: &[Placed]) -> Option<(&Placed, &[Placed])>
    ensures { MatchOption result (tokens.now ≡ []) (λ x. tokens.now ≡ x.0.now ∷ x.1.now) }
{
    match tokens {
        [] => None,
        [first, rest @ ..] => Some((first, rest)),
    }
}

pub(crate) fn opened(tokens: &[Placed], end: u64) -> Result<&[Placed], PredFault>
    ensures read { IfOk result (λ rest. words tokens.now ≡ Token.Open ∷ words rest.now) }
    ensures run { (s : List Symbol) → Leads (verdict limits end (open' ∷ s) tokens.now)
        (λ rest. verdict limits end s rest.now) result }
    ensures shorter { IfOk result (λ rest. length rest.now < length tokens.now) }
{
    let Some((first, rest)) = next(tokens) else {
        return Err(PredFault::Syntax { place: end });
    };
    match first.token {
        Token::Open => Ok(rest),
        _ => Err(PredFault::Syntax { place: first.place }),
    }
}

pub(crate) fn closed(tokens: &[Placed], end: u64) -> Result<&[Placed], PredFault>
    ensures read { IfOk result (λ rest. words tokens.now ≡ Token.Close ∷ words rest.now) }
    ensures run { (s : List Symbol) → Leads (verdict limits end (close ∷ s) tokens.now)
        (λ rest. verdict limits end s rest.now) result }
    ensures shorter { IfOk result (λ rest. length rest.now < length tokens.now) }
{
    let Some((first, rest)) = next(tokens) else {
        return Err(PredFault::Syntax { place: end });
    };
    match first.token {
        Token::Close => Ok(rest),
        _ => Err(PredFault::Syntax { place: first.place }),
    }
}

fn dotted(tokens: &[Placed], end: u64) -> Result<&[Placed], PredFault>
    ensures read { IfOk result (λ rest. words tokens.now ≡ Token.Dot ∷ words rest.now) }
    ensures run { (s : List Symbol) → Leads (verdict limits end (dot ∷ s) tokens.now)
        (λ rest. verdict limits end s rest.now) result }
    ensures shorter { IfOk result (λ rest. length rest.now < length tokens.now) }
{
    let Some((first, rest)) = next(tokens) else {
        return Err(PredFault::Syntax { place: end });
    };
    match first.token {
        Token::Dot => Ok(rest),
        _ => Err(PredFault::Syntax { place: first.place }),
    }
}

// any word, or a quoted name
fn field_of(tokens: &[Placed], end: u64) -> Result<(Bytes, &[Placed]), PredFault>
    ensures read { IfOk result (λ x. FieldText (words tokens.now) x.0 (words x.1.now)) }
    ensures run { (s : List Symbol) → Leads (verdict limits end (field ∷ s) tokens.now)
        (λ x. verdict limits end s x.1.now) result }
    ensures shorter { IfOk result (λ x. length x.1.now < length tokens.now) }
{
    let Some((first, rest)) = next(tokens) else {
        return Err(PredFault::Syntax { place: end });
    };
    match &first.token {
        Token::Word(_, word) => Ok((word.copy()?, rest)),
        Token::Quoted(word) => Ok((word.copy()?, rest)),
        _ => Err(PredFault::Syntax { place: first.place }),
    }
}

pub(crate) fn name_of(tokens: &[Placed], end: u64) -> Result<(Name, &[Placed]), PredFault>
    ensures read { IfOk result (λ x. NameText (words tokens.now) x.0 (words x.1.now)) }
    ensures run { (s : List Symbol) → Leads (verdict limits end (name ∷ s) tokens.now)
        (λ x. verdict limits end s x.1.now) result }
    ensures shorter { IfOk result (λ x. length x.1.now < length tokens.now) }
{
    let Some((first, rest)) = next(tokens) else {
        return Err(PredFault::Syntax { place: end });
    };
    match side_named(&first.token) {
        Some(of) => column_of(of, rest, end),
        None => Err(PredFault::Syntax { place: first.place }),
    }
}

// The side that a word names.
fn side_named(token: &Token) -> Option<Side>
    ensures { result ≡ named_side token.now }
{
    match token {
        Token::Word(Keyword::R, _) => Some(Side::R),
        Token::Word(Keyword::S, _) => Some(Side::S),
        _ => None,
    }
}

// "." and a field, behind a side
fn column_of(of: Side, tokens: &[Placed], end: u64) -> Result<(Name, &[Placed]), PredFault>
    ensures read { IfOk result (λ x.
        (x.0.side ≡ of) × DotText (words tokens.now) x.0.word (words x.1.now)) }
    ensures run { (s : List Symbol) → Leads (verdict limits end (dot ∷ field ∷ s) tokens.now)
        (λ x. verdict limits end s x.1.now) result }
    ensures shorter { IfOk result (λ x. length x.1.now < length tokens.now) }
{
    let rest = dotted(tokens, end)?;
    let (word, left) = field_of(rest, end)?;
    Ok((Name { side: of, word }, left))
}

pub(crate) fn term_of(tokens: &[Placed], end: u64) -> Result<(Term, &[Placed]), PredFault>
    ensures read { IfOk result (λ x.
        TermText limits.greatest (words tokens.now) x.0 (words x.1.now)) }
    ensures run { (s : List Symbol) → Leads (verdict limits end (term ∷ s) tokens.now)
        (λ x. verdict limits end s x.1.now) result }
    ensures shorter { IfOk result (λ x. length x.1.now < length tokens.now) }
{
    let Some((first, rest)) = next(tokens) else {
        return Err(PredFault::Syntax { place: end });
    };
    match &first.token {
        Token::Number(digits) => match number(digits.as_slice()) {
            Some(value) => Ok((Term::Const(value), rest)),
            None => Err(PredFault::Literal { place: first.place }),
        },
        Token::Word(_, _) => {
            let (name, left) = name_of(tokens, end)?;
            Ok((Term::Col(name), left))
        }
        _ => Err(PredFault::Syntax { place: first.place }),
    }
}

pub(crate) fn op_of(tokens: &[Placed], end: u64) -> Result<(Op, &[Placed]), PredFault>
    ensures read { IfOk result (λ x. OpText (words tokens.now) x.0 (words x.1.now)) }
    ensures run { (s : List Symbol) → Leads (verdict limits end (op ∷ s) tokens.now)
        (λ x. verdict limits end s x.1.now) result }
    ensures shorter { IfOk result (λ x. length x.1.now < length tokens.now) }
{
    let Some((first, rest)) = next(tokens) else {
        return Err(PredFault::Syntax { place: end });
    };
    match first.token {
        Token::Compare(op) => Ok((op, rest)),
        _ => Err(PredFault::Syntax { place: first.place }),
    }
}

pub(crate) fn bound_of(tokens: &[Placed], end: u64) -> Result<(i64, &[Placed]), PredFault>
    ensures read { IfOk result (λ x.
        BoundText limits.greatest (words tokens.now) x.0 (words x.1.now)) }
    ensures run { (s : List Symbol) → Leads (verdict limits end (bound ∷ s) tokens.now)
        (λ x. verdict limits end s x.1.now) result }
    ensures shorter { IfOk result (λ x. length x.1.now < length tokens.now) }
{
    let Some((first, rest)) = next(tokens) else {
        return Err(PredFault::Syntax { place: end });
    };
    match &first.token {
        Token::Number(digits) => match number(digits.as_slice()) {
            Some(value) => Ok((value, rest)),
            None => Err(PredFault::Literal { place: first.place }),
        },
        _ => Err(PredFault::Syntax { place: first.place }),
    }
}

pub(crate) fn side_of(tokens: &[Placed], end: u64) -> Result<(TextSide, &[Placed]), PredFault>
    ensures read { IfOk result (λ x. SideText (words tokens.now) x.0 (words x.1.now)) }
    ensures run { (s : List Symbol) → Leads (verdict limits end (side ∷ s) tokens.now)
        (λ x. verdict limits end s x.1.now) result }
    ensures shorter { IfOk result (λ x. length x.1.now < length tokens.now) }
{
    let Some((first, rest)) = next(tokens) else {
        return Err(PredFault::Syntax { place: end });
    };
    if text_word(&first.token) {
        return text_of(rest, end);
    }
    match &first.token {
        Token::Literal(content) => Ok((TextSide::Lit(content.copy()?), rest)),
        _ => Err(PredFault::Syntax { place: first.place }),
    }
}

fn text_word(token: &Token) -> bool
    ensures { result ≡ is_text token.now }
{
    matches!(token, Token::Word(Keyword::Text, _))
}

// "(" name ")", behind "text"
fn text_of(tokens: &[Placed], end: u64) -> Result<(TextSide, &[Placed]), PredFault>
    ensures read { IfOk result (λ x. ColumnText (words tokens.now) x.0 (words x.1.now)) }
    ensures run { (s : List Symbol)
        → Leads (verdict limits end (open' ∷ name ∷ close ∷ s) tokens.now)
        (λ x. verdict limits end s x.1.now) result }
    ensures shorter { IfOk result (λ x. length x.1.now < length tokens.now) }
{
    let inside = opened(tokens, end)?;
    let (name, rest) = name_of(inside, end)?;
    let left = closed(rest, end)?;
    Ok((TextSide::Col(name), left))
}
