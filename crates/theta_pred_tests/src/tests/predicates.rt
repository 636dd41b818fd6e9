// Predicates, built node by node.

use row_cells::{Bytes, Side};
use std::alloc::{AllocError, Global};
use theta_pred::{Name, Op, Pred, Signed, Sum, Term, TextSide};

pub(super) fn name(alloc: Global, side: Side, word: &[u8]) -> Result<Name, AllocError> {
    Ok(Name {
        side,
        word: Bytes::from_slice(alloc, word)?,
    })
}

pub(super) fn column(
    alloc: Global,
    minus: bool,
    side: Side,
    word: &[u8],
) -> Result<Signed, AllocError> {
    Ok(Signed {
        minus,
        term: Term::Col(name(alloc, side, word)?),
    })
}

pub(super) fn one(alloc: Global, term: Signed) -> Result<Sum, AllocError> {
    let mut sum = Sum::new(alloc);
    match sum.push(term) {
        Ok(()) => Ok(sum),
        Err(refused) => {
            drop(sum);
            Err(refused)
        }
    }
}

// That sum and one term more.
fn with(mut sum: Sum, term: Signed) -> Result<Sum, AllocError> {
    match sum.push(term) {
        Ok(()) => Ok(sum),
        Err(refused) => {
            drop(sum);
            Err(refused)
        }
    }
}

// The sum of two terms, if the second was made.
pub(super) fn two(
    alloc: Global,
    first: Signed,
    second: Result<Signed, AllocError>,
) -> Result<Sum, AllocError> {
    match second {
        Ok(second) => both_terms(alloc, first, second),
        Err(refused) => {
            drop(first);
            Err(refused)
        }
    }
}

fn both_terms(alloc: Global, first: Signed, second: Signed) -> Result<Sum, AllocError> {
    match one(alloc, first) {
        Ok(sum) => with(sum, second),
        Err(refused) => {
            drop(second);
            Err(refused)
        }
    }
}

pub(super) fn constant(alloc: Global, value: i64) -> Result<Sum, AllocError> {
    one(
        alloc,
        Signed {
            minus: false,
            term: Term::Const(value),
        },
    )
}

// The sum that is one column.
fn one_column(alloc: Global, minus: bool, side: Side, word: &[u8]) -> Result<Sum, AllocError> {
    one(alloc, column(alloc, minus, side, word)?)
}

// left OP right, if the right was made.
fn numbers(left: Sum, op: Op, right: Result<Sum, AllocError>) -> Result<Pred, AllocError> {
    match right {
        Ok(right) => Ok(Pred::Num { left, op, right }),
        Err(refused) => {
            drop(left);
            Err(refused)
        }
    }
}

// r.x OP s.y
pub(super) fn compared(alloc: Global, op: Op) -> Result<Pred, AllocError> {
    let left = one_column(alloc, false, Side::R, b"x")?;
    numbers(left, op, one_column(alloc, false, Side::S, b"y"))
}

// not (r.x = s.y)
pub(super) fn negated(alloc: Global) -> Result<Pred, AllocError> {
    Ok(Pred::Not(Box::new(alloc, compared(alloc, Op::Eq)?)?))
}

// r.x - s.y
pub(super) fn difference(alloc: Global) -> Result<Sum, AllocError> {
    let x = column(alloc, false, Side::R, b"x")?;
    two(alloc, x, column(alloc, true, Side::S, b"y"))
}

// abs(r.x - s.y) <= 5
pub(super) fn band(alloc: Global) -> Result<Pred, AllocError> {
    Ok(Pred::Abs {
        sum: difference(alloc)?,
        op: Op::Le,
        bound: 5,
    })
}

// r.x - s.y >= 1
pub(super) fn apart(alloc: Global) -> Result<Pred, AllocError> {
    let left = difference(alloc)?;
    numbers(left, Op::Ge, constant(alloc, 1))
}

fn text_of(alloc: Global, side: Side, word: &[u8]) -> Result<TextSide, AllocError> {
    Ok(TextSide::Col(name(alloc, side, word)?))
}

fn literal(alloc: Global, text: &[u8]) -> Result<TextSide, AllocError> {
    Ok(TextSide::Lit(Bytes::from_slice(alloc, text)?))
}

// left OP right, if the right was made.
fn texts(left: TextSide, op: Op, right: Result<TextSide, AllocError>) -> Result<Pred, AllocError> {
    match right {
        Ok(right) => Ok(Pred::Txt { left, op, right }),
        Err(refused) => {
            drop(left);
            Err(refused)
        }
    }
}

// text(r.x) < text(s.y)
pub(super) fn text_below(alloc: Global) -> Result<Pred, AllocError> {
    let left = text_of(alloc, Side::R, b"x")?;
    texts(left, Op::Lt, text_of(alloc, Side::S, b"y"))
}

// text(r.x) = 'u'
pub(super) fn text_is_u(alloc: Global) -> Result<Pred, AllocError> {
    let left = text_of(alloc, Side::R, b"x")?;
    texts(left, Op::Eq, literal(alloc, b"u"))
}

fn push_either(alloc: Global, members: &mut Vec<Pred>) -> Result<(), AllocError> {
    members.push(text_is_u(alloc)?)?;
    members.push(compared(alloc, Op::Eq)?)?;
    Ok(())
}

// text(r.x) = 'u' or r.x = s.y
pub(super) fn either(alloc: Global) -> Result<Pred, AllocError> {
    let mut members = Vec::new(alloc);
    match push_either(alloc, &mut members) {
        Ok(()) => Ok(Pred::Or(members)),
        Err(refused) => {
            drop(members);
            Err(refused)
        }
    }
}

// abs(SUM) < 3
pub(super) fn below_3(sum: Sum) -> Pred {
    Pred::Abs {
        sum,
        op: Op::Lt,
        bound: 3,
    }
}

fn push_both(alloc: Global, members: &mut Vec<Pred>) -> Result<(), AllocError> {
    members.push(compared(alloc, Op::Eq)?)?;
    members.push(below_3(one_column(alloc, true, Side::R, b"x")?))?;
    Ok(())
}

// r.x = s.y and abs(-r.x) < 3
pub(super) fn both(alloc: Global) -> Result<Pred, AllocError> {
    let mut members = Vec::new(alloc);
    match push_both(alloc, &mut members) {
        Ok(()) => Ok(Pred::And(members)),
        Err(refused) => {
            drop(members);
            Err(refused)
        }
    }
}
