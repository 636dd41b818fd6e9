// The tree of a predicate over the columns of two tables.

use row_cells::{Bytes, Items, Side};

/// A predicate. `Or` and `And` have two or more members.
#[derive(Drop)]
pub enum Pred {
    Or(Vec<Pred>),
    And(Vec<Pred>),
    Not(Box<Pred>),
    Num {
        left: Sum,
        op: Op,
        right: Sum,
    },
    Abs {
        sum: Sum,
        op: Op,
        bound: i64,
    },
    Txt {
        left: TextSide,
        op: Op,
        right: TextSide,
    },
}

/// A comparison.
#[derive(Clone, Copy, Debug, PartialEq, Eq)]
pub enum Op {
    Eq,
    Ne,
    Lt,
    Le,
    Gt,
    Ge,
}

/// A term with its sign.
#[derive(Drop)]
pub struct Signed {
    pub minus: bool,
    pub term: Term,
}

pub type Sum = Items<Signed>;

#[derive(Drop)]
pub enum Term {
    Const(i64),
    Col(Name),
}

/// A text, or the text of a column's cell.
#[derive(Drop)]
pub enum TextSide {
    Lit(Bytes),
    Col(Name),
}

/// A column, by its side and its name in the header.
#[derive(Drop)]
pub struct Name {
    pub side: Side,
    pub word: Bytes,
}
