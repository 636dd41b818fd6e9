// The tree of a predicate over the places of columns.

use row_cells::{Bytes, Items, Side};
use theta_tree::Op;

/// A column, by its side and its place in the header, counted from 0.
#[derive(Clone, Copy, Debug, PartialEq, Eq)]
pub struct Column {
    pub side: Side,
    pub place: u64,
}

/// Places of columns, counted from 0.
pub type Columns = Items<u64>;

// A predicate. `Or` and `And` have any number of members.
#[derive(Drop)]
pub enum Tree {
    Or(Vec<Tree>),
    And(Vec<Tree>),
    Not(Box<Tree>),
    Num {
        left: SignedTerms,
        op: Op,
        right: SignedTerms,
    },
    Abs {
        sum: SignedTerms,
        op: Op,
        bound: i64,
    },
    Txt {
        left: Text,
        op: Op,
        right: Text,
    },
}

// A term with its sign.
#[derive(Clone, Copy)]
pub struct SignedTerm {
    pub minus: bool,
    pub number: Number,
}

pub type SignedTerms = Items<SignedTerm>;

// A number, or the number of a column's cell.
#[derive(Clone, Copy)]
pub enum Number {
    Given(i64),
    Cell(Column),
}

// A text, or the text of a column's cell.
#[derive(Drop)]
pub enum Text {
    Given(Bytes),
    Cell(Column),
}
