// The tokens of a text.

use crate::tree::Op;
use row_cells::Bytes;

/// What a word means in the grammar.
#[derive(Clone, Copy, Debug, PartialEq, Eq)]
pub enum Keyword {
    And,
    Or,
    Not,
    Abs,
    Text,
    R,
    S,
    Other,
}

/// A token. A word and a number have their bytes as they stand, and what is quoted its content,
/// with doubled quotes undone.
#[derive(Drop)]
pub enum Token {
    Word(Keyword, Bytes),
    Number(Bytes),
    Literal(Bytes),
    Quoted(Bytes),
    Open,
    Close,
    Dot,
    /// True for `-`, false for `+`.
    Sign(bool),
    Compare(Op),
    /// The rest of a text, where no token begins.
    Stray,
}

/// A token, and the offset of its first byte in the text, counted from 0.
#[derive(Drop)]
pub struct Placed {
    pub token: Token,
    pub place: u64,
}
