//! The text of a predicate, read as a tree of `theta_tree`.
#![tactic(auto)]

mod laws;
mod lexer;
mod parser;
mod quoted_texts;

pub use laws::texts_have_one_tree;
pub use parser::parse;
pub use theta_tree::{
    Keyword, Name, Op, Placed, Pred, PredFault, Signed, Sum, Term, TextSide, Token,
};
