// What the bytes of a token spell.

ghost use Rattle.std.specs.Prelude.{◌≡◌, IfOk};
ghost use Rattle.theta_tree.specs.Tokens.{keyword_of};
ghost use Rattle.theta_text.specs.Kinds.{token_at};

use crate::lexer::kind::Kind;
use crate::quoted_texts::content;
use row_cells::Bytes;
use std::alloc::{AllocError, Global};
use theta_tree::{Keyword, Op, Token};

// The token of this kind that the text is.
pub(crate) fn token_of(alloc: Global, kind: Kind, text: &[u8]) -> Result<Token, AllocError>
    ensures { IfOk result (λ token. token ≡ token_at kind text.now) }
{
    Ok(match kind {
        Kind::Word => Token::Word(keyword(text), Bytes::from_slice(alloc, text)?),
        Kind::Number => Token::Number(Bytes::from_slice(alloc, text)?),
        Kind::Literal => Token::Literal(content(alloc, b'\'', text)?),
        Kind::Name => Token::Quoted(content(alloc, b'"', text)?),
        Kind::Open => Token::Open,
        Kind::Close => Token::Close,
        Kind::Dot => Token::Dot,
        Kind::Plus => Token::Sign(false),
        Kind::Minus => Token::Sign(true),
        Kind::Eq => Token::Compare(Op::Eq),
        Kind::Ne => Token::Compare(Op::Ne),
        Kind::Lt => Token::Compare(Op::Lt),
        Kind::Le => Token::Compare(Op::Le),
        Kind::Gt => Token::Compare(Op::Gt),
        Kind::Ge => Token::Compare(Op::Ge),
        Kind::Stray => Token::Stray,
    })
}

fn keyword(word: &[u8]) -> Keyword
    ensures { result ≡ keyword_of word.now }
{
    if word == b"and".as_slice() {
        Keyword::And
    } else if word == b"or".as_slice() {
        Keyword::Or
    } else if word == b"not".as_slice() {
        Keyword::Not
    } else if word == b"abs".as_slice() {
        Keyword::Abs
    } else if word == b"text".as_slice() {
        Keyword::Text
    } else if word == b"r".as_slice() {
        Keyword::R
    } else if word == b"s".as_slice() {
        Keyword::S
    } else {
        Keyword::Other
    }
}
