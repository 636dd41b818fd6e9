// From the bytes of a text to its tokens.

ghost use Rattle.std.specs.Prelude.{◌≡◌, ◌<◌, ◌≤◌, length, IfOk};
ghost use Rattle.theta_tree.specs.Tokens.{AreTokens};
ghost use Rattle.theta_text.specs.Kinds.{IsNextKind};
ghost use Rattle.std.specs.List.{prefix_len};
ghost use Rattle.theta_tree.specs.Tokens.{is_blank};

mod front;
mod kind;
mod spelling;

use crate::lexer::front::{blank, front_kind};
use crate::lexer::kind::Kind;
use crate::lexer::spelling::token_of;
use std::alloc::{AllocError, Global};
use theta_tree::Placed;

/// The tokens of the text.
pub(crate) fn lex(alloc: Global, text: &[u8]) -> Result<Vec<Placed>, AllocError>
    ensures { IfOk result (λ found. AreTokens text.now found.items) }
{
    let mut found = Vec::new(alloc);
    let mut at = blanks(text);
    while at < text.len() {
        let (kind, len) = next_kind(&text[at..]);
        let end = at + len;
        let token = token_of(alloc, kind, &text[at..end])?;
        found.push(Placed {
            token,
            place: at as u64,
        })?;
        at = end + blanks(&text[end..]);
    }
    Ok(found)
}

// The kind of the token at the front, and how many bytes it has.
fn next_kind(text: &[u8]) -> (Kind, usize)
    requires { 0 < length text.now }
    ensures next { IsNextKind text.now result.0 result.1 }
    ensures within { result.1 ≤ length text.now }
    ensures some { 0 < result.1 }
{
    match front_kind(text) {
        Some((kind, len)) => (kind, len),
        None => (Kind::Stray, text.len()),
    }
}

#[tactic(auto, using(crate::proofs::Fronts::run_le))]
fn blanks(text: &[u8]) -> usize
    ensures run { result ≡ prefix_len is_blank text.now }
    ensures within { result ≤ length text.now }
{
    text.iter().take_while(|b| blank(**b)).count()
}
