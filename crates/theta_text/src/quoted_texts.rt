// Texts between quotes: where one ends, and what it contains. Two quotes in one stand for one.

ghost use Rattle.std.specs.Prelude.{◌≡◌, ◌≤◌, length, IfOk, IfSome};
ghost use Rattle.theta_text.specs.Front.{quoted_len};
ghost use Rattle.theta_text.specs.Kinds.{unquoted};

use row_cells::Bytes;
use std::alloc::{AllocError, Global};

// How many bytes there are up to the last possible closing quote and with it.
pub(crate) fn quoted(quote: u8, text: &[u8]) -> Option<usize>
    ensures found { result ≡ quoted_len quote text.now }
    ensures within { IfSome result (λ n. n ≤ length text.now) }
{
    let mut best = None;
    let mut at = 0;
    while at < text.len() {
        if text[at] != quote {
            at += 1;
            continue;
        }
        best = Some(at + 1);
        if at + 1 == text.len() || text[at + 1] != quote {
            return best;
        }
        at += 2;
    }
    best
}

// What stands between two quotes, with doubled quotes undone.
pub(crate) fn content(alloc: Global, quote: u8, text: &[u8]) -> Result<Bytes, AllocError>
    ensures { IfOk result (λ bytes. bytes ≡ unquoted quote text.now) }
{
    let mut bytes = Bytes::new(alloc);
    let [_, inner @ ..] = text else {
        return Ok(bytes);
    };
    let mut begun = false;
    for b in inner {
        let first = *b == quote && !begun;
        if !first {
            bytes.push(*b)?;
        }
        begun = first;
    }
    Ok(bytes)
}
