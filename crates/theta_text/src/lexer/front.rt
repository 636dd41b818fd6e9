// The kind of the token at the front of a text.

ghost use Rattle.std.specs.Prelude.{◌≡◌, ◌≤◌, length};
ghost use Rattle.std.specs.List.{prefix_len};
ghost use Rattle.theta_tree.specs.Tokens.{is_letter, is_digit, is_word, is_blank};
ghost use Rattle.theta_text.specs.Front.{with_equals, sign, front};

use crate::lexer::kind::Kind;
use crate::quoted_texts::quoted;

// The kind and the length of the longest token at the front.
pub(crate) fn front_kind(text: &[u8]) -> Option<(Kind, usize)>
    ensures { result ≡ front text.now }
{
    match text {
        [] => None,
        [first, rest @ ..] => {
            if letter(*first) {
                Some((Kind::Word, 1 + word_chars(rest)))
            } else if digit(*first) {
                Some((Kind::Number, 1 + digits(rest)))
            } else if *first == b'\'' {
                Some((Kind::Literal, 1 + quoted(b'\'', rest)?))
            } else if *first == b'"' {
                Some((Kind::Name, 1 + quoted(b'"', rest)?))
            } else {
                sign_kind(*first, rest)
            }
        }
    }
}

fn sign_kind(first: u8, rest: &[u8]) -> Option<(Kind, usize)>
    ensures { result ≡ sign first rest.now }
{
    match first {
        b'(' => Some((Kind::Open, 1)),
        b')' => Some((Kind::Close, 1)),
        b'.' => Some((Kind::Dot, 1)),
        b'+' => Some((Kind::Plus, 1)),
        b'-' => Some((Kind::Minus, 1)),
        b'=' => Some((Kind::Eq, 1)),
        b'!' => match rest {
            [b'=', ..] => Some((Kind::Ne, 2)),
            _ => None,
        },
        b'<' => Some(or_equal(Kind::Lt, Kind::Le, rest)),
        b'>' => Some(or_equal(Kind::Gt, Kind::Ge, rest)),
        _ => None,
    }
}

fn or_equal(one: Kind, two: Kind, rest: &[u8]) -> (Kind, usize)
    ensures { Some result ≡ with_equals one two rest.now }
{
    match rest {
        [b'=', ..] => (two, 2),
        _ => (one, 1),
    }
}

#[tactic(auto, using(crate::proofs::Fronts::run_le))]
fn word_chars(text: &[u8]) -> usize
    ensures run { result ≡ prefix_len is_word text.now }
    ensures within { result ≤ length text.now }
{
    text.iter()
        .take_while(|b| letter(**b) || digit(**b))
        .count()
}

#[tactic(auto, using(crate::proofs::Fronts::run_le))]
fn digits(text: &[u8]) -> usize
    ensures run { result ≡ prefix_len is_digit text.now }
    ensures within { result ≤ length text.now }
{
    text.iter().take_while(|b| digit(**b)).count()
}

fn letter(b: u8) -> bool
    ensures { result ≡ is_letter b }
{
    (b'A' <= b && b <= b'Z') || (b'a' <= b && b <= b'z') || b == b'_'
}

fn digit(b: u8) -> bool
    ensures { result ≡ is_digit b }
{
    b'0' <= b && b <= b'9'
}

pub(crate) fn blank(b: u8) -> bool
    ensures { result ≡ is_blank b }
{
    b == b' ' || b == b'\t' || b == b'\n' || b == b'\r'
}
