// What a first try in SQL's syntax meant.

ghost use Rattle.std.specs.Prelude.{◌≡◌, ◌≤◌, length};

use crate::around::is_letter;
use crate::signs::of_sign;
use crate::words::of_word;

/// What a first try in SQL's syntax meant at the place at which the text is refused, in plain words
/// without a line end; `None` where nothing is known. A text that is only unfinished is refused at
/// its end, where nothing is meant. The place is a byte's offset, counted from 0, as
/// `theta_text::parse` names it.
pub fn meant(text: &str, place: u64) -> Option<&'static str>
    ensures unfinished { length text.now ≤ place → result ≡ None }
{
    let bytes = text.as_bytes();
    let at = place as usize;
    let [first, behind @ ..] = bytes.get(at..)? else {
        return None;
    };
    let near = bytes.get(..at)?;
    let front = near.trim_ascii_end();
    if is_letter(*first) {
        of_word(near, front, bytes.get(at..)?)
    } else {
        of_sign(near, front, *first, behind)
    }
}
