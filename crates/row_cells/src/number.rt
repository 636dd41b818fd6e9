// The number that a text writes.

ghost use Rattle.std.specs.Prelude.{◌≡◌, ◌↔◌, ◌≤◌, ℤ, pos, true, None, Some, IfSome, length};
ghost use Rattle.row_cells.specs.Numbers.{IsNumber, number_of, others_at, spaces_at};

// How many spaces a text begins with.
pub(crate) fn spaces_before(text: &[u8]) -> usize
    ensures count { result ≡ spaces_at text.now }
    ensures within { result ≤ length text.now }
{
    let mut place = 0;
    while place < text.len() && text[place] == b' ' {
        place += 1;
    }
    place
}

// How many other bytes a text begins with.
fn others_before(text: &[u8]) -> usize
    ensures count { result ≡ others_at text.now }
    ensures within { result ≤ length text.now }
{
    let mut place = 0;
    while place < text.len() && text[place] != b' ' {
        place += 1;
    }
    place
}

// Whether a text begins with a byte that is no space, sign or digit.
fn begins_otherwise(text: &[u8]) -> bool
    ensures { result ≡ true → number_of text.now ≡ None }
{
    match text {
        [first, ..] => *first > b'9',
        [] => false,
    }
}

// The number of a text that is 1 to 18 digits and nothing else.
fn short_number(text: &[u8]) -> Option<u64>
    ensures { IfSome result (λ number. number_of text.now ≡ Some (pos number)) }
{
    if text.is_empty() || text.len() > 18 {
        return None;
    }
    let mut number = 0;
    let mut place = 0;
    while place < text.len() {
        if !text[place].is_ascii_digit() {
            return None;
        }
        number = number * 10 + (text[place] - b'0') as u64;
        place += 1;
    }
    Some(number)
}

// The number of any text, where it is one.
fn long_number(text: &[u8]) -> Option<i64>
    ensures { result ≡ number_of text.now }
{
    let rest = &text[spaces_before(text)..];
    let size = others_before(rest);
    let numeral = &rest[..size];
    let after = &rest[size..];
    if spaces_before(after) != after.len() {
        return None;
    }
    let Ok(numeral) = str::from_utf8(numeral) else {
        return None;
    };
    numeral.parse().ok()
}

// The number of a text, where it is one. Most texts of a file are a few digits, or begin with a letter.
pub(crate) fn number_in(text: &[u8]) -> Option<i64>
    ensures value { result ≡ number_of text.now }
    ensures exact { (number : ℤ) → (result ≡ Some number) ↔ IsNumber text.now number }
{
    if begins_otherwise(text) {
        return None;
    }
    if let Some(number) = short_number(text) {
        return Some(number as i64);
    }
    long_number(text)
}
