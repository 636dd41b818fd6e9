// The byte order marks at the beginning of a text.

ghost use Rattle.std.specs.Prelude.{◌≡◌};
ghost use Rattle.join_rows.specs.Records.{after_marks, has_mark};

// Whether a text begins with a byte order mark.
fn begins_with_mark(text: &[u8]) -> bool
    ensures { result ≡ has_mark text.now }
{
    match text {
        [a, b, c, ..] => *a == 0xEF && *b == 0xBB && *c == 0xBF,
        _ => false,
    }
}

// The text after each byte order mark at its beginning.
pub(crate) fn without_marks(text: &[u8]) -> &[u8]
    ensures { result.now ≡ after_marks text.now }
{
    let mut rest = text;
    while begins_with_mark(rest) {
        rest = &rest[3..];
    }
    rest
}
