// Where a report begins in a text, whether it ends there, and which line a place is in.

ghost use Rattle.std.specs.Prelude.{◌≡◌, ◌≢◌, ◌≤◌, ◌<◌, ◌+◌, ◌⊎◌, ℕ, IsTrue, drop, get_or, length, take};
ghost use Rattle.report_picture.specs.Texts.{AreLines, BeginsLine, EndsWith, MayBegin, feeds_in};

// How many bytes a line has without its line feed.
fn line_len(text: &[u8]) -> usize
    ensures within { result ≤ length text.now }
    ensures line { (place : ℕ) → place < result → get_or text.now place 0 ≢ 10 }
    ensures feed { result < length text.now → get_or text.now result 0 ≡ 10 }
{
    let mut len = 0;
    while len < text.len() && text[len] != b'\n' {
        len += 1;
    }
    len
}

// This place if a report may begin there, else the one that was found before.
fn later_start(text: &[u8], place: usize, start: usize) -> usize
    requires place { place < length text.now }
    requires line { BeginsLine text.now place }
    ensures yes { MayBegin text.now place → result ≡ place }
    ensures no { (MayBegin text.now place → ⊥) → result ≡ start }
    ensures either { (result ≡ start) ⊎ ((result ≡ place) × MayBegin text.now place) }
{
    if text[place..].starts_with(b"input ") {
        place
    } else {
        start
    }
}

// Where the last line begins that begins with `input `; the text's end where there is none.
pub(crate) fn report_start(text: &[u8]) -> usize
    ensures within { result ≤ length text.now }
    ensures there { result < length text.now → MayBegin text.now result }
    ensures last { (place : ℕ) → MayBegin text.now place → place ≤ result }
    ensures found { (place : ℕ) → MayBegin text.now place → result < length text.now }
{
    let mut start = text.len();
    let mut place = 0;
    while place < text.len() {
        start = later_start(text, place, start);
        place += line_len(&text[place..]) + 1;
    }
    start
}

// Whether a line may begin here.
fn begins_line(text: &[u8], place: usize) -> bool
    requires { place ≤ length text.now }
    ensures lines { IsTrue result → AreLines (take place text.now) }
    ensures found { BeginsLine text.now place → IsTrue result }
{
    place == 0 || text[place - 1] == b'\n'
}

// Whether the text is lines up to this place, and then just another text.
pub(crate) fn ends_with(text: &[u8], place: usize, end: &[u8]) -> bool
    requires { place ≤ length text.now }
    ensures ends { IsTrue result → EndsWith text.now end.now }
    ensures found { BeginsLine text.now place → drop place text.now ≡ end.now → IsTrue result }
{
    begins_line(text, place) && &text[place..] == end
}

fn line_feeds(text: &[u8]) -> usize
    ensures count { result ≡ feeds_in text.now }
    ensures within { result ≤ length text.now }
{
    text.iter().filter(|byte| **byte == b'\n').count()
}

// How many bytes two texts begin with alike.
pub(crate) fn alike(text: &[u8], other: &[u8]) -> usize
    ensures { result ≤ length text.now }
{
    text.iter()
        .zip(other.iter())
        .take_while(|(byte, wanted)| *byte == *wanted)
        .count()
}

// The number of the line in which this place is, counted from 1.
pub(crate) fn line_at(text: &[u8], place: usize) -> u64
    requires { place ≤ length text.now }
    ensures { result ≡ feeds_in (take place text.now) + 1 }
{
    line_feeds(&text[..place]) as u64 + 1
}
