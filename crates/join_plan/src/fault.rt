// What is told where nothing is joined.

use row_cells::{Bytes, Side};

/// What is wrong with a predicate. A place is the offset of a byte in its text, counted from 0.
#[derive(Debug, Drop)]
pub enum TextFault {
    /// The token at `place` can't follow what stands before it in any predicate, or no token begins
    /// there. At the end of a text that isn't a whole predicate the place is the text's length.
    Syntax { place: u64 },
    /// The token at `place` is a `not`, or a `(` around a predicate, inside 32 others that aren't
    /// closed.
    Deep { place: u64 },
    /// The sign at `place` opens the 17th term of a sum.
    Wide { place: u64 },
    /// The number at `place` is greater than 9223372036854775807.
    Literal { place: u64 },
    /// The first name of the predicate that doesn't stand in its header just once isn't there.
    NoColumn { side: Side, name: Bytes },
    /// The first name of the predicate that doesn't stand in its header just once is there more
    /// than once.
    TwoColumns { side: Side, name: Bytes },
}

/// What is wrong with a file. Rows and columns are counted from 1, and so are waves. The third file of a second join is
/// that of S in wave 2.
#[derive(Clone, Copy, Debug, PartialEq, Eq)]
pub enum InputFault {
    /// It has no record.
    NoHeader {
        side: Side,
        wave: u32,
    },
    /// It is a table whose header isn't the first of its side, field by field.
    Header {
        side: Side,
        wave: u32,
    },
    /// The row is the first that has not as many fields as the header.
    Width {
        side: Side,
        wave: u32,
        row: u64,
        found: u64,
    },
    /// The column stands in a sum of a predicate, and the row is the first whose cell there isn't
    /// empty and is no number. The columns of the first predicate come before those of the second; of each
    /// those of side R come before those of side S, and each before those on its right. In a column earlier waves come
    /// before later ones.
    Number {
        side: Side,
        wave: u32,
        column: u64,
        row: u64,
    },
}

/// What is past a limit.
#[derive(Clone, Copy, Debug, PartialEq, Eq)]
pub enum LimitFault {
    /// The file has more than 2^24 bytes.
    TooLong { side: Side, wave: u32 },
    /// The file has more than 2^18 rows under its header.
    TooMany { side: Side, wave: u32 },
    /// The side has so many rows in the waves up to this one, the first such number past 2^18.
    Total { side: Side, wave: u32, rows: u64 },
    /// The first two files have so many matching pairs, more than the 2^18 rows that a second join takes.
    Between { pairs: u64 },
}

/// Why nothing is joined.
#[derive(Debug, Drop)]
pub enum Refusal {
    /// Of the predicate.
    Predicate(TextFault),
    /// Of the second predicate.
    Then(TextFault),
    Input(InputFault),
    Limit(LimitFault),
    /// A file couldn't be read.
    Read,
    /// Memory ran out.
    Memory,
}
