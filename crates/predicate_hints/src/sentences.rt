// What a first try in SQL's syntax meant, in plain words.

pub(crate) const COLUMN: &str = "each column says whose it is: write r.NAME or s.NAME";

pub(crate) const TABLE: &str = "the two files are r and s, in lower case";

pub(crate) const FUNCTION: &str = "there are no functions but text(..) and abs(..)";

pub(crate) const TEXTS: &str =
    "a column is a number, and text(r.NAME) is its text: both sides are numbers, or both texts";

pub(crate) const QUOTES: &str =
    "a text stands in single quotes, and a name in double quotes only behind r. or s.";

pub(crate) const UNCLOSED: &str = "the quote that opens here is not closed";

pub(crate) const WHOLE: &str = "a number is whole, and written in digits alone";

pub(crate) const PRODUCT: &str = "there are no products: write a sum, as r.a + r.a";

pub(crate) const QUOTIENT: &str = "there are no quotients: only + and -";

pub(crate) const BRACKETS: &str = "sums have no brackets: write r.a - s.a + 1 for r.a - (s.a - 1)";

pub(crate) const UNEQUAL: &str = "not equal is written !=";

pub(crate) const EQUAL: &str = "equal is written with one =";

pub(crate) const OR_EQUAL: &str = "at most is written <=, and at least >=";

pub(crate) const CHAIN: &str = "comparisons form no chain: write r.a < s.a and s.a < 40";

pub(crate) const ABS_RIGHT: &str =
    "abs(..) is compared with a whole number alone: write r.a - s.a <= r.b and s.a - r.a <= r.b";

pub(crate) const ABS_LEFT: &str = "abs(..) stands alone on the left: write abs(r.a - s.a) <= 5";

pub(crate) const NULL: &str = "there is no null: an empty cell is text(r.NAME) = ''";

pub(crate) const NEGATION: &str = "not stands before a whole comparison, as not r.a = s.a";

pub(crate) const SEMICOLON: &str = "there is no ; at the end";

/// Words that are lower case here.
pub(crate) const KEYWORDS: [(&[u8], &str); 3] = [
    (b"and", "keywords are lower case: write and"),
    (b"or", "keywords are lower case: write or"),
    (b"not", "keywords are lower case: write not"),
];

/// Words that are lower case here, with what stands behind them.
pub(crate) const OPENERS: [(&[u8], u8, &str); 4] = [
    (b"text", b'(', "keywords are lower case: write text(r.NAME)"),
    (b"abs", b'(', "keywords are lower case: write abs(..)"),
    (b"r", b'.', TABLE),
    (b"s", b'.', TABLE),
];

/// Words of SQL behind a column.
pub(crate) const OPERATORS: [(&[u8], &str); 5] = [
    (
        b"between",
        "there is no between: write r.a >= 10 and r.a <= 20",
    ),
    (b"in", "there is no in: write r.a = 10 or r.a = 20"),
    (
        b"like",
        "there is no like: write text(r.NAME) >= 'A' and text(r.NAME) < 'B'",
    ),
    (b"is", NULL),
    (b"not", NEGATION),
];
