// The sentences that `meant` answers, word for word.

pub(super) const COLUMN: &str = "each column says whose it is: write r.NAME or s.NAME";

pub(super) const TABLE: &str = "the two files are r and s, in lower case";

pub(super) const FUNCTION: &str = "there are no functions but text(..) and abs(..)";

pub(super) const TEXTS: &str =
    "a column is a number, and text(r.NAME) is its text: both sides are numbers, or both texts";

pub(super) const QUOTES: &str =
    "a text stands in single quotes, and a name in double quotes only behind r. or s.";

pub(super) const UNCLOSED: &str = "the quote that opens here is not closed";

pub(super) const WHOLE: &str = "a number is whole, and written in digits alone";

pub(super) const PRODUCT: &str = "there are no products: write a sum, as r.a + r.a";

pub(super) const QUOTIENT: &str = "there are no quotients: only + and -";

pub(super) const BRACKETS: &str = "sums have no brackets: write r.a - s.a + 1 for r.a - (s.a - 1)";

pub(super) const UNEQUAL: &str = "not equal is written !=";

pub(super) const EQUAL: &str = "equal is written with one =";

pub(super) const OR_EQUAL: &str = "at most is written <=, and at least >=";

pub(super) const CHAIN: &str = "comparisons form no chain: write r.a < s.a and s.a < 40";

pub(super) const ABS_RIGHT: &str =
    "abs(..) is compared with a whole number alone: write r.a - s.a <= r.b and s.a - r.a <= r.b";

pub(super) const ABS_LEFT: &str = "abs(..) stands alone on the left: write abs(r.a - s.a) <= 5";

pub(super) const NULL: &str = "there is no null: an empty cell is text(r.NAME) = ''";

pub(super) const NEGATION: &str = "not stands before a whole comparison, as not r.a = s.a";

pub(super) const SEMICOLON: &str = "there is no ; at the end";
