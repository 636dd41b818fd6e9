// The kinds of things that can stand in a predicate.

ghost use Rattle.std.specs.Prelude.{◌≡◌, MatchOption, Some, None};
ghost use Rattle.predicate_hints.specs.Listing.{sample_of};

use std::fmt;

/// A kind of thing that can stand in a predicate. It is displayed in words, as a user reads them.
#[derive(Clone, Copy, Debug, PartialEq, Eq)]
pub enum Expected {
    /// A column that is read as a number, `r.NAME` or `s.NAME`; also the one within `text(..)`.
    Column,
    /// A whole number.
    Number,
    /// `text(..)`.
    Text,
    /// `abs(..)`.
    Distance,
    /// A text in single quotes.
    Quoted,
    /// The word `not`.
    Not,
    /// An opening bracket.
    Open,
    /// A closing bracket.
    Close,
    /// The point behind `r` or `s`.
    Point,
    /// A column's name, behind the point.
    Name,
    /// `+` or `-`.
    Sign,
    /// `=`, `!=`, `<`, `<=`, `>` or `>=`.
    Comparison,
    /// The word `and`.
    And,
    /// The word `or`.
    Or,
    /// The end of the text.
    End,
}

impl Expected {
    /// The kind in plain words.
    fn words(self) -> &'static str {
        match self {
            Expected::Column => "a column, as r.NAME or s.NAME",
            Expected::Number => "a whole number",
            Expected::Text => "the text of a column, as text(r.NAME)",
            Expected::Distance => "an absolute value, as abs(r.NAME - s.NAME)",
            Expected::Quoted => "a text in single quotes",
            Expected::Not => "not",
            Expected::Open => "an opening bracket, (",
            Expected::Close => "a closing bracket, )",
            Expected::Point => "the point of r.NAME or s.NAME",
            Expected::Name => "the name of a column",
            Expected::Sign => "+ or -",
            Expected::Comparison => "a comparison: =, !=, <, <=, > or >=",
            Expected::And => "and",
            Expected::Or => "or",
            Expected::End => "the end of the text",
        }
    }
}

impl fmt::Display for Expected {
    fn fmt<W: fmt::Write>(&self, f: &mut fmt::Formatter<W>) -> fmt::Result {
        f.write_str(self.words())
    }
}

/// What is tried for a kind; for the end there is nothing to try.
pub(crate) fn sample(kind: Expected) -> Option<&'static str>
    ensures { MatchOption result (sample_of kind ≡ None)
        (λ token. sample_of kind ≡ Some token.now) }
{
    match kind {
        Expected::Column => Some("r.x"),
        Expected::Number => Some("0"),
        Expected::Text => Some("text("),
        Expected::Distance => Some("abs("),
        Expected::Quoted => Some("''"),
        Expected::Not => Some("not 0"),
        Expected::Open => Some("("),
        Expected::Close => Some(")"),
        Expected::Point => Some("."),
        Expected::Name => Some("x"),
        Expected::Sign => Some("+"),
        Expected::Comparison => Some("="),
        Expected::And => Some("and 0"),
        Expected::Or => Some("or 0"),
        Expected::End => None,
    }
}
