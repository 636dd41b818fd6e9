//! Why a predicate's text is refused: what may follow what stands before a place, the place below
//! its line, and what a first try in SQL's syntax meant there.
#![tactic(auto)]

mod around;
mod first_try;
mod follow;
mod kinds;
mod listing;
mod pointing;
mod sentences;
mod signs;
mod words;

pub use first_try::meant;
pub use follow::may_follow;
pub use kinds::Expected;
pub use listing::expected;
pub use pointing::caret;
