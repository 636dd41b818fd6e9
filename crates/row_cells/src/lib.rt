//! Rows of cells: lists, bytes, the two sides of a join, and the tables on them.
#![tactic(auto)]

mod bytes;
mod cells;
mod columns;
mod few;
mod list;
mod number;
mod table;
mod texts;

pub use bytes::Bytes;
pub use cells::{Cells, rows_over};
pub use columns::BadNumber;
pub use few::Few;
pub use list::{Items, Names};
pub use table::{Cell, Rows, Side, Table};
pub use texts::Texts;
