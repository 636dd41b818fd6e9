//! The tables of files: the shelves that they are read from, the making of tables, and the sinks that bytes are written
//! to.
#![tactic(auto)]

mod both;
mod byte_order_marks;
mod disk;
mod fault;
mod find;
mod judged;
mod list_sink;
mod made;
mod map;
mod named_file;
mod read;
mod records;
mod shelf;
mod sink;
mod std_sink;

pub use both::{Made, both_tables};
pub use disk::DiskShelf;
pub use fault::TableFault;
pub use judged::judge;
pub use list_sink::ListSink;
pub use made::make_table;
pub use map::MapShelf;
pub use read::{read_bytes, read_table};
pub use records::table_in;
pub use shelf::{Failed, Shelf};
pub use sink::Sink;
pub use std_sink::StdSink;
