// The places of one value, those that a probe looks at, and where it asks for them.

use row_cells::Few;

pub(crate) type Places = Few<u64>;

pub(crate) type Found = Few<u64>;

// Two bounds between which an index is read.
#[derive(Clone, Copy, Default)]
pub struct Window {
    pub from: i128,
    pub to: i128,
}

pub(crate) type Windows = Few<Window>;
