// The test that an index of stored rows serves.

ghost use Rattle.std.specs.Prelude.{◌≡◌, ◌≤◌, ◌^◌, length, IfOk, IfSome};
ghost use Rattle.std.specs.Option.{ForSome};
ghost use Rattle.theta_pred.specs.Sizes.{IsAtMost};

use row_cells::{Cells, Items};
use std::alloc::AllocError;

/// A column of one side with its sign, its place counted from 0.
#[derive(Clone, Copy, Debug, PartialEq, Eq)]
pub struct Part {
    pub minus: bool,
    pub column: u64,
}

pub type Parts = Items<Part>;

impl Part {
    ghost use Rattle.theta_pred.specs.Linear.{part_of};

    // The number of the part's cell with its sign.
    fn value(self, row: &Cells) -> Option<i128>
        ensures value { result ≡ part_of self row.now }
        ensures small { IfSome result (IsAtMost (2 ^ 63)) }
    {
        let value = i128::from(row.number_at(self.column)?);
        Some(if self.minus { -value } else { value })
    }
}

/// A sum of columns of one side. A column that occurs twice stands twice.
#[derive(Debug, Drop)]
pub struct Linear {
    pub parts: Parts,
    pub ghost short: { length parts ≤ 32 },
}

impl Linear {
    ghost use Rattle.theta_pred.specs.Linear.{value_of};

    /// The whole number that the sum is over a row, or none where a cell of the sum is empty, no
    /// number or beyond the row. It takes no memory.
    pub fn value(&self, row: &Cells) -> Option<i128>
        ensures value { result ≡ value_of self.now.parts row.now }
        ensures small { IfSome result (IsAtMost (2 ^ 68)) }
    {
        let mut value = 0;
        for part in self.parts.as_slice() {
            value += part.value(row)?;
        }
        Some(value)
    }

    /// An equal sum.
    pub fn copy(&self) -> Result<Linear, AllocError>
        ensures { IfOk result (λ sum. sum ≡ self.now) }
    {
        Ok(Linear {
            parts: Parts::from_vec(Vec::from_slice(self.parts.allocator(), self.parts.as_slice())?),
        })
    }
}

/// The test that R's sum less S's sum lies from `low` to `high`. An absent bound is no bound.
#[derive(Debug, Drop)]
pub struct KeyAtom {
    pub r_sum: Linear,
    pub s_sum: Linear,
    pub low: Option<i128>,
    pub high: Option<i128>,
    pub ghost low_small: { ForSome low (IsAtMost (2 ^ 100)) },
    pub ghost high_small: { ForSome high (IsAtMost (2 ^ 100)) },
}

impl KeyAtom {
    /// An equal test.
    pub fn copy(&self) -> Result<KeyAtom, AllocError>
        ensures { IfOk result (λ atom. atom ≡ self.now) }
    {
        Ok(KeyAtom {
            r_sum: self.r_sum.copy()?,
            s_sum: self.s_sum.copy()?,
            low: self.low,
            high: self.high,
        })
    }
}
