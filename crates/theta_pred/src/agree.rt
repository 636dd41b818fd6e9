// What rows of the two sides agree in.

ghost use Rattle.std.specs.Prelude.{◌≡◌, ◌^◌, IfOk};
ghost use Rattle.theta_pred.specs.Keys.{atom_of, parts_on};
ghost use Rattle.theta_pred.specs.Sizes.{IsAtMost};

use crate::atom::{KeyAtom, Linear};
use crate::text_atom::TextAtom;
use crate::theta::Theta;
use row_cells::{Items, Side};
use std::alloc::{AllocError, Global};

/// A sum of R and a sum of S that agree where the first is so much above the second.
#[derive(Debug, Drop)]
pub struct SumPair {
    pub r_sum: Linear,
    pub s_sum: Linear,
    pub gap: i128,
    pub ghost small: { IsAtMost (2 ^ 100) gap },
}

/// A test that reads rows of this side alone: `test` names no column of the other.
#[derive(Drop)]
pub struct Alone {
    pub side: Side,
    pub test: Theta,
}

/// What rows of the two sides agree in: two texts, or two sums, or a test of the row of one side.
#[derive(Drop)]
pub enum Same {
    Texts(TextAtom),
    Sums(SumPair),
    Alone(Alone),
}

pub type Sames = Items<Same>;

/// The tests that a sum of one side, that of `points`, lies between two sums of the other: `lower`
/// bounds it from below, `upper` from above.
#[derive(Debug, Drop)]
pub struct Interval {
    pub points: Side,
    pub lower: KeyAtom,
    pub upper: KeyAtom,
    pub ghost same: { parts_on points (atom_of lower) ≡ parts_on points (atom_of upper) },
}

/// Where the sums of one side lie: so far from one sum of the other, or between two.
#[derive(Debug, Drop)]
pub enum Range {
    Span(KeyAtom),
    Interval(Interval),
}

/// All in which rows agree of which a predicate is true, and the range in which their sums lie.
#[derive(Drop)]
pub struct Access {
    pub sames: Sames,
    pub range: Option<Range>,
}

impl SumPair {
    fn copy(&self) -> Result<SumPair, AllocError>
        ensures { IfOk result (λ pair. pair ≡ self.now) }
    {
        Ok(SumPair {
            r_sum: self.r_sum.copy()?,
            s_sum: self.s_sum.copy()?,
            gap: self.gap,
        })
    }
}

impl Alone {
    fn copy(&self) -> Result<Alone, AllocError>
        ensures { IfOk result (λ alone. alone ≡ self.now) }
    {
        Ok(Alone {
            side: self.side,
            test: self.test.copy()?,
        })
    }
}

impl Same {
    fn copy(&self) -> Result<Same, AllocError>
        ensures { IfOk result (λ same. same ≡ self.now) }
    {
        Ok(match self {
            Same::Texts(atom) => Same::Texts(*atom),
            Same::Sums(pair) => Same::Sums(pair.copy()?),
            Same::Alone(alone) => Same::Alone(alone.copy()?),
        })
    }
}

impl Interval {
    fn copy(&self) -> Result<Interval, AllocError>
        ensures { IfOk result (λ interval. interval ≡ self.now) }
    {
        Ok(Interval {
            points: self.points,
            lower: self.lower.copy()?,
            upper: self.upper.copy()?,
        })
    }
}

impl Range {
    fn copy(&self) -> Result<Range, AllocError>
        ensures { IfOk result (λ range. range ≡ self.now) }
    {
        Ok(match self {
            Range::Span(atom) => Range::Span(atom.copy()?),
            Range::Interval(interval) => Range::Interval(interval.copy()?),
        })
    }
}

// Equal agreements.
fn copy_of(alloc: Global, sames: &[Same]) -> Result<Sames, AllocError>
    ensures { IfOk result (λ copies. copies ≡ sames.now) }
{
    let mut copies = Vec::new(alloc);
    for same in sames {
        copies.push(same.copy()?)?;
    }
    Ok(Sames::from_vec(copies))
}

// An equal range, where there is one.
fn range_copy(range: &Option<Range>) -> Result<Option<Range>, AllocError>
    ensures { IfOk result (λ copy. copy ≡ range.now) }
{
    Ok(match range {
        Some(range) => Some(range.copy()?),
        None => None,
    })
}

impl Access {
    /// An equal access.
    pub fn copy(&self) -> Result<Access, AllocError>
        ensures { IfOk result (λ access. access ≡ self.now) }
    {
        Ok(Access {
            sames: copy_of(self.sames.allocator(), self.sames.as_slice())?,
            range: range_copy(&self.range)?,
        })
    }
}
