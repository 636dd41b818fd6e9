// How the matches of a row are found.

use crate::shown::push_column;
use row_cells::{Names, Side};
use std::alloc::AllocError;
use theta_pred::{Access, Interval, KeyAtom, Linear, Range, Same, Theta};

/// What stands before equalities.
const BY_VALUES: &str = "rows that agree are looked up by their values:\n";

/// What stands before a range alone.
const IN_RANGE: &str = "rows are looked up in a range:\n";

/// What stands before a range behind equalities.
const AND_IN_RANGE: &str = "and of these only those in a range:\n";

/// What stands behind each row's side where members read that side alone.
const LEFT_OUT: &str = "that fail a member that reads them alone aren't looked up\n";

/// The tables that a predicate reads.
#[derive(Clone, Copy)]
pub(crate) struct Headers<'a> {
    pub(crate) r: &'a Names,
    pub(crate) s: &'a Names,
}

impl Headers<'_> {
    fn of(&self, side: Side) -> &Names {
        match side {
            Side::R => self.r,
            Side::S => self.s,
        }
    }

    /// Appends the column at this place, as a predicate spells it.
    fn push_column(&self, text: &mut String, side: Side, place: u64) -> Result<(), AllocError> {
        match self.of(side).as_slice().get(place as usize) {
            Some(name) => push_column(text, side, name),
            None => Ok(()),
        }
    }

    /// Appends a sum of columns.
    fn push_sum(&self, text: &mut String, side: Side, sum: &Linear) -> Result<(), AllocError> {
        for (at, part) in sum.parts.as_slice().iter().enumerate() {
            match (part.minus, at) {
                (true, 0) => text.push('-')?,
                (true, _) => text.push_str(" - ")?,
                (false, 0) => {}
                (false, _) => text.push_str(" + ")?,
            }
            self.push_column(text, side, part.column)?;
        }
        Ok(())
    }

    /// Appends what rows agree in.
    fn push_same(&self, text: &mut String, same: &Same) -> Result<(), AllocError> {
        match same {
            Same::Texts(atom) => {
                text.push_str("text(")?;
                self.push_column(text, Side::R, atom.r)?;
                text.push_str(") = text(")?;
                self.push_column(text, Side::S, atom.s)?;
                text.push(')')
            }
            Same::Sums(pair) => {
                self.push_sum(text, Side::R, &pair.r_sum)?;
                text.push_str(" = ")?;
                self.push_sum(text, Side::S, &pair.s_sum)?;
                push_constant(text, pair.gap, false)
            }
            Same::Alone(_) => Ok(()),
        }
    }

    /// Appends equalities, a line each.
    fn push_sames(&self, text: &mut String, sames: &[Same]) -> Result<(), AllocError> {
        for same in sames {
            if is_equality(same) {
                text.push_str("    ")?;
                self.push_same(text, same)?;
                text.push('\n')?;
            }
        }
        Ok(())
    }

    /// Appends how far the sums of two rows lie apart.
    fn push_span(&self, text: &mut String, atom: &KeyAtom) -> Result<(), AllocError> {
        self.push_sum(text, Side::R, &atom.r_sum)?;
        text.push_str(" less ")?;
        self.push_sum(text, Side::S, &atom.s_sum)?;
        match (atom.low, atom.high) {
            (Some(low), Some(high)) => write!(text, " from {low} to {high}"),
            (Some(low), None) => write!(text, " at least {low}"),
            (None, Some(high)) => write!(text, " at most {high}"),
            (None, None) => Ok(()),
        }
    }

    /// Appends between which sums of the other side a sum lies.
    fn push_interval(&self, text: &mut String, interval: &Interval) -> Result<(), AllocError> {
        let Interval {
            points,
            lower,
            upper,
        } = interval;
        match points {
            Side::R => {
                self.push_sum(text, Side::R, &lower.r_sum)?;
                text.push_str(" from ")?;
                self.push_sum(text, Side::S, &lower.s_sum)?;
                push_constant(text, lower.low.unwrap_or(0), false)?;
                text.push_str(" to ")?;
                self.push_sum(text, Side::S, &upper.s_sum)?;
                push_constant(text, upper.high.unwrap_or(0), false)
            }
            // (R's sum less S's is bounded, so S's is R's less the bound)
            Side::S => {
                self.push_sum(text, Side::S, &lower.s_sum)?;
                text.push_str(" from ")?;
                self.push_sum(text, Side::R, &lower.r_sum)?;
                push_constant(text, lower.high.unwrap_or(0), true)?;
                text.push_str(" to ")?;
                self.push_sum(text, Side::R, &upper.r_sum)?;
                push_constant(text, upper.low.unwrap_or(0), true)
            }
        }
    }

    /// Appends a range, on a line of its own.
    fn push_range(&self, text: &mut String, range: &Range) -> Result<(), AllocError> {
        text.push_str("    ")?;
        match range {
            Range::Span(atom) => self.push_span(text, atom)?,
            Range::Interval(interval) => self.push_interval(text, interval)?,
        }
        text.push('\n')
    }

    /// Appends all equalities and the range, and answers whether there are any.
    fn push_keys(&self, text: &mut String, access: &Access) -> Result<bool, AllocError> {
        let sames = access.sames.as_slice();
        let is_equal = has_equality(sames);
        if is_equal {
            text.push_str(BY_VALUES)?;
            self.push_sames(text, sames)?;
        }
        match &access.range {
            Some(range) => {
                text.push_str(if is_equal { AND_IN_RANGE } else { IN_RANGE })?;
                self.push_range(text, range)?;
                Ok(true)
            }
            None => Ok(is_equal),
        }
    }

    /// Appends all equalities and the range, and of which sides rows are left out, and answers whether there are
    /// equalities or a range.
    fn push_access(&self, text: &mut String, access: &Access) -> Result<bool, AllocError> {
        let is_keyed = self.push_keys(text, access)?;
        push_left_out(text, access.sames.as_slice())?;
        Ok(is_keyed)
    }

    /// Appends the range of a key atom alone.
    fn push_key(&self, text: &mut String, atom: &KeyAtom) -> Result<(), AllocError> {
        text.push_str(IN_RANGE)?;
        text.push_str("    ")?;
        self.push_span(text, atom)?;
        text.push('\n')
    }
}

/// Whether this is an equality of both sides.
fn is_equality(same: &Same) -> bool {
    match same {
        Same::Texts(_) | Same::Sums(_) => true,
        Same::Alone(_) => false,
    }
}

/// Whether one of these is.
fn has_equality(sames: &[Same]) -> bool {
    for same in sames {
        if is_equality(same) {
            return true;
        }
    }
    false
}

/// Whether one of these reads this side alone.
fn reads_alone(sames: &[Same], side: Side) -> bool {
    for same in sames {
        if let Same::Alone(alone) = same {
            if alone.side == side {
                return true;
            }
        }
    }
    false
}

/// Appends of which sides rows are left out.
fn push_left_out(text: &mut String, sames: &[Same]) -> Result<(), AllocError> {
    if reads_alone(sames, Side::R) {
        text.push_str("rows of R ")?;
        text.push_str(LEFT_OUT)?;
    }
    if reads_alone(sames, Side::S) {
        text.push_str("rows of S ")?;
        text.push_str(LEFT_OUT)?;
    }
    Ok(())
}

/// Appends a constant behind a sum, with the other sign where it is turned.
fn push_constant(text: &mut String, constant: i128, is_turned: bool) -> Result<(), AllocError> {
    if constant == 0 {
        return Ok(());
    }
    let sign = if (constant < 0) == is_turned {
        "+"
    } else {
        "-"
    };
    let size = constant.unsigned_abs();
    write!(text, " {sign} {size}")
}

/// Appends what is looked up of a row, and answers whether it is looked up by anything.
pub(crate) fn push_lookup(
    text: &mut String,
    theta: &Theta,
    headers: Headers<'_>,
) -> Result<bool, AllocError> {
    if let Some(access) = theta.access()? {
        let is_keyed = headers.push_access(text, &access);
        drop(access);
        return is_keyed;
    }
    if let Some(atom) = theta.key_atom()? {
        headers.push_key(text, &atom)?;
        return Ok(true);
    }
    Ok(false)
}
