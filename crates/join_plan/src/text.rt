// What a line says of a fault.

ghost use Rattle.std.specs.Prelude.{◌≡◌, Some};
ghost use Rattle.join_plan.specs.Lines.{cell_line, count_line, file_line, input_line, limit_line};
ghost use Rattle.join_plan.specs.Lines.{name_line, row_line, side_line, text_line};

use crate::fault::{InputFault, LimitFault, TextFault};
use row_cells::{Bytes, Side};
use std::{fmt, str};

#[tactic(auto, using(crate::proofs::Lines::name_told, crate::proofs::Lines::name_untold))]
fn name_text(name: &Bytes) -> &str
    ensures { result.now ≡ name_line name.now }
{
    match str::from_utf8(name.as_slice()) {
        Ok(text) => text,
        Err(_) => "?",
    }
}

fn side_text(side: Side) -> &'static str
    ensures { result.now ≡ side_line side }
{
    match side {
        Side::R => "R",
        Side::S => "S",
    }
}

/// A side's file: that of the first wave by its side alone.
#[derive(Clone, Copy)]
struct FileName(Side, u32);

impl fmt::Display for FileName {
    ghost output = { λ file. Some (file_line file.0 file.1) };

    fn fmt<W: fmt::Write>(&self, f: &mut fmt::Formatter<W>) -> fmt::Result {
        let side = side_text(self.0);
        let wave = self.1;
        write!(f, "{side}")?;
        if wave == 1 {
            return Ok(());
        }
        write!(f, "{wave}")
    }
}

/// A row of such a file.
#[derive(Clone, Copy)]
struct RowName(Side, u32, u64);

impl fmt::Display for RowName {
    ghost output = { λ row. Some (row_line row.0 row.1 row.2) };

    fn fmt<W: fmt::Write>(&self, f: &mut fmt::Formatter<W>) -> fmt::Result {
        let file = FileName(self.0, self.1);
        let row = self.2;
        write!(f, "{file} row {row}")
    }
}

/// A cell of such a row.
#[derive(Clone, Copy)]
struct CellName(RowName, u64);

impl fmt::Display for CellName {
    ghost output = { λ cell. Some (cell_line cell.0.0 cell.0.1 cell.0.2 cell.1) };

    fn fmt<W: fmt::Write>(&self, f: &mut fmt::Formatter<W>) -> fmt::Result {
        let row = self.0;
        let column = self.1;
        write!(f, "{row} column {column}")
    }
}

/// How many rows a side has up to such a file.
#[derive(Clone, Copy)]
struct CountName(Side, u32, u64);

impl fmt::Display for CountName {
    ghost output = { λ count. Some (count_line count.0 count.1 count.2) };

    fn fmt<W: fmt::Write>(&self, f: &mut fmt::Formatter<W>) -> fmt::Result {
        let file = FileName(self.0, self.1);
        let rows = self.2;
        write!(f, "{file} has {rows}")
    }
}

/// What is wrong, and where. A name that isn't UTF-8 is shown as `?`.
impl fmt::Display for TextFault {
    ghost output = { λ fault. Some (text_line fault) };

    fn fmt<W: fmt::Write>(&self, f: &mut fmt::Formatter<W>) -> fmt::Result {
        match self {
            TextFault::Syntax { place } => write!(f, "not understood at byte {place}"),
            TextFault::Deep { place } => write!(f, "nested too deep at byte {place}"),
            TextFault::Wide { place } => write!(f, "sum too long at byte {place}"),
            TextFault::Literal { place } => write!(f, "number too large at byte {place}"),
            TextFault::NoColumn { side, name } => {
                let side = side_text(*side);
                let name = name_text(name);
                write!(f, "{side} has no column {name}")
            }
            TextFault::TwoColumns { side, name } => {
                let side = side_text(*side);
                let name = name_text(name);
                write!(f, "{side} has column {name} more than once")
            }
        }
    }
}

/// What is wrong, in which file and row.
impl fmt::Display for InputFault {
    ghost output = { λ fault. Some (input_line fault) };

    fn fmt<W: fmt::Write>(&self, f: &mut fmt::Formatter<W>) -> fmt::Result {
        match self {
            InputFault::NoHeader { side, wave } => {
                let file = FileName(*side, *wave);
                write!(f, "{file} has no header")
            }
            InputFault::Header { side, wave } => {
                let file = FileName(*side, *wave);
                write!(f, "{file} has another header")
            }
            InputFault::Width {
                side,
                wave,
                row,
                found,
            } => {
                let row = RowName(*side, *wave, *row);
                write!(f, "{row} has {found} fields")
            }
            InputFault::Number {
                side,
                wave,
                column,
                row,
            } => {
                let cell = CellName(RowName(*side, *wave, *row), *column);
                write!(f, "{cell} is no number")
            }
        }
    }
}

/// Which limit was passed, and where.
impl fmt::Display for LimitFault {
    ghost output = { λ fault. Some (limit_line fault) };

    fn fmt<W: fmt::Write>(&self, f: &mut fmt::Formatter<W>) -> fmt::Result {
        match self {
            LimitFault::TooLong { side, wave } => {
                let file = FileName(*side, *wave);
                write!(f, "{file} has more than 16777216 bytes")
            }
            LimitFault::TooMany { side, wave } => {
                let file = FileName(*side, *wave);
                write!(f, "{file} has more than 262144 rows")
            }
            LimitFault::Total { side, wave, rows } => {
                let count = CountName(*side, *wave, *rows);
                write!(f, "{count} rows in all")
            }
            LimitFault::Between { pairs } => write!(f, "{pairs} pairs between the joins"),
        }
    }
}
