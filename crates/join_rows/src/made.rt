// The tables that the generator makes.

ghost use Rattle.std.specs.Prelude.{◌≡◌, ◌≤◌, ◌<◌, ◌^◌, ◌++◌, ◌∷◌, [], IfOk, OnOk, map};
ghost use Rattle.std.specs.List.{range_with_len};
ghost use Rattle.std.specs.Fmt.{decimal};
ghost use Rattle.join_rows.specs.Made.{made_fields, made_key as made_key', made_names as made_names', made_table, made_val as made_val'};
ghost use Rattle.join_rows.specs.Records.{IsTable};
ghost use Rattle.row_cells.specs.Shared.{AreRowsOf};

use row_cells::{Bytes, Names, Side, Table, Texts, rows_over};
use std::alloc::{AllocError, Global};

// The header of every made table.
fn made_names(alloc: Global) -> Result<Names, AllocError>
    ensures { IfOk result (λ names. names ≡ made_names') }
{
    let mut names = Names::with_room(alloc, 3)?;
    names.push(Bytes::from_slice(alloc, b"id")?)?;
    names.push(Bytes::from_slice(alloc, b"key")?)?;
    names.push(Bytes::from_slice(alloc, b"val")?)?;
    Ok(names)
}

// The key in the row at `place`.
fn made_key(side: Side, place: u64) -> u64
    requires { place < 2 ^ 16 }
    ensures { result ≡ made_key' side place }
{
    match side {
        Side::R => 7 * place % 1000,
        Side::S => 11 * place % 1000,
    }
}

// The value in the row at `place`.
fn made_val(side: Side, place: u64) -> u64
    ensures { result ≡ made_val' side place }
{
    match side {
        Side::R => place % 97,
        Side::S => place % 89,
    }
}

// Appends the number in decimal.
fn add_number(alloc: Global, texts: &mut Texts, number: u64) -> Result<(), AllocError>
    ensures { OnOk result (texts.new ≡ texts.old ++ decimal number ∷ []) }
{
    let text = format!(in alloc; "{number}")?;
    texts.push(text.as_bytes())
}

// Appends the fields of the row at `place`, counted from 0.
fn add_row(alloc: Global, texts: &mut Texts, side: Side, place: u64) -> Result<(), AllocError>
    requires { place < 2 ^ 16 }
    ensures { OnOk result (texts.new ≡ texts.old ++ made_fields side place) }
{
    add_number(alloc, texts, place + 1)?;
    add_number(alloc, texts, made_key(side, place))?;
    add_number(alloc, texts, made_val(side, place))?;
    Ok(())
}

// The fields of so many rows, one row behind the other.
fn made_texts(alloc: Global, side: Side, count: u64) -> Result<Texts, AllocError>
    requires { count ≤ 2 ^ 16 }
    ensures { IfOk result
        (AreRowsOf (map (made_fields side) (range_with_len 0 count)) 3 count) }
{
    let mut texts = Texts::new(alloc);
    for place in 0..count {
        add_row(alloc, &mut texts, side, place)?;
    }
    Ok(texts)
}

/// The table of `count` rows that the generator makes for a side. Under the header `id,key,val` the row at place
/// i, counted from 0, has i + 1, then for R the remainders 7·i mod 1000 and i mod 97, for S 11·i mod 1000 and
/// i mod 89, each in decimal.
pub fn make_table(alloc: Global, side: Side, count: u64) -> Result<Table, AllocError>
    requires some { 1 ≤ count }
    requires few { count ≤ 2 ^ 16 }
    ensures made { IfOk result (λ table. table ≡ made_table side count) }
    ensures table { IfOk result IsTable }
{
    let names = made_names(alloc)?;
    let texts = made_texts(alloc, side, count)?;
    let rows = rows_over(alloc, texts, 3, count)?;
    Ok(Table { names, rows })
}
