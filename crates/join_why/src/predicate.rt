// What is wrong with the text of a predicate.

use crate::kept::KeptFile;
use crate::near::nearest;
use crate::shown::{push_bytes, push_column};
use crate::source::names_of;
use join_plan::{TextFault, Which};
use join_words::Options;
use predicate_hints::{caret, expected, meant};
use row_cells::{Bytes, Names, Side};
use std::alloc::{AllocError, Global};
use std::str;

/// How many names of columns are listed.
const MOST_LISTED: usize = 40;

/// The option of a predicate.
fn option_of(which: Which) -> &'static str {
    match which {
        Which::On => "--on",
        Which::Then => "--then",
    }
}

/// The text of a predicate.
fn text_of<'a>(options: &Options<'a>, which: Which) -> &'a str {
    match which {
        Which::On => options.on,
        Which::Then => options.kind.chain().map_or("", |chain| chain.on),
    }
}

/// What is wrong at a byte of the text, and the text with a caret below that byte.
fn at_place(
    alloc: Global,
    options: &Options<'_>,
    which: Which,
    place: u64,
    fault: &str,
) -> Result<String, AllocError> {
    let option = option_of(which);
    let shown = caret(alloc, text_of(options, which), place)?;
    format!(in alloc; "the text of {option} {fault} at byte {place}:\n{shown}\n")
}

/// Appends what could stand at a place.
fn push_expected(
    alloc: Global,
    explained: &mut String,
    text: &str,
    place: u64,
) -> Result<(), AllocError> {
    explained.push_str("here could stand:\n")?;
    for kind in expected(alloc, text, place)?.as_slice() {
        write!(explained, "    {kind}\n")?;
    }
    Ok(())
}

fn syntax(
    alloc: Global,
    options: &Options<'_>,
    which: Which,
    place: u64,
) -> Result<String, AllocError> {
    let text = text_of(options, which);
    let mut explained = at_place(alloc, options, which, place, "is not understood")?;
    if let Some(hint) = meant(text, place) {
        write!(explained, "{hint}\n")?;
    }
    push_expected(alloc, &mut explained, text, place)?;
    Ok(explained)
}

/// Where a predicate looks for the columns of a side.
fn table_text(which: Which, side: Side) -> &'static str {
    match (which, side) {
        (Which::On, Side::R) => "R, the first table",
        (Which::On, Side::S) => "S, the second table",
        (Which::Then, Side::R) => "R, the joined row",
        (Which::Then, Side::S) => "S, the third table",
    }
}

/// Appends the names of the columns that there are.
fn push_names(explained: &mut String, side: Side, names: &Names) -> Result<(), AllocError> {
    explained.push_str("there are:\n")?;
    for (at, name) in names.as_slice().iter().enumerate() {
        if at == MOST_LISTED {
            let more = names.len() - MOST_LISTED as u64;
            return write!(explained, "    and {more} more\n");
        }
        explained.push_str("    ")?;
        push_column(explained, side, name)?;
        explained.push('\n')?;
    }
    Ok(())
}

/// Appends the name that is near, where one is.
fn push_near(
    alloc: Global,
    explained: &mut String,
    side: Side,
    names: &Names,
    name: &Bytes,
) -> Result<(), AllocError> {
    let Ok(wanted) = str::from_utf8(name.as_slice()) else {
        return Ok(());
    };
    let Some(place) = nearest(alloc, names, wanted)? else {
        return Ok(());
    };
    let Some(near) = names.as_slice().get(place) else {
        return Ok(());
    };
    explained.push_str("near it is ")?;
    push_column(explained, side, near)?;
    explained.push('\n')
}

fn no_column(
    alloc: Global,
    which: Which,
    side: Side,
    names: &Names,
    name: &Bytes,
) -> Result<String, AllocError> {
    let option = option_of(which);
    let table = table_text(which, side);
    let mut explained = format!(in alloc; "{option} names ")?;
    push_column(&mut explained, side, name)?;
    write!(explained, ", and {table}, has no such column\n")?;
    push_near(alloc, &mut explained, side, names, name)?;
    push_names(&mut explained, side, names)?;
    Ok(explained)
}

fn two_columns(
    alloc: Global,
    which: Which,
    side: Side,
    names: &Names,
    name: &Bytes,
) -> Result<String, AllocError> {
    let option = option_of(which);
    let table = table_text(which, side);
    let mut explained = format!(in alloc; "{option} names ")?;
    push_bytes(&mut explained, name.as_slice())?;
    write!(explained, ", and {table}, has more than one such column:\n")?;
    for (at, other) in names.as_slice().iter().enumerate() {
        if other.as_slice() == name.as_slice() {
            let place = at + 1;
            write!(explained, "    column {place}\n")?;
        }
    }
    Ok(explained)
}

/// What is wrong with the text of a predicate that has this fault.
pub(crate) fn explain_text(
    alloc: Global,
    options: &Options<'_>,
    files: &[KeptFile],
    which: Which,
    fault: &TextFault,
) -> Result<String, AllocError> {
    match fault {
        TextFault::Syntax { place } => syntax(alloc, options, which, *place),
        TextFault::Deep { place } => {
            at_place(alloc, options, which, *place, "is nested more than 32 deep")
        }
        TextFault::Wide { place } => {
            at_place(
                alloc,
                options,
                which,
                *place,
                "has a sum of more than 16 terms",
            )
        }
        TextFault::Literal { place } => {
            at_place(
                alloc,
                options,
                which,
                *place,
                "has a number past 9223372036854775807",
            )
        }
        TextFault::NoColumn { side, name } => {
            let names = names_of(alloc, options, files, which, *side)?;
            no_column(alloc, which, *side, &names, name)
        }
        TextFault::TwoColumns { side, name } => {
            let names = names_of(alloc, options, files, which, *side)?;
            two_columns(alloc, which, *side, &names, name)
        }
    }
}
