// The journals of a run that is done, as a picture.

ghost use Rattle.std.specs.Prelude.{◌<◌, ◌≤◌, All, IfOk, IsNone, IsSome};
ghost use Rattle.grid_map.specs.Load.{AreWeights};
ghost use Rattle.join_cli.specs.Ends.{IsDone};

use group_split::digits;
use join_cli::{Journals, Outcome};
use join_words::{Kind, Options};
use journal_picture::Drawing;
use load_controller::{Cause, Journal, TurnLine};
use std::alloc::{AllocError, Global};

/// Adds the journal of a run of 2^k joiners, of which so much is told beside their number.
fn add(
    alloc: Global,
    drawing: &mut Drawing,
    options: &Options<'_>,
    name: &str,
    k: u32,
    journal: &[TurnLine],
) -> Result<(), AllocError>
    requires k { k ≤ 8 }
    requires weights { AreWeights options.now.weights }
{
    let joiners = 1u64 << k;
    let heading = format!(in alloc; "{name}joiners: {joiners}")?;
    drawing.add(alloc, heading.as_str(), k, options.weights, journal)
}

/// Adds the journals of the groups from this one on, with these exponents.
fn add_groups(
    alloc: Global,
    drawing: &mut Drawing,
    options: &Options<'_>,
    group: u64,
    exponents: &[u64],
    journals: &[Journal],
) -> Result<(), AllocError>
    requires weights { AreWeights options.now.weights }
    requires small { All (λ exponent. exponent < 7) exponents.now }
{
    let [exponent, exponents @ ..] = exponents else {
        return Ok(());
    };
    let [journal, journals @ ..] = journals else {
        return Ok(());
    };
    let name = format!(in alloc; "group {group}, ")?;
    add(
        alloc,
        drawing,
        options,
        name.as_str(),
        *exponent as u32,
        journal.as_slice(),
    )?;
    add_groups(
        alloc,
        drawing,
        options,
        group.saturating_add(1),
        exponents,
        journals,
    )
}

/// Adds the journals of all groups of so many joiners.
fn add_all_groups(
    alloc: Global,
    drawing: &mut Drawing,
    options: &Options<'_>,
    joiners: u32,
    journals: &Journals,
) -> Result<(), AllocError>
    requires weights { AreWeights options.now.weights }
{
    let exponents = digits(alloc, joiners)?;
    add_groups(
        alloc,
        drawing,
        options,
        0,
        exponents.as_slice(),
        journals.as_slice(),
    )
}

fn is_wave(line: &TurnLine) -> bool {
    match line.cause {
        Cause::Wave => true,
        _ => false,
    }
}

/// Where the wave behind so many begins in a journal, or the journal's end where there is none.
fn begin_of(lines: &[TurnLine], waves: u32) -> usize {
    let mut left = waves;
    for place in 0..lines.len() {
        if is_wave(&lines[place]) {
            if left <= 1 {
                return place;
            }
            left -= 1;
        }
    }
    lines.len()
}

/// These lines as those of a run that begins with the first of them.
fn begun(alloc: Global, lines: &[TurnLine]) -> Result<Journal, AllocError> {
    let mut journal = Journal::new(alloc);
    let [first, lines @ ..] = lines else {
        return Ok(journal);
    };
    journal.push(TurnLine {
        cause: Cause::Start,
        ..*first
    })?;
    for &line in lines {
        journal.push(line)?;
    }
    Ok(journal)
}

/// How many joiners form groups; 0 where none do.
fn members(kind: &Kind<'_>) -> u32 {
    match kind {
        Kind::Groups { joiners } => *joiners,
        _ => 0,
    }
}

/// After how many waves each joiner splits into four, where they do.
fn growth(kind: &Kind<'_>) -> Option<u32> {
    match kind {
        Kind::Waves { grow, .. } => *grow,
        _ => None,
    }
}

/// Adds the journal of joiners in one grid, in two parts where they split into four behind so many waves.
fn add_grid(
    alloc: Global,
    drawing: &mut Drawing,
    options: &Options<'_>,
    lines: &[TurnLine],
) -> Result<(), AllocError> {
    let k = options.kind.grid().k;
    let Some(waves) = growth(&options.kind) else {
        return add(alloc, drawing, options, "", k, lines);
    };
    let Some((before, since)) = lines.split_at_checked(begin_of(lines, waves)) else {
        return Ok(());
    };
    add(alloc, drawing, options, "before the growth, ", k, before)?;
    let since = begun(alloc, since)?;
    add(
        alloc,
        drawing,
        options,
        "since the growth, ",
        k + 2,
        since.as_slice(),
    )
}

/// The picture of the journals of an outcome whose output was written whole; of another there is none.
pub(crate) fn picture(
    alloc: Global,
    options: &Options<'_>,
    outcome: &Outcome,
) -> Result<Option<String>, AllocError>
    ensures done { IsDone outcome.now → IfOk result IsSome }
    ensures refused { (IsDone outcome.now → ⊥) → IfOk result IsNone }
{
    let mut drawing = Drawing::new(alloc);
    match outcome {
        Outcome::Done { journal, .. } | Outcome::DoneRings { journal, .. } => {
            add_grid(alloc, &mut drawing, options, journal.as_slice())?;
        }
        Outcome::DoneGroups { journals, .. } => {
            let joiners = members(&options.kind);
            add_all_groups(alloc, &mut drawing, options, joiners, journals)?;
        }
        Outcome::DoneChain { first, second, .. } => {
            let k = options.kind.grid().k;
            add(
                alloc,
                &mut drawing,
                options,
                "first join, ",
                k,
                first.as_slice(),
            )?;
            add(
                alloc,
                &mut drawing,
                options,
                "second join, ",
                k,
                second.as_slice(),
            )?;
        }
        _ => return Ok(None),
    }
    Ok(Some(drawing.picture(alloc)?))
}
