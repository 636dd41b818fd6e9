// The names of the files, and the join that a third one is for.

ghost use Rattle.std.specs.Prelude.{◌≡◌, IfOk, IfErr, length, option_map};
ghost use Rattle.clap.specs.Matches.{found_of};
ghost use Rattle.clap.specs.Walk.{rows_of, texts};
ghost use Rattle.join_words.specs.Found.{names_given, then_at};
ghost use Rattle.join_words.specs.Words.{GivesFiles, GivesWaves, asked_wave, later_names, names_by, no_names, three_names};
ghost use Rattle.join_words.specs.Words.{wave_named, wave_names};

use crate::found::given;
use crate::kind::{Chain, Wave};
use crate::options::{WordsError, WordsFault};
use clap::ArgMatches;
use std::alloc::{AllocError, Global};

/// The names of the first wave's two files, the later waves, and the second join with a third file, where one is asked
/// for.
#[derive(Debug, Drop)]
pub(crate) struct Named<'a> {
    pub(crate) name_r: &'a str,
    pub(crate) name_s: &'a str,
    pub(crate) later: Vec<Wave<'a>>,
    pub(crate) chain: Option<Chain<'a>>,
}

/// Too many or too few names.
const FILES: WordsError = WordsError::Fault(WordsFault::Files);

/// These waves.
fn kept<'a>(alloc: Global, waves: &[Wave<'a>]) -> Result<Vec<Wave<'a>>, WordsError>
    ensures items { IfOk result (λ later. later.items ≡ waves.now) }
    ensures memory { IfErr result (λ error. error ≡ WordsError.Memory) }
{
    match Vec::from_slice(alloc, waves) {
        Ok(later) => Ok(later),
        Err(AllocError) => Err(WordsError::Memory),
    }
}

/// A wave of these two files.
fn wave<'a>(name_r: &'a str, name_s: &'a str) -> Wave<'a>
    ensures { asked_wave result ≡ wave_named name_r.entry.now name_s.entry.now }
{
    Wave { name_r, name_s }
}

/// The later waves of these names, two each, at most three waves.
fn later<'a>(alloc: Global, names: &[&'a str]) -> Result<Vec<Wave<'a>>, WordsError>
    ensures { GivesWaves (later_names (texts names.now)) result }
{
    match names {
        [] => kept(alloc, &[]),
        [r2, s2] => kept(alloc, &[wave(*r2, *s2)]),
        [r2, s2, r3, s3] => kept(alloc, &[wave(*r2, *s2), wave(*r3, *s3)]),
        [r2, s2, r3, s3, r4, s4] => kept(alloc, &[wave(*r2, *s2), wave(*r3, *s3), wave(*r4, *s4)]),
        _ => Err(FILES),
    }
}

/// Two, four, six or eight names, two for each wave.
fn waves<'a>(alloc: Global, names: &[&'a str]) -> Result<Named<'a>, WordsError>
    ensures { GivesFiles (wave_names (texts names.now)) result }
{
    match names {
        [name_r, name_s, rest @ ..] => match later(alloc, rest) {
            Ok(later) => Ok(Named {
                name_r: *name_r,
                name_s: *name_s,
                later,
                chain: None,
            }),
            Err(error) => Err(error),
        },
        _ => Err(FILES),
    }
}

/// Just three names, the third of a second join with this predicate.
fn three<'a>(alloc: Global, names: &[&'a str], on: &'a str) -> Result<Named<'a>, WordsError>
    ensures { GivesFiles (three_names on.now (texts names.now)) result }
{
    match names {
        [name_r, name_s, name] => Ok(Named {
            name_r: *name_r,
            name_s: *name_s,
            later: Vec::new(alloc),
            chain: Some(Chain { on, name: *name }),
        }),
        _ => Err(FILES),
    }
}

/// No name.
fn none<'a>(alloc: Global, names: &[&'a str]) -> Result<Named<'a>, WordsError>
    ensures { GivesFiles (no_names (texts names.now)) result }
{
    match names {
        [] => Ok(Named {
            name_r: "",
            name_s: "",
            later: Vec::new(alloc),
            chain: None,
        }),
        _ => Err(FILES),
    }
}

/// How many names of files there are.
pub(crate) fn count(matches: &ArgMatches<'_>) -> u64
    ensures { result ≡ length (names_given (rows_of (found_of matches.now))) }
{
    match matches.get_strs("files") {
        Some(names) => names.len() as u64,
        None => 0,
    }
}

/// These names, of which there are none where tables are made, and three with a second predicate.
fn checked<'a>(
    alloc: Global,
    names: &[&'a str],
    make: Option<u64>,
    on: Option<&'a str>,
) -> Result<Named<'a>, WordsError>
    ensures { GivesFiles
        (names_by make (option_map (λ text. text.now) on.entry) (texts names.now)) result }
{
    match make {
        Some(_) => none(alloc, names),
        None => match on {
            Some(on) => three(alloc, names, on),
            None => waves(alloc, names),
        },
    }
}

/// The names of the files, and the second join, where one is asked for.
pub(crate) fn read_names<'a>(
    alloc: Global,
    matches: &ArgMatches<'a>,
    make: Option<u64>,
) -> Result<Named<'a>, WordsError>
    ensures { GivesFiles (names_by make (then_at (rows_of (found_of matches.now)))
        (names_given (rows_of (found_of matches.now)))) result }
{
    let on = given(matches, "then");
    match matches.get_strs("files") {
        Some(names) => checked(alloc, names, make, on),
        None => checked(alloc, &[], make, on),
    }
}
