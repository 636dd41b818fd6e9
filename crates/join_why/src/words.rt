// What is wrong with words that ask for nothing.

use clap::ArgMatches;
use clap::error::ErrorKind;
use join_words::{Word, WordsFault, command, words_apart};
use std::alloc::{AllocError, Global};

/// How the word is written.
fn word_text(word: Word) -> &'static str {
    match word {
        Word::Fixed => "--fixed",
        Word::Replay => "--replay",
        Word::Make => "--make",
        Word::Early => "--early",
        Word::Rows => "--rows",
        Word::Groups => "--groups",
        Word::Then => "--then",
        Word::Rings => "--rings",
        Word::ManyFiles => "more than two files",
        Word::Grow => "--grow",
        Word::FewFiles => "no file of a wave behind it",
    }
}

/// What was given for an option, or its default.
fn value<'a>(matches: &ArgMatches<'a>, id: &str) -> &'a str {
    matches.get_str(id).unwrap_or("")
}

fn feed(alloc: Global, matches: &ArgMatches<'_>) -> Result<String, AllocError> {
    let feed = value(matches, "feed");
    format!(in alloc; "--feed is alternate, rfirst or sfirst, and not '{feed}'\n")
}

fn joiners(alloc: Global, matches: &ArgMatches<'_>) -> Result<String, AllocError> {
    let joiners = value(matches, "joiners");
    format!(in alloc;
        "--joiners {joiners}: a grid has 1, 2, 4, 8, 16, 32 or 64 joiners; with --groups any number up to 64 will do\n"
    )
}

fn fixed(alloc: Global, matches: &ArgMatches<'_>) -> Result<String, AllocError> {
    let fixed = value(matches, "fixed");
    let joiners = value(matches, "joiners");
    let greatest = joiners.parse::<u64>().map_or(0, u64::trailing_zeros);
    format!(in alloc;
        "--fixed {fixed}: a grid of {joiners} joiners has at most {joiners} columns, so that its shift is at most {greatest}\n"
    )
}

fn together(alloc: Global, matches: &ArgMatches<'_>) -> Result<String, AllocError> {
    match words_apart(matches) {
        Some((one, other)) => {
            let one = word_text(one);
            let other = word_text(other);
            format!(in alloc; "{one} and {other} don't go together\n")
        }
        None => format!(in alloc; "two of the options don't go together\n"),
    }
}

/// How many files are wanted, and why.
fn wanted_files(matches: &ArgMatches<'_>) -> &'static str {
    if matches.get_str("make").is_some() {
        "--make makes both tables, and no file is wanted"
    } else if matches.get_str("then").is_some() {
        "with --then three files are wanted"
    } else {
        "two files are wanted, or with later waves four, six or eight"
    }
}

fn files(alloc: Global, matches: &ArgMatches<'_>) -> Result<String, AllocError> {
    let wanted = wanted_files(matches);
    let names = matches.get_strs("files").unwrap_or(&[]);
    let count = names.len();
    let mut text = format!(in alloc; "{wanted}; given: {count}\n")?;
    for name in names {
        write!(text, "    {name}\n")?;
    }
    Ok(text)
}

/// What is wrong with a match.
fn explain_match(
    alloc: Global,
    matches: &ArgMatches<'_>,
    fault: WordsFault,
) -> Result<String, AllocError> {
    match fault {
        WordsFault::NoMatch => feed(alloc, matches),
        WordsFault::Joiners => joiners(alloc, matches),
        WordsFault::Fixed => fixed(alloc, matches),
        WordsFault::Together => together(alloc, matches),
        WordsFault::Files => files(alloc, matches),
    }
}

/// What is wrong with words that have this fault. Of those that clap has no match for it is clap's own text, with the
/// word that is wrong and, where there is one, a word that is near it; of a request for help it is the help.
pub(crate) fn explain_words(
    alloc: Global,
    words: &[String],
    fault: WordsFault,
) -> Result<String, AllocError> {
    match command(alloc)?.try_get_matches_from(words) {
        Ok(matches) => explain_match(alloc, &matches, fault),
        Err(error) if error.kind() == ErrorKind::OutOfMemory => Err(AllocError),
        Err(error) => format!(in alloc; "{error}"),
    }
}
