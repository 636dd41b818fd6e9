// The checks of a match, in the order of their faults.

ghost use Rattle.std.specs.Prelude.{◌≡◌, ◌<◌, ◌^◌, IfSome, is_some, map, option_map, true, unwrap_or};
ghost use Rattle.clap.specs.Matches.{found_of};
ghost use Rattle.clap.specs.Walk.{rows_of};
ghost use Rattle.join_words.specs.Apart.{any_of, apart, are_apart};
ghost use Rattle.join_words.specs.Found.{make_at, number_at, weights_at};
ghost use Rattle.join_words.specs.Words.{AreBounded, AreOptions, Gives, asked, asked_by, asked_chain, asked_kind, asked_wave};
ghost use Rattle.join_words.specs.Words.{asked_with, begun_by, exponent_of, feed_named, fixed_within, given_by, grid_by};
ghost use Rattle.join_words.specs.Words.{kind_by, names_of, no_wave_behind, single_kind};

use crate::apart::{Given, Word};
use crate::found::{flag, is_given, number, text};
use crate::kind::{Chain, Grid, Kind, Wave};
use crate::names::{Named, count, read_names};
use crate::options::{Options, WordsError, WordsFault};
use clap::ArgMatches;
use grid_map::Weights;
use row_tickets::Feed;
use std::alloc::Global;

/// k of 2^k joiners.
fn exponent(joiners: u64) -> Result<u32, WordsFault>
    ensures { result ≡ exponent_of joiners }
{
    if joiners.is_power_of_two() {
        Ok(joiners.trailing_zeros())
    } else {
        Err(WordsFault::Joiners)
    }
}

/// A grid that stays is one of the 2^k joiners.
fn within(k: u32, fixed: Option<u64>) -> Result<Option<u32>, WordsFault>
    ensures { result ≡ fixed_within k fixed }
{
    match fixed {
        None => Ok(None),
        Some(fixed) if fixed <= u64::from(k) => Ok(Some(fixed as u32)),
        Some(_) => Err(WordsFault::Fixed),
    }
}

/// The number of an option that is less than 2^32, or else this one.
fn small_number(matches: &ArgMatches<'_>, id: &str, other: u32) -> u32
    requires { unwrap_or (number_at id.now (rows_of (found_of matches.now))) other < 2 ^ 32 }
    ensures { result ≡ unwrap_or (number_at id.now (rows_of (found_of matches.now))) other }
{
    number(matches, id).unwrap_or(u64::from(other)) as u32
}

/// What a row of each side weighs.
fn weights(matches: &ArgMatches<'_>) -> Weights
    requires { AreBounded (rows_of (found_of matches.now)) }
    ensures { result ≡ weights_at (rows_of (found_of matches.now)) }
{
    Weights {
        r: small_number(matches, "weight-r", 1),
        s: small_number(matches, "weight-s", 1),
    }
}

/// The order of this name. It is looked at here and not by clap, since a command's list of names
/// is told by its address.
fn feed(name: &str) -> Result<Feed, WordsFault>
    ensures { result ≡ feed_named name.now }
{
    match name {
        "alternate" => Ok(Feed::Alternate),
        "rfirst" => Ok(Feed::RFirst),
        "sfirst" => Ok(Feed::SFirst),
        _ => Err(WordsFault::NoMatch),
    }
}

/// The grid of the joiners' number, and of the shift at which it stays, where one is given. Groups have one each, and
/// neither is looked at here.
fn grid(groups: bool, joiners: u64, fixed: Option<u64>) -> Result<Grid, WordsFault>
    ensures { result ≡ grid_by groups joiners fixed }
{
    if groups {
        return Ok(Grid { k: 0, fixed: None });
    }
    let k = exponent(joiners)?;
    let fixed = within(k, fixed)?;
    Ok(Grid { k, fixed })
}

/// Whether no wave is behind so many: twice their number isn't below this number of names.
fn is_last(wave: Option<u64>, names: u64) -> bool
    ensures { result ≡ no_wave_behind wave names }
{
    match wave {
        Some(wave) => u128::from(names) <= 2 * u128::from(wave),
        None => false,
    }
}

/// Which of the words are given that don't stand together with each other one.
fn given(matches: &ArgMatches<'_>) -> Given
    ensures { result ≡ given_by (rows_of (found_of matches.now)) }
{
    let names = count(matches);
    let grow = number(matches, "grow");
    Given {
        fixed: number(matches, "fixed").is_some(),
        replay: number(matches, "replay").is_some(),
        make: number(matches, "make").is_some(),
        early: flag(matches, "early"),
        rows: flag(matches, "rows"),
        groups: flag(matches, "groups"),
        chain: is_given(matches, "then"),
        rings: flag(matches, "rings"),
        many_files: names > 2,
        grow: grow.is_some(),
        few_files: is_last(grow, names),
    }
}

/// The first two words of a match that don't stand together.
pub fn words_apart(matches: &ArgMatches<'_>) -> Option<(Word, Word)>
    ensures any { is_some result ≡ any_of (given_by (rows_of (found_of matches.now))) apart }
    ensures both { IfSome result
        (λ pair. are_apart (given_by (rows_of (found_of matches.now))) pair ≡ true) }
{
    given(matches).clash()
}

/// What the checks before that of the names find.
#[derive(Clone, Copy, Debug)]
pub(crate) struct Begun {
    pub(crate) feed: Feed,
    pub(crate) grid: Grid,
}

/// What the checks before that of the names find, or the first of them that a match fails.
fn begin(matches: &ArgMatches<'_>) -> Result<Begun, WordsFault>
    ensures { result ≡ begun_by (rows_of (found_of matches.now)) }
{
    let feed = feed(text(matches, "feed"))?;
    let groups = flag(matches, "groups");
    let joiners = number(matches, "joiners").unwrap_or(4);
    let grid = grid(groups, joiners, number(matches, "fixed"))?;
    if given(matches).clash().is_some() {
        return Err(WordsFault::Together);
    }
    Ok(Begun { feed, grid })
}

/// The number of an option that is given and less than 2^32.
fn small_option(matches: &ArgMatches<'_>, id: &str) -> Option<u32>
    requires { IfSome (number_at id.now (rows_of (found_of matches.now))) (λ n. n < 2 ^ 32) }
    ensures { result ≡ number_at id.now (rows_of (found_of matches.now)) }
{
    match number(matches, id) {
        Some(number) => Some(number as u32),
        None => None,
    }
}

/// How the tables are joined where there is no second join.
fn single<'a>(matches: &ArgMatches<'_>, grid: Grid, later: Vec<Wave<'a>>) -> Kind<'a>
    requires { AreBounded (rows_of (found_of matches.now)) }
    ensures { asked_kind result
        ≡ single_kind (rows_of (found_of matches.now)) grid (map asked_wave later.entry.items) }
{
    if flag(matches, "groups") {
        let joiners = small_number(matches, "joiners", 4);
        return Kind::Groups { joiners };
    }
    if flag(matches, "rings") {
        return Kind::Rings { grid };
    }
    if flag(matches, "early") {
        return Kind::Early { grid };
    }
    Kind::Waves {
        grid,
        replay: number(matches, "replay"),
        later,
        grow: small_option(matches, "grow"),
    }
}

/// How the tables are joined, by a match that passed the checks.
fn kind<'a>(
    matches: &ArgMatches<'_>,
    grid: Grid,
    later: Vec<Wave<'a>>,
    chain: Option<Chain<'a>>,
) -> Kind<'a>
    requires { AreBounded (rows_of (found_of matches.now)) }
    ensures { asked_kind result ≡ kind_by (rows_of (found_of matches.now)) grid
        (map asked_wave later.entry.items) (option_map asked_chain chain.entry) }
{
    match chain {
        Some(chain) => Kind::Chain { grid, chain },
        None => single(matches, grid, later),
    }
}

/// What a match asks for that passed the checks, with what these found.
fn options<'a>(
    matches: &ArgMatches<'a>,
    begun: Begun,
    make: Option<u64>,
    named: Named<'a>,
) -> Options<'a>
    requires bounded { AreBounded (rows_of (found_of matches.now)) }
    requires make { make ≡ make_at (rows_of (found_of matches.now)) }
    requires together { AreOptions
        (asked_with (rows_of (found_of matches.now)) begun (names_of named)) }
    ensures { asked result
        ≡ asked_with (rows_of (found_of matches.now)) begun (names_of named.entry) }
{
    let Named {
        name_r,
        name_s,
        later,
        chain,
    } = named;
    Options {
        on: text(matches, "on"),
        kind: kind(matches, begun.grid, later, chain),
        feeders: small_number(matches, "feeders", 2),
        workers: small_number(matches, "workers", 4),
        batch: small_number(matches, "batch", 64),
        feed: begun.feed,
        weights: weights(matches),
        seed: number(matches, "seed").unwrap_or(1),
        make,
        report: flag(matches, "report"),
        rows: flag(matches, "rows"),
        name_r,
        name_s,
    }
}

/// What a match asks for, or the first check that it fails; or memory is wanting for the later waves.
pub(crate) fn checked<'a>(
    alloc: Global,
    matches: &ArgMatches<'a>,
) -> Result<Options<'a>, WordsError>
    requires { AreBounded (rows_of (found_of matches.now)) }
    ensures { Gives (asked_by (rows_of (found_of matches.now))) result }
{
    let begun = match begin(matches) {
        Ok(begun) => begun,
        Err(fault) => return Err(WordsError::Fault(fault)),
    };
    let make = number(matches, "make");
    match read_names(alloc, matches, make) {
        Ok(named) => Ok(options(matches, begun, make, named)),
        Err(error) => Err(error),
    }
}
