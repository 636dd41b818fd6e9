// What clap's matches say of one argument.

ghost use Rattle.std.specs.Prelude.{◌≡◌, is_some, option_map};
ghost use Rattle.clap.specs.Matches.{found_of};
ghost use Rattle.clap.specs.Walk.{first_of, rows_of};
ghost use Rattle.join_words.specs.Found.{flag_at, number_at, number_of, text_at};

use clap::ArgMatches;

/// A whole number of 64 bits.
fn number_in(text: &str) -> Option<u64>
    ensures { result ≡ number_of text.now }
{
    text.parse::<u64>().ok()
}

/// The number of an option, where it was given or has a default.
pub(crate) fn number(matches: &ArgMatches<'_>, id: &str) -> Option<u64>
    ensures { result ≡ number_at id.now (rows_of (found_of matches.now)) }
{
    match matches.get_str(id) {
        Some(text) => number_in(text),
        None => None,
    }
}

/// The text of an option; empty where there is none.
pub(crate) fn text<'a>(matches: &ArgMatches<'a>, id: &str) -> &'a str
    ensures { result.now ≡ text_at id.now (rows_of (found_of matches.now)) }
{
    match matches.get_str(id) {
        Some(text) => text,
        None => "",
    }
}

/// The text of an option, where it was given or has a default.
pub(crate) fn given<'a>(matches: &ArgMatches<'a>, id: &str) -> Option<&'a str>
    ensures { option_map (λ text. text.now) result
        ≡ first_of id.now (rows_of (found_of matches.now)) }
{
    matches.get_str(id)
}

/// Whether an option was given, or has a default.
pub(crate) fn is_given(matches: &ArgMatches<'_>, id: &str) -> bool
    ensures { result ≡ is_some (first_of id.now (rows_of (found_of matches.now))) }
{
    given(matches, id).is_some()
}

/// The flag was given.
pub(crate) fn flag(matches: &ArgMatches<'_>, id: &str) -> bool
    ensures { result ≡ flag_at id.now (rows_of (found_of matches.now)) }
{
    text(matches, id) == "true"
}
