// The words, read.

ghost use Rattle.std.specs.Prelude.{◌≡◌, ◌≢◌, Ok, Err, IfOk, map, string_bytes};
ghost use Rattle.clap.specs.Matches.{found_of};
ghost use Rattle.clap.specs.Values.{kind_of};
ghost use Rattle.clap.specs.Walk.{rows_of};
ghost use Rattle.clap.specs.declared.error.kind.ErrorKind.TheVariants.{OutOfMemory};
ghost use Rattle.join_words.specs.Words.{AreOptions, IsMatch, asked, asked_of};
ghost use Rattle.join_words.specs.declared.options.WordsFault.{WordsFault};

use crate::checks::checked;
use crate::options::{Options, WordsError, WordsFault};
use crate::syntax::command;
use clap::error::ErrorKind;
use clap::{ArgMatches, Error};
use std::alloc::{AllocError, Global};

/// Why a parse failed.
fn refusal(error: &Error) -> WordsError
    ensures memory { kind_of error.now ≡ OutOfMemory → result ≡ WordsError.Memory }
    ensures others { kind_of error.now ≢ OutOfMemory
        → result ≡ WordsError.Fault WordsFault.NoMatch }
{
    if error.kind() == ErrorKind::OutOfMemory {
        WordsError::Memory
    } else {
        WordsError::Fault(WordsFault::NoMatch)
    }
}

/// The match of the words by the command.
fn matched<'a>(alloc: Global, words: &'a [String]) -> Result<ArgMatches<'a>, WordsError>
    ensures ok { IfOk result (λ matches.
        IsMatch (map string_bytes words.now) (rows_of (found_of matches))) }
    ensures fault { (fault : WordsFault) → result ≡ Err (WordsError.Fault fault)
        → asked_of (map string_bytes words.now) ≡ Err fault }
{
    let command = match command(alloc) {
        Ok(command) => command,
        Err(AllocError) => return Err(WordsError::Memory),
    };
    match command.try_get_matches_from(words) {
        Ok(matches) => Ok(matches),
        Err(error) => Err(refusal(&error)),
    }
}

/// Reads the words, of which the first is the program's name. Memory may run out at any list of
/// words; where it doesn't, the answer is the one that `asked_of` names.
pub fn read_words<'a>(alloc: Global, words: &'a [String]) -> Result<Options<'a>, WordsError>
    ensures ok { IfOk result (λ options.
        asked_of (map string_bytes words.now) ≡ Ok (asked options)) }
    ensures fault { (fault : WordsFault) → result ≡ Err (WordsError.Fault fault)
        → asked_of (map string_bytes words.now) ≡ Err fault }
    ensures options { IfOk result (λ options. AreOptions (asked options)) }
{
    let matches = matched(alloc, words)?;
    match checked(alloc, &matches) {
        Ok(options) => Ok(options),
        Err(error) => Err(error),
    }
}
