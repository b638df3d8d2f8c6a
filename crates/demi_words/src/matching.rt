// What `clap` finds in the words after a command's name, and what is read of it.
ghost use Rattle.std.specs.Prelude.{◌≡◌, ◌^◌, true, false, map, option_map, string_bytes, IfOk, IsErrOf, Some};
ghost use Rattle.clap.specs.Walk.{is_empty};
ghost use Rattle.clap.specs.Words.{IsParsedFrom, Text, app_of, fault_of, first_of, found_of, is_simple_and_free, matches_of, one_of, rows_of};
ghost use Rattle.demi_words.specs.Commands.{number_or, word_at};
ghost use Rattle.demi_words.specs.Numbers.{IsNumberBelow};

use crate::command::WordsRefusal;
use clap::error::ErrorKind;
use clap::{ArgMatches, Command};

// What is found in the words, where the command takes them.
pub(crate) fn find<'a>(
    command: Command<'a>,
    rest: &'a [String],
) -> Result<ArgMatches<'a>, WordsRefusal>
    requires { is_simple_and_free (app_of command) ≡ true }
    ensures taken { IfOk result (λ m. is_empty (fault_of (app_of command.entry) (map string_bytes rest.entry.now)) ≡ true) }
    ensures found { IfOk result (λ m. rows_of (found_of m) ≡ matches_of (app_of command.entry) (map string_bytes rest.entry.now)) }
    ensures parsed { IfOk result (λ m. IsParsedFrom command.entry m) }
    ensures refused { IsErrOf result WordsRefusal.Usage → is_empty (fault_of (app_of command.entry) (map string_bytes rest.entry.now)) ≡ false }
{
    match command.try_get_matches_from(rest) {
        Ok(matches) => Ok(matches),
        Err(error) => {
            if error.kind() == ErrorKind::OutOfMemory {
                Err(WordsRefusal::NoMemory)
            } else {
                Err(WordsRefusal::Usage)
            }
        }
    }
}

// The number of an option, or another where it was not given.
pub(crate) fn number_or(matches: &ArgMatches<'_>, id: &str, other: u32) -> u32
    requires { (t : Text) → one_of id.now (rows_of (found_of matches.now)) ≡ Some t → IsNumberBelow (2 ^ 32) t }
    ensures { result ≡ number_or other id.now (rows_of (found_of matches.now)) }
{
    matches.get_one::<u32>(id).unwrap_or(other)
}

// The same of 64 bits, and 0 where it was not given.
pub(crate) fn long_number(matches: &ArgMatches<'_>, id: &str) -> u64
    requires { (t : Text) → one_of id.now (rows_of (found_of matches.now)) ≡ Some t → IsNumberBelow (2 ^ 64) t }
    ensures { result ≡ number_or 0 id.now (rows_of (found_of matches.now)) }
{
    matches.get_one::<u64>(id).unwrap_or(0)
}

// The text of an option, if it was given.
pub(crate) fn text_at<'a>(matches: &ArgMatches<'a>, id: &str) -> Option<&'a str>
    ensures { option_map (λ s. s.now) result ≡ first_of id.now (rows_of (found_of matches.now)) }
{
    matches.get_str(id)
}

// A word that has to be there.
pub(crate) fn word_at<'a>(matches: &ArgMatches<'a>, id: &str) -> &'a str
    ensures { result.now ≡ word_at id.now (rows_of (found_of matches.now)) }
{
    matches.get_str(id).unwrap_or("")
}
