//! The values of the options, by their names.
ghost use Rattle.std.specs.Prelude.{◌≡◌, IfOk, IfErr, option_map};
ghost use Rattle.clap.specs.Words.{first_of, found_of, rows_of};
ghost use Rattle.command_line.specs.Meaning.{number_of};
ghost use Rattle.command_line.specs.Rules.{IsNameIn, IsNumberIn, is_flagged};

use crate::fault::WordsFault;
use crate::number::decimal_in;
use crate::unit_word::is_unit_word;
use crate::values::text_of;
use clap::ArgMatches;

/// The number of an option, where it stands.
pub(crate) fn number(
    matches: &ArgMatches<'_>,
    name: &str,
    least: u64,
    most: u64,
) -> Result<Option<u64>, WordsFault>
    ensures right { IfOk result (λ n. IsNumberIn least most (first_of name.now (rows_of (found_of matches.now)))
        × (n ≡ number_of name.now (rows_of (found_of matches.now)))) }
    ensures wrong { IfErr result (λ fault. IsNumberIn least most (first_of name.now (rows_of (found_of matches.now))) → ⊥) }
{
    let Some(text) = text_of(matches, name) else {
        return Ok(None);
    };
    match decimal_in(text, least, most) {
        Some(number) => Ok(Some(number)),
        None => Err(WordsFault::Usage),
    }
}

/// The name of an option, where it stands.
pub(crate) fn name<'a>(
    matches: &ArgMatches<'a>,
    option: &str,
) -> Result<Option<&'a str>, WordsFault>
    ensures right { IfOk result (λ name. IsNameIn (first_of option.now (rows_of (found_of matches.now)))
        × (option_map (λ s. s.now) name ≡ first_of option.now (rows_of (found_of matches.now)))) }
    ensures wrong { IfErr result (λ fault. IsNameIn (first_of option.now (rows_of (found_of matches.now))) → ⊥) }
{
    let Some(text) = text_of(matches, option) else {
        return Ok(None);
    };
    if is_unit_word(text) {
        return Ok(Some(text));
    }
    Err(WordsFault::Usage)
}

/// Whether a flag stands.
pub(crate) fn is_set(matches: &ArgMatches<'_>, flag: &str) -> bool
    ensures { result ≡ is_flagged flag.now (rows_of (found_of matches.now)) }
{
    match text_of(matches, flag) {
        Some(text) => text == "true",
        None => false,
    }
}
