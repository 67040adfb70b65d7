//! Reading the words by the command.
ghost use Rattle.std.specs.Prelude.{◌≡◌, IfOk, IfErr, map, string_bytes};
ghost use Rattle.clap.specs.Words.{found_of, rows_of};
ghost use Rattle.command_line.specs.Language.{IsTaken, found_in};

use crate::builder::program;
use crate::fault::WordsFault;
use clap::ArgMatches;
use clap::error::ErrorKind;
use std::alloc::Global;

/// The matches of the words, where the command takes them.
pub(crate) fn read<'a>(alloc: Global, words: &'a [String]) -> Result<ArgMatches<'a>, WordsFault>
    ensures taken { IfOk result (λ matches. IsTaken (map string_bytes words.entry.now)
        × (rows_of (found_of matches) ≡ found_in (map string_bytes words.entry.now))) }
    ensures refused { IfErr result (λ fault. fault ≡ WordsFault.Usage → IsTaken (map string_bytes words.entry.now) → ⊥) }
{
    let Ok(command) = program(alloc) else {
        return Err(WordsFault::OutOfMemory);
    };
    match command.try_get_matches_from(words) {
        Ok(matches) => Ok(matches),
        Err(error) => match error.kind() {
            ErrorKind::OutOfMemory => Err(WordsFault::OutOfMemory),
            _ => Err(WordsFault::Usage),
        },
    }
}
