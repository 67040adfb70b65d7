//! The names of the functions at which a program is entered.
ghost use Rattle.std.specs.Prelude.{◌≡◌, None, IfOk, IfErr, IsSome, IsTrue, ◌↔◌, codes};
ghost use Rattle.std.specs.List.{All};
ghost use Rattle.clap.specs.Words.{found_of, rows_of};
ghost use Rattle.clap.specs.Walk.{texts};
ghost use Rattle.command_line.specs.Meaning.{number_of};
ghost use Rattle.command_line.specs.Rules.{AreEntries, IsName, entry_names, entry_word, gen_word, is_name_byte, parts_of};

use crate::fault::WordsFault;
use crate::unit_word::are_distinct;
use crate::values::text_of;
use clap::ArgMatches;
use std::alloc::{AllocError, Global};

/// Whether a byte may stand in a C identifier.
fn is_name_byte(byte: u8) -> bool
    ensures { result ≡ is_name_byte byte }
{
    byte.is_ascii_alphanumeric() || byte == b'_'
}

/// Whether the text is the spelling of a C identifier.
fn is_name(text: &str) -> bool
    ensures { IsTrue result ↔ IsName text.now }
{
    let bytes = text.as_bytes();
    if bytes.is_empty() || bytes[0].is_ascii_digit() {
        return false;
    }
    bytes.iter().all(|byte| is_name_byte(*byte))
}

/// Whether each word is the spelling of a C identifier.
fn are_names(words: &[&str]) -> bool
    ensures { IsTrue result ↔ All (λ word. IsName word.now) words.now }
{
    words.iter().all(|word| is_name(word))
}

/// Whether the words are at most 64 different names.
#[tactic(auto, using(crate::proofs::Texts::formed_words, crate::proofs::Texts::entries_are, crate::proofs::Texts::entries_few))]
fn are_entries(words: &[&str]) -> bool
    ensures { IsTrue result ↔ AreEntries (texts words.now) }
{
    if words.len() > 64 {
        return false;
    }
    if !are_names(words) {
        return false;
    }
    are_distinct(words)
}

/// What stands between the commas of a word.
fn parts<'a>(alloc: Global, word: &'a str) -> Result<Vec<&'a str>, AllocError>
    ensures { IfOk result (λ parts. texts parts.items ≡ parts_of word.now) }
{
    word.split(',').collect(alloc)
}

/// The names that the word gives, where they keep the rules.
fn names<'a>(alloc: Global, word: &'a str) -> Result<Vec<&'a str>, WordsFault>
    ensures ok { IfOk result (λ names. (texts names.items ≡ parts_of word.now) × AreEntries (parts_of word.now)) }
    ensures usage { IfErr result (λ fault. fault ≡ WordsFault.Usage → AreEntries (parts_of word.now) → ⊥) }
{
    let Ok(parts) = parts(alloc, word) else {
        return Err(WordsFault::OutOfMemory);
    };
    if !are_entries(parts.as_slice()) {
        return Err(WordsFault::Usage);
    }
    Ok(parts)
}

/// The names of the entries, which a generated program has not.
pub(crate) fn entries<'a>(
    alloc: Global,
    matches: &ArgMatches<'a>,
    generated: Option<u32>,
) -> Result<Vec<&'a str>, WordsFault>
    requires number { generated ≡ number_of (codes "gen") (rows_of (found_of matches.now)) }
    ensures ok { IfOk result (λ names. let rows = rows_of (found_of matches.now) in
        (texts names.items ≡ entry_names rows) × AreEntries (entry_names rows)
        × (IsSome (entry_word rows) → gen_word rows ≡ None)) }
    ensures usage { IfErr result (λ fault. let rows = rows_of (found_of matches.now) in
        fault ≡ WordsFault.Usage → AreEntries (entry_names rows)
        → (IsSome (entry_word rows) → gen_word rows ≡ None) → ⊥) }
{
    let Some(word) = text_of(matches, "entry") else {
        return Ok(Vec::new(alloc));
    };
    if generated.is_some() {
        return Err(WordsFault::Usage);
    }
    names(alloc, word)
}
