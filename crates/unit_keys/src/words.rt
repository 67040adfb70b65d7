// Words that are kept.
#![tactic(auto)]

ghost use Rattle.std.specs.Prelude.{◌≡◌, ◌||◌, ℕ, List, OnOk};
ghost use Rattle.std.specs.Str.{bytes_eq};
ghost use Rattle.unit_keys.specs.Words as spec;

use std::alloc::{AllocError, Global};
use std::collections::BTreeMap;

/// Words, each with the number of the node that had it last.
pub type Words = BTreeMap<Vec<u8>, u32>;

/// Whether a word is kept.
pub fn has_word(words: &Words, word: &[u8]) -> bool
    ensures { result ≡ spec.has_word words.now word.now }
{
    words.get(word).copied().is_some()
}

/// One word more.
pub fn add_word(alloc: Global, words: &mut Words, word: &[u8], node: u32) -> Result<(), AllocError>
    ensures { OnOk result ((other : List ℕ) → spec.has_word words.new other ≡ (bytes_eq word.now other || spec.has_word words.old other)) }
{
    let mut key = Vec::new(alloc);
    key.extend_from_slice(word)?;
    words.insert(key, node)?;
    Ok(())
}
