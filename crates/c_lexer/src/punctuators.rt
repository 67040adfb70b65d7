//! Punctuators (C11 6.4.6).
ghost use Rattle.c_lexer.specs.Spells.{Spells};
ghost use Rattle.c_lexer.specs.Spellings.{none_before, punctuators, spelling, position};
ghost use Rattle.std.specs.Prelude.{◌≡◌, ℕ, ◌+◌, ◌<◌, ◌≤◌, [], length, map, slice_index, slice_index_or, true, false, IfSome, IfNone};

use crate::spellings::{PUNCTUATORS, Spelling};

/// Whether a word stands at a place.
#[inline(always)]
fn is_spelled(text: &[u8], from: usize, word: &[u8]) -> bool
    requires { from ≤ length text.now }
    ensures yes { result ≡ true → Spells text.now from word.now }
    ensures no { result ≡ false → Spells text.now from word.now → ⊥ }
{
    if text.len() - from < word.len() {
        return false;
    }
    for i in 0..word.len() {
        if text[from + i] != word[i] {
            return false;
        }
    }
    true
}

/// A number below which no spelling begins with a byte.
#[inline(always)]
#[tactic(auto, unfolding(crate::specs::Spellings::punctuators))]
fn start_of(byte: u8) -> usize
    ensures within { result ≤ 54 }
    ensures first { none_before byte result 0 punctuators ≡ true }
{
    match byte {
        b'[' => 6,
        b':' => 7,
        b']' => 9,
        b'(' => 10,
        b')' => 11,
        b'{' => 12,
        b'%' => 13,
        b'}' => 18,
        b'.' => 19,
        b'-' => 21,
        b'+' => 25,
        b'&' => 28,
        b'*' => 31,
        b'~' => 33,
        b'!' => 34,
        b'/' => 36,
        b'>' => 38,
        b'=' => 42,
        b'^' => 44,
        b'|' => 46,
        b'?' => 49,
        b';' => 50,
        b',' => 51,
        b'#' => 52,
        _ => 0,
    }
}

/// The number of the longest spelling at a place.
pub fn punctuator_at(text: &[u8], from: usize) -> Option<usize>
    requires { from < length text.now }
    ensures found { IfSome result (λ k. (k < 54) × Spells text.now from (spelling k)
        × ((j : ℕ) → j < k → Spells text.now from (spelling j) → ⊥)) }
    ensures none { IfNone result ((j : ℕ) → j < 54 → Spells text.now from (spelling j) → ⊥) }
{
    for k in start_of(text[from])..PUNCTUATORS.len() {
        if is_spelled(text, from, word_of(k)) {
            return Some(k);
        }
    }
    None
}

/// The bytes of an entry of a table of spellings.
fn word_in(table: &[Spelling], number: usize) -> &'static [u8]
    requires { number < length table.now }
    ensures { result.now ≡ slice_index_or (map (λ e. e.0.now) table.now) number [] }
{
    table[number].0
}

/// The bytes of a spelling.
pub fn word_of(number: usize) -> &'static [u8]
    requires { number < 54 }
    ensures { result.now ≡ spelling number }
{
    word_in(&PUNCTUATORS, number)
}

/// The position of an entry of a table of spellings.
fn position_in(table: &[Spelling], number: usize) -> u8
    requires { number < length table.now }
    ensures { result ≡ slice_index (map (λ e. e.1) table.now) number }
{
    table[number].1
}

/// The position of the token that a spelling means.
pub fn position_of(number: usize) -> u8
    requires { number < 54 }
    ensures { result ≡ position number }
{
    position_in(&PUNCTUATORS, number)
}
