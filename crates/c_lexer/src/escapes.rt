//! Escape sequences (C11 6.4.4.4).
ghost use Rattle.c_lexer.specs.Escapes as spec;
ghost use Rattle.c_lexer.specs.Escapes.{IsBad};
ghost use Rattle.std.specs.Prelude.{◌≡◌, ℕ, ◌+◌, ◌<◌, ◌≤◌, length, MatchOption};

use crate::numbers::{Base, behind_first, byte_at, digit_count, digits, is_below};
use crate::quotes::escapes;

/// Whether the octal digits that stand first, of which there are some, are an escape.
#[tactic(auto, unfolding(crate::specs::Escapes::is_octal_escape))]
fn is_octal_escape(wide: bool, behind: &[u8]) -> bool
    ensures { result ≡ spec.is_octal_escape wide behind.now }
{
    if wide {
        return true;
    }
    let count = digit_count(Base::Octal, behind).min(3);
    is_below(Base::Octal, &behind[..count], 256)
}

/// Whether the bytes behind `\x` are hexadecimal digits of an escape.
#[tactic(auto, unfolding(crate::specs::Escapes::is_hexadecimal_escape))]
fn is_hexadecimal_escape(wide: bool, behind: &[u8]) -> bool
    ensures { result ≡ spec.is_hexadecimal_escape wide behind.now }
{
    if digit_count(Base::Hexadecimal, behind) == 0 {
        return false;
    }
    if wide {
        return true;
    }
    is_below(Base::Hexadecimal, digits(Base::Hexadecimal, behind), 256)
}

/// Whether a byte alone behind a backslash is an escape.
#[tactic(auto, unfolding(crate::specs::Escapes::is_simple_escape))]
fn is_simple_escape(byte: u8) -> bool
    ensures { result ≡ spec.is_simple_escape byte }
{
    match byte {
        b'\'' | b'"' | b'?' | b'\\' | b'a' | b'b' | b'f' | b'n' | b'r' | b't' | b'v' => true,
        _ => false,
    }
}

/// Whether the bytes behind a backslash begin with an escape.
#[tactic(auto, unfolding(crate::specs::Escapes::is_escape))]
fn is_escape(wide: bool, behind: &[u8]) -> bool
    ensures { result ≡ spec.is_escape wide behind.now }
{
    if 0 < digit_count(Base::Octal, behind) {
        return is_octal_escape(wide, behind);
    }
    if byte_at(behind, 0) == b'x' {
        return is_hexadecimal_escape(wide, behind_first(behind, 1));
    }
    is_simple_escape(byte_at(behind, 0))
}

/// Whether a bad escape begins at a byte.
#[inline(always)]
fn is_bad(wide: bool, escaped: bool, text: &[u8], at: usize) -> bool
    requires { at < length text.now }
    ensures { result ≡ spec.is_bad wide escaped text.now at }
{
    if text[at] == b'\\' && !escaped {
        return !is_escape(wide, &text[at + 1..]);
    }
    false
}

/// How many bytes of a literal stand before its first bad escape, if it has one. The literal's inside begins at a place and has
/// some length.
pub fn first_bad(wide: bool, text: &[u8], inside: usize, size: usize) -> Option<usize>
    requires { inside + size ≤ length text.now }
    ensures { MatchOption result ((i : ℕ) → i < size → IsBad wide text.now inside i → ⊥)
        (λ n. (n < size) × IsBad wide text.now inside n × ((i : ℕ) → i < n → IsBad wide text.now inside i → ⊥)) }
{
    let mut escaped = false;
    for count in 0..size {
        if is_bad(wide, escaped, text, inside + count) {
            return Some(count);
        }
        escaped = escapes(escaped, text[inside + count]);
    }
    None
}
