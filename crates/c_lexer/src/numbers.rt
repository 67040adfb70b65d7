//! Integer and floating constants (C11 6.4.4.1, 6.4.4.2).
ghost use Rattle.c_lexer.specs.Numbers as spec;
ghost use Rattle.std.specs.Prelude.{◌≡◌, ◌≤◌, ◌^◌, nat_lt, nat_eq, take, drop, slice_index};
ghost use Rattle.std.specs.List.{list_any};
ghost use Rattle.std.specs.Cmp.Lexicographic.{pointwise};
ghost use Rattle.c_lexer.specs.Numbers.{value_on};
ghost use Rattle.c_lexer.specs.Bytes as bytes;

use crate::bytes::{is_digit, is_hexadecimal_digit, is_octal_digit};
use crate::spellings::SUFFIXES;

/// The bases of constants.
#[derive(Clone, Copy)]
pub enum Base {
    Octal,
    Decimal,
    Hexadecimal,
}

/// Whether a byte is a digit of a base.
fn is_digit_of(base: Base, byte: u8) -> bool
    ensures { result ≡ spec.is_digit_of base byte }
{
    match base {
        Base::Octal => is_octal_digit(byte),
        Base::Decimal => is_digit(byte),
        Base::Hexadecimal => is_hexadecimal_digit(byte),
    }
}

/// The number of a base's digits.
fn radix(base: Base) -> u8
    ensures { result ≡ spec.radix base }
{
    match base {
        Base::Octal => 8,
        Base::Decimal => 10,
        Base::Hexadecimal => 16,
    }
}

/// What a digit is worth; 0 to 15 for the digits of each base.
#[tactic(auto, unfolding(crate::specs::Bytes::digit_value))]
fn digit_value(byte: u8) -> u8
    ensures { result ≡ bytes.digit_value byte }
{
    if b'a' <= byte {
        byte - 87
    } else if b'A' <= byte {
        byte - 55
    } else {
        byte.saturating_sub(b'0')
    }
}

/// How many digits stand first.
pub fn digit_count(base: Base, run: &[u8]) -> usize
    ensures { result ≡ spec.digit_count base run.now }
{
    run.iter()
        .take_while(|byte| is_digit_of(base, **byte))
        .count()
}

/// Whether digits are worth less than a limit.
pub fn is_below(base: Base, digits: &[u8], limit: u128) -> bool
    requires { limit ≤ 2 ^ 64 }
    ensures { result ≡ nat_lt (value_on (spec.radix base) 0 digits.now) limit }
{
    let mut value: u128 = 0;
    for digit in digits {
        value = value * radix(base) as u128 + digit_value(*digit) as u128;
        if limit <= value {
            return false;
        }
    }
    value < limit
}

/// Whether a word is one of some words.
fn is_among(words: &[&[u8]], word: &[u8]) -> bool
    ensures { result ≡ list_any (λ w. pointwise nat_eq w.now word.now) words.now }
{
    words.iter().any(|w| *w == word)
}

/// Whether bytes are the suffix of an integer constant.
#[tactic(auto, using(crate::proofs::Tables::any_suffix))]
fn is_suffix(run: &[u8]) -> bool
    ensures { result ≡ spec.is_suffix run.now }
{
    is_among(&SUFFIXES, run)
}

/// The byte at an index, or 0 behind the end.
pub fn byte_at(run: &[u8], at: usize) -> u8
    ensures { result ≡ slice_index run.now at }
{
    if at < run.len() { run[at] } else { 0 }
}

/// What stands behind the first bytes.
pub fn behind_first(run: &[u8], count: usize) -> &[u8]
    ensures { result.now ≡ drop count run.now }
{
    if count < run.len() {
        &run[count..]
    } else {
        &[]
    }
}

/// The digits that stand first.
pub fn digits(base: Base, run: &[u8]) -> &[u8]
    ensures { result.now ≡ take (spec.digit_count base run.now) run.now }
{
    &run[..digit_count(base, run)]
}

/// What stands behind the digits that stand first.
fn behind_digits(base: Base, run: &[u8]) -> &[u8]
    ensures { result.now ≡ spec.behind base run.now }
{
    behind_first(run, digit_count(base, run))
}

/// Whether digits of a number below 2^64 stand first, and a suffix behind them.
#[tactic(auto, unfolding(crate::specs::Numbers::is_whole))]
fn is_whole(base: Base, run: &[u8]) -> bool
    ensures { result ≡ spec.is_whole base run.now }
{
    if digit_count(base, run) == 0 {
        return false;
    }
    if !is_below(base, digits(base, run), 1 << 64) {
        return false;
    }
    is_suffix(behind_digits(base, run))
}

/// Whether `0x` or `0X` stands first.
#[tactic(auto, unfolding(crate::specs::Numbers::begins_hexadecimal))]
fn begins_hexadecimal(run: &[u8]) -> bool
    ensures { result ≡ spec.begins_hexadecimal run.now }
{
    byte_at(run, 0) == b'0' && (byte_at(run, 1) == b'x' || byte_at(run, 1) == b'X')
}

/// Whether a number is an integer constant below 2^64 (C11 6.4.4.1).
#[tactic(auto, unfolding(crate::specs::Numbers::is_integer))]
pub fn is_integer(run: &[u8]) -> bool
    ensures { result ≡ spec.is_integer run.now }
{
    if begins_hexadecimal(run) {
        return is_whole(Base::Hexadecimal, behind_first(run, 2));
    }
    if byte_at(run, 0) == b'0' {
        return is_whole(Base::Octal, run);
    }
    is_whole(Base::Decimal, run)
}

/// Whether bytes are the suffix of a floating constant, or none.
#[tactic(auto, unfolding(crate::specs::Numbers::is_floating_suffix))]
fn is_floating_suffix(run: &[u8]) -> bool
    ensures { result ≡ spec.is_floating_suffix run.now }
{
    if run.len() == 0 {
        return true;
    }
    if run.len() != 1 {
        return false;
    }
    match run[0] {
        b'f' | b'F' | b'l' | b'L' => true,
        _ => false,
    }
}

/// Whether a byte begins the exponent of digits of a base.
#[tactic(auto, unfolding(crate::specs::Numbers::begins_exponent))]
fn begins_exponent(base: Base, byte: u8) -> bool
    ensures { result ≡ spec.begins_exponent base byte }
{
    match base {
        Base::Octal => false,
        Base::Decimal => byte == b'e' || byte == b'E',
        Base::Hexadecimal => byte == b'p' || byte == b'P',
    }
}

/// What stands behind a sign, if there is one.
#[tactic(auto, unfolding(crate::specs::Numbers::unsigned))]
fn unsigned(run: &[u8]) -> &[u8]
    ensures { result.now ≡ spec.unsigned run.now }
{
    if byte_at(run, 0) == b'+' || byte_at(run, 0) == b'-' {
        return behind_first(run, 1);
    }
    run
}

/// Whether bytes are the digits of an exponent and a suffix.
#[tactic(auto, unfolding(crate::specs::Numbers::is_exponent))]
fn is_exponent(run: &[u8]) -> bool
    ensures { result ≡ spec.is_exponent run.now }
{
    if digit_count(Base::Decimal, run) == 0 {
        return false;
    }
    is_floating_suffix(behind_digits(Base::Decimal, run))
}

/// Whether bytes are an exponent, which may lack where that is said, and a suffix.
#[tactic(auto, unfolding(crate::specs::Numbers::is_floating_end))]
fn is_floating_end(base: Base, lacks: bool, run: &[u8]) -> bool
    ensures { result ≡ spec.is_floating_end base lacks run.now }
{
    if begins_exponent(base, byte_at(run, 0)) {
        return is_exponent(unsigned(behind_first(run, 1)));
    }
    if lacks {
        return is_floating_suffix(run);
    }
    false
}

/// Whether the exponent may lack behind a dot.
#[tactic(auto, unfolding(crate::specs::Numbers::may_lack_exponent))]
fn may_lack_exponent(base: Base) -> bool
    ensures { result ≡ spec.may_lack_exponent base }
{
    match base {
        Base::Octal | Base::Hexadecimal => false,
        Base::Decimal => true,
    }
}

/// Whether bytes are the digits behind a dot, then what ends a floating constant; `whole` says whether digits stand before the dot.
#[tactic(auto, unfolding(crate::specs::Numbers::is_fraction_end))]
fn is_fraction_end(base: Base, whole: bool, run: &[u8]) -> bool
    ensures { result ≡ spec.is_fraction_end base whole run.now }
{
    if !whole && digit_count(base, run) == 0 {
        return false;
    }
    is_floating_end(base, may_lack_exponent(base), behind_digits(base, run))
}

/// Whether bytes are digits, with a dot before, among or behind them or without one, and what ends a floating constant.
#[tactic(auto, unfolding(crate::specs::Numbers::is_fraction))]
fn is_fraction(base: Base, run: &[u8]) -> bool
    ensures { result ≡ spec.is_fraction base run.now }
{
    let whole = 0 < digit_count(base, run);
    let rest = behind_digits(base, run);
    if byte_at(rest, 0) == b'.' {
        return is_fraction_end(base, whole, behind_first(rest, 1));
    }
    if whole {
        return is_floating_end(base, false, rest);
    }
    false
}

/// Whether a number is a floating constant (C11 6.4.4.2).
#[tactic(auto, unfolding(crate::specs::Numbers::is_floating))]
pub fn is_floating(run: &[u8]) -> bool
    ensures { result ≡ spec.is_floating run.now }
{
    if begins_hexadecimal(run) {
        return is_fraction(Base::Hexadecimal, behind_first(run, 2));
    }
    is_fraction(Base::Decimal, run)
}
