//! Integer constants (C11 6.4.4.1).
ghost use Rattle.std.specs.Prelude.{◌≡◌, ◌<◌, ◌^◌, ◌↔◌, IsTrue, min};
ghost use Rattle.std.specs.List.{list_any};
ghost use Rattle.c_lexer.specs.Numbers as numbers;
ghost use Rattle.c_senses.specs.Literals as spec;
ghost use Rattle.c_senses.specs.Literals.{value_of_integer, type_of_integer};
ghost use Rattle.c_literals.specs.Digits.{base_seen};
ghost use Rattle.c_literals.specs.Integers.{type_seen, term_of};

use crate::digits::{Radix, digit_count, value_up_to};
use crate::parts::{behind_first, byte_at};
use c_types::term::Term;

/// The types that an integer constant may have.
#[derive(Clone, Copy, Debug, PartialEq, Eq)]
pub enum ConstantType {
    Int,
    UnsignedInt,
    Long,
    UnsignedLong,
    LongLong,
    UnsignedLongLong,
}

impl ConstantType {
    /// The type as a term of a table: `int` has 4 bytes and the rank 4, `long` 8 bytes and the rank 5, `long long` 8 bytes and the
    /// rank 6 (C11 6.2.5p4, 6.3.1.1).
    pub fn term(self) -> Term
        ensures { result ≡ term_of self }
    {
        let (size, rank, signed) = match self {
            ConstantType::Int => (4, 4, true),
            ConstantType::UnsignedInt => (4, 4, false),
            ConstantType::Long => (8, 5, true),
            ConstantType::UnsignedLong => (8, 5, false),
            ConstantType::LongLong => (8, 6, true),
            ConstantType::UnsignedLongLong => (8, 6, false),
        };
        Term::Integer { size, rank, signed }
    }
}

/// What an integer constant is worth, and its type.
#[derive(Clone, Copy, Debug, PartialEq, Eq)]
pub struct IntegerConstant {
    pub value: u64,
    pub ty: ConstantType,
}

/// Whether `0x` or `0X` stands first.
#[tactic(auto, unfolding(c_lexer::specs::Numbers::begins_hexadecimal))]
fn begins_hexadecimal(constant: &[u8]) -> bool
    ensures { result ≡ numbers.begins_hexadecimal constant.now }
{
    byte_at(constant, 0) == b'0' && (byte_at(constant, 1) == b'x' || byte_at(constant, 1) == b'X')
}

/// The base of a constant.
fn radix_of(constant: &[u8]) -> Radix
    ensures { base_seen result ≡ spec.base_of constant.now }
{
    if begins_hexadecimal(constant) {
        Radix::Hexadecimal
    } else if byte_at(constant, 0) == b'0' {
        Radix::Octal
    } else {
        Radix::Decimal
    }
}

/// The digits of a constant, and what stands behind them.
fn digits_of(constant: &[u8]) -> &[u8]
    ensures { result.now ≡ spec.digits_of constant.now }
{
    if begins_hexadecimal(constant) {
        behind_first(constant, 2)
    } else {
        constant
    }
}

/// Whether a suffix has `u` or `U`.
fn says_unsigned(suffix: &[u8]) -> bool
    ensures { result ≡ spec.says_unsigned suffix.now }
{
    suffix.iter().any(|byte| *byte == b'U' || *byte == b'u')
}

/// How many times a suffix has `l` or `L`.
#[tactic(auto, using(crate::proofs::Suffixes::count_of_long_is))]
fn count_of_long(suffix: &[u8]) -> usize
    ensures { result ≡ spec.count_of_long suffix.now }
{
    suffix
        .iter()
        .filter(|byte| **byte == b'L' || **byte == b'l')
        .count()
}

/// Whether constants of a base are decimal.
fn is_decimal(radix: Radix) -> bool
    ensures { result ≡ spec.is_decimal (base_seen radix) }
{
    match radix {
        Radix::Octal | Radix::Hexadecimal => false,
        Radix::Decimal => true,
    }
}

/// The type of a constant without a suffix.
fn plain_type(decimal: bool, value: u64) -> ConstantType
    ensures { type_seen result ≡ spec.plain_type decimal value }
{
    if value < 1 << 31 {
        ConstantType::Int
    } else if !decimal && value < 1 << 32 {
        ConstantType::UnsignedInt
    } else {
        long_type(decimal, value)
    }
}

/// The type of a constant with the suffix `l`.
fn long_type(decimal: bool, value: u64) -> ConstantType
    ensures { type_seen result ≡ spec.long_type decimal value }
{
    if value < 1 << 63 {
        ConstantType::Long
    } else if decimal {
        ConstantType::UnsignedLongLong
    } else {
        ConstantType::UnsignedLong
    }
}

/// The type of a constant with the suffix `ll`.
fn long_long_type(value: u64) -> ConstantType
    ensures { type_seen result ≡ spec.long_long_type value }
{
    if value < 1 << 63 {
        ConstantType::LongLong
    } else {
        ConstantType::UnsignedLongLong
    }
}

/// The type of a constant whose suffix has no `u`, and so many `l`.
fn signed_type(longs: usize, decimal: bool, value: u64) -> ConstantType
    ensures { type_seen result ≡ spec.signed_type longs decimal value }
{
    match longs {
        0 => plain_type(decimal, value),
        1 => long_type(decimal, value),
        _ => long_long_type(value),
    }
}

/// The type of a constant whose suffix has `u`, and so many `l`.
fn unsigned_type(longs: usize, value: u64) -> ConstantType
    ensures { type_seen result ≡ spec.unsigned_type longs value }
{
    match longs {
        0 if value < 1 << 32 => ConstantType::UnsignedInt,
        0 | 1 => ConstantType::UnsignedLong,
        _ => ConstantType::UnsignedLongLong,
    }
}

/// The type of a constant by its suffix and its base: the first of the list of 6.4.4.1p5 that holds the value.
fn type_with_suffix(suffix: &[u8], decimal: bool, value: u64) -> ConstantType
    ensures { type_seen result ≡ spec.type_with_suffix suffix.now decimal value }
{
    let longs = count_of_long(suffix);
    if says_unsigned(suffix) {
        unsigned_type(longs, value)
    } else {
        signed_type(longs, decimal, value)
    }
}

/// What the digits of a constant are worth, at most 2^64.
fn value_of(constant: &[u8]) -> u128
    ensures { result ≡ min (value_of_integer constant.now) (2 ^ 64) }
{
    let radix = radix_of(constant);
    let digits = digits_of(constant);
    value_up_to(radix, &digits[..digit_count(radix, digits)], 1 << 64)
}

/// Whether bytes, read as an integer constant, are worth less than 2^64: the test for `integer_constant`.
pub fn is_in_range(constant: &[u8]) -> bool
    ensures { IsTrue result ↔ (value_of_integer constant.now < 2 ^ 64) }
{
    value_of(constant) < 1 << 64
}

/// The value and the type of an integer constant, from its bytes (C11 6.4.4.1): digits behind `0x` or `0X` are hexadecimal, digits
/// that begin with 0 octal, others decimal, and the type is the first of the standard's list for the suffix and the base that holds
/// the value. A decimal constant without `u` that none of them holds has the type `unsigned long long`. The value is below 2^64,
/// which the tokens of a text keep (`laws::literals_fit`) and `is_in_range` tests.
pub fn integer_constant(constant: &[u8]) -> IntegerConstant
    requires { value_of_integer constant.now < 2 ^ 64 }
    ensures value { result.value ≡ value_of_integer constant.now }
    ensures ty { type_seen result.ty ≡ type_of_integer constant.now }
{
    let radix = radix_of(constant);
    let digits = digits_of(constant);
    let suffix = behind_first(digits, digit_count(radix, digits));
    let value = value_of(constant) as u64;
    IntegerConstant {
        value,
        ty: type_with_suffix(suffix, is_decimal(radix), value),
    }
}
