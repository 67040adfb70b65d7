// Numbers as those of integer types and of bit-fields.

ghost use Rattle.std.specs.Prelude.{◌≡◌, ◌-◌, ◌<◌, ◌≤◌, ◌^◌, length, if◌then◌else◌};
ghost use Rattle.c_types.specs.Table.{type_of};
ghost use Rattle.type_rules.specs.Kinds.{character};
ghost use Rattle.type_rules.specs.Numbers.{half_of};
ghost use Rattle.ref_cells.specs.Numbers.{wrapped, converted, reduced, is_width};

use c_types::table::TypeTable;
use c_types::term::{Term, TypeId};

// Half of the numbers of a size.
fn half_of(size: u8) -> u64
    ensures half { result ≡ half_of size }
    ensures some { 0 < result }
    ensures bounded { result ≤ 2 ^ 63 }
{
    match size {
        1 => 128,
        2 => 32768,
        4 => 2147483648,
        _ => 9223372036854775808,
    }
}

// The number of a range, of which half is given, that differs from a value by whole turns.
fn wrap(signed: bool, half: u64, value: i128) -> i128
    requires some { 0 < half }
    requires bounded { half ≤ 2 ^ 63 }
    ensures { result ≡ wrapped signed half value }
{
    let turn = 2 * i128::from(half);
    let low = value.rem_euclid(turn);
    if !signed || low < i128::from(half) {
        low
    } else {
        low - turn
    }
}

/// A number as one of an integer type (C11 6.3.1.2, 6.3.1.3).
pub fn converted(types: &TypeTable, ty: TypeId, value: i128) -> i128
    requires { ty.0 < length types.now.terms }
    ensures { result ≡ converted (type_of types.now ty.0) value }
{
    match types.term(ty) {
        Term::Bool => { if value == 0 { 0 } else { 1 } }
        Term::Integer { size, signed, .. } => wrap(*signed, half_of(*size), value),
        _ => value,
    }
}

/// A number as a character.
pub fn as_character(value: i128) -> i128
    ensures { result ≡ converted character value }
{
    wrap(true, 128, value)
}

// The number in so many bits that differs by whole turns.
fn reduce(signed: bool, bits: u8, value: i128) -> i128
    ensures { result ≡ (if is_width bits then wrapped signed (2 ^ (bits - 1)) value else value) }
{
    if 0 < bits && bits <= 64 {
        wrap(signed, 1u64 << (bits - 1), value)
    } else {
        value
    }
}

/// A number as it is kept in a bit-field (C11 6.7.2.1p10).
pub fn reduced(types: &TypeTable, ty: TypeId, width: Option<u8>, value: i128) -> i128
    requires { ty.0 < length types.now.terms }
    ensures { result ≡ reduced (type_of types.now ty.0) width value }
{
    match width {
        None => value,
        Some(bits) => match types.term(ty) {
            Term::Integer { signed, .. } => reduce(*signed, bits, value),
            _ => value,
        },
    }
}
