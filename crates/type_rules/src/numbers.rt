// The numbers that a type holds (C11 6.2.6.2), with two's complement.

ghost use Rattle.std.specs.Prelude.{◌≡◌, ℕ, ◌<◌, ◌↔◌, IsTrue, length};
ghost use Rattle.c_types.specs.Table.{type_of};
ghost use Rattle.type_rules.specs.Numbers.{half_of, InSigned, InUnsigned, Holds};

use c_types::table::TypeTable;
use c_types::term::{Term, TypeId};

// Half of the numbers of a size.
fn half_of(size: u8) -> u64
    ensures { result ≡ half_of size }
{
    match size {
        1 => 128,
        2 => 32768,
        4 => 2147483648,
        _ => 9223372036854775808,
    }
}

// Whether a number is in the range of a signed type.
fn in_signed(half: u64, n: i128) -> bool
    ensures { IsTrue result ↔ InSigned half n }
{
    let half = i128::from(half);
    -half <= n && n < half
}

// Whether a number is in the range of an unsigned type.
fn in_unsigned(half: u64, n: i128) -> bool
    ensures { IsTrue result ↔ InUnsigned half n }
{
    0 <= n && n < 2 * i128::from(half)
}

/// Whether a type holds a number. Only integer types hold any.
pub fn holds(types: &TypeTable, id: TypeId, n: i128) -> bool
    requires { id.0 < length types.now.terms }
    ensures { IsTrue result ↔ Holds (type_of types.now id.0) n }
{
    match types.term(id) {
        Term::Bool => 0 <= n && n <= 1,
        Term::Integer {
            size,
            signed: true,
            ..
        } => in_signed(half_of(*size), n),
        Term::Integer {
            size,
            signed: false,
            ..
        } => in_unsigned(half_of(*size), n),
        _ => false,
    }
}
