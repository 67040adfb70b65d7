// The numbers of the integer types.

ghost use Rattle.std.specs.Prelude.{◌≡◌, ℕ, ◌<◌, ◌≤◌, ◌^◌, ◌*◌, ℤ, pos, IfOk};
ghost use Rattle.c_types.specs.Trees.{IntegerType};
ghost use Rattle.core_tree.specs.Typed.{half_of, Holds, IsInteger};
ghost use Rattle.c_consts.specs.Wrapped.{wrapped, converted, truth, type_alone, width_of, IsHeld};
ghost use Rattle.c_consts.specs.Operators.{step_at, in_type, bits_of};

use crate::fault::ConstFault;
use c_types::term::Term;

/// The numbers of an integer type that isn't `_Bool`: half of their count, their bits and whether they are signed.
#[derive(Clone, Copy)]
pub(crate) struct Numbers {
    pub(crate) half: u64,
    pub(crate) width: u8,
    pub(crate) signed: bool,
    ghost some: { 128 ≤ half },
    ghost bounded: { half ≤ 2 ^ 63 },
    ghost narrow: { width ≤ 64 },
}

impl Numbers {
    /// The numbers of an integer type of a size in bytes.
    pub(crate) fn of(size: u8, signed: bool) -> Numbers
        ensures half { result.half ≡ half_of size }
        ensures width { result.width ≡ width_of size }
        ensures signed { result.signed ≡ signed }
    {
        let (half, width) = match size {
            1 => (128, 8),
            2 => (32768, 16),
            4 => (2147483648, 32),
            _ => (9223372036854775808, 64),
        };
        Numbers {
            half,
            width,
            signed,
        }
    }

    /// The number of the type that differs from a value by whole turns of the range.
    pub(crate) fn wrap(self, value: i128) -> i128
        ensures value { result ≡ wrapped self.signed self.half value }
        ensures held { IsHeld self.signed self.half result }
    {
        let turn = 2 * i128::from(self.half);
        let low = value.rem_euclid(turn);
        if !self.signed || low < i128::from(self.half) {
            low
        } else {
            low - turn
        }
    }

    /// The bits of a value as a number from 0 on.
    pub(crate) fn bits(self, value: i128) -> u64
        ensures { result ≡ bits_of self.half value }
    {
        let turn = 2 * i128::from(self.half);
        value.rem_euclid(turn) as u64
    }

    /// A result in the type: an unsigned one wraps, and a signed one out of range is a fault at the node of that number.
    pub(crate) fn settle(self, at: u32, value: i128) -> Result<i128, ConstFault>
        ensures value { result ≡ step_at at (in_type self.signed self.half value) }
        ensures held { IfOk result (λ v. IsHeld self.signed self.half v) }
    {
        let half = i128::from(self.half);
        if !self.signed {
            Ok(self.wrap(value))
        } else if -half <= value && value < half {
            Ok(value)
        } else {
            Err(ConstFault::Range(at))
        }
    }
}

/// 1 for true and 0 for false.
pub(crate) fn truth(holds: bool) -> i128
    ensures { result ≡ truth holds }
{
    if holds { 1 } else { 0 }
}

/// A number as one of an integer type (C11 6.3.1.2, 6.3.1.3): whether it isn't 0 in `_Bool`, and else the number of the
/// type that differs from it by whole turns of the type's range.
pub fn converted(value: i128, to: &Term) -> i128
    requires { IsInteger (type_alone to.now) }
    ensures value { result ≡ converted (type_alone to.now) value }
    ensures holds { Holds (type_alone to.now) result }
{
    match to {
        Term::Bool => { if value == 0 { 0 } else { 1 } }
        Term::Integer { size, signed, .. } => Numbers::of(*size, *signed).wrap(value),
        _ => value,
    }
}

/// A value of one integer type as one of another (C11 6.3.1.2, 6.3.1.3). Both terms are integer types, and the first
/// holds the value.
pub fn convert(value: i128, from: Term, to: Term) -> i128
    requires from { Holds (type_alone from) value }
    requires to { IsInteger (type_alone to) }
    ensures value { result ≡ converted (type_alone to) value }
    ensures holds { Holds (type_alone to) result }
{
    converted(value, &to)
}
