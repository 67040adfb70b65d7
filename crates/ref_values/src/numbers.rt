// What an operator makes of numbers.

ghost use Rattle.std.specs.Prelude.{◌≡◌, ◌<◌, ◌||◌, ℕ, Bool, true, false, length};
ghost use Rattle.type_rules.specs.Numbers.{half_of};
ghost use Rattle.c_consts.specs.Wrapped.{IsHeld};
ghost use Rattle.c_consts.specs.Operators.{Operands};
ghost use Rattle.c_types.specs.Trees.{IntegerType};
ghost use Rattle.c_types.specs.Table.{type_of};
ghost use Rattle.ref_cells.specs.Numbers.{converted};
ghost use Rattle.ref_values.specs.Numbers.{type_of_numbers, compares, shifts, left_operand, right_operand, two_in};
ghost use Rattle.ref_values.specs.Numbers.{over_one, over_two, promoted, common_integers, common, update_type, is_narrow};

use crate::ranges::{Range, binary, unary};
use c_types::table::TypeTable;
use c_types::term::{Term, TypeId};
use core_tree::Op;
use ref_cells::cells::Reason;

/// The numbers of an integer type: those of `_Bool`, or of a type of so many bytes, with its rank and whether it is signed.
#[derive(Clone, Copy, Debug, PartialEq, Eq)]
pub enum Numbers {
    Truths,
    Wholes { size: u8, rank: u8, signed: bool },
}

const INT: Numbers = Numbers::Wholes {
    size: 4,
    rank: 4,
    signed: true,
};

/// A number as one of these.
pub fn converted_to(numbers: Numbers, value: i128) -> i128
    ensures { result ≡ converted (type_of_numbers numbers) value }
{
    match numbers {
        Numbers::Truths => { if value == 0 { 0 } else { 1 } }
        Numbers::Wholes { size, signed, .. } => Range::of(size, signed).wrap(value),
    }
}

/// Whether an operator compares.
pub fn compares(op: Op) -> bool
    ensures { result ≡ compares op }
{
    matches!(
        op,
        Op::Less | Op::Greater | Op::LessEqual | Op::GreaterEqual | Op::Equal | Op::NotEqual
    )
}

// Whether an operator shifts.
fn shifts(op: Op) -> bool
    ensures { result ≡ shifts op }
{
    matches!(op, Op::ShiftLeft | Op::ShiftRight)
}

// An operator over two numbers as they are.
fn two_in(op: Op, size: u8, signed: bool, x: i128, y: i128) -> Result<i128, Reason>
    requires { Operands op signed (half_of size) x y }
    ensures { result ≡ two_in op size signed x y }
{
    if let Op::ShiftLeft = op {
        if x < 0 {
            return Err(Reason::Overflow);
        }
    }
    binary(Range::of(size, signed), op, x, y)
}

// The left operand as it is computed with.
fn left_operand(op: Op, size: u8, rank: u8, signed: bool, x: i128) -> i128
    ensures value { result ≡ left_operand op (IntegerType size rank signed) x }
    ensures held { compares op ≡ false → IsHeld signed (half_of size) result }
{
    let _ = rank;
    if compares(op) {
        x
    } else {
        Range::of(size, signed).wrap(x)
    }
}

// The right one.
fn right_operand(op: Op, size: u8, rank: u8, signed: bool, y: i128) -> i128
    ensures value { result ≡ right_operand op (IntegerType size rank signed) y }
    ensures held { compares op || shifts op ≡ false → IsHeld signed (half_of size) result }
{
    let _ = rank;
    if compares(op) || shifts(op) {
        y
    } else {
        Range::of(size, signed).wrap(y)
    }
}

/// An operator over two numbers, of which the left one is of such a type.
pub fn over_two(op: Op, numbers: Numbers, x: i128, y: i128) -> Result<i128, Reason>
    ensures { result ≡ over_two op (type_of_numbers numbers) x y }
{
    match numbers {
        Numbers::Truths => Err(Reason::Mismatch),
        Numbers::Wholes { size, rank, signed } => {
            let x = left_operand(op, size, rank, signed, x);
            let y = right_operand(op, size, rank, signed, y);
            two_in(op, size, signed, x, y)
        }
    }
}

/// An operator over one number of such a type.
pub fn over_one(op: Op, numbers: Numbers, x: i128) -> Result<i128, Reason>
    ensures { result ≡ over_one op (type_of_numbers numbers) x }
{
    match numbers {
        Numbers::Truths => Err(Reason::Mismatch),
        Numbers::Wholes { size, signed, .. } => {
            let range = Range::of(size, signed);
            unary(range, op, range.wrap(x))
        }
    }
}

/// What an integer is promoted to, where it is read from a place of that width.
pub fn promoted(numbers: Numbers, bits: Option<u8>) -> Numbers
    ensures { type_of_numbers result ≡ promoted (type_of_numbers numbers) (is_narrow bits) }
{
    let narrow = match bits {
        Some(bits) => bits < 32,
        None => false,
    };
    match numbers {
        Numbers::Truths => INT,
        Numbers::Wholes { size, signed, .. } => {
            if size < 4 || (size == 4 && !signed && narrow) {
                INT
            } else {
                numbers
            }
        }
    }
}

// The common type of a signed and an unsigned type.
fn mixed(size: u8, rank: u8, other: u8, r: u8) -> Numbers
    ensures left { type_of_numbers result ≡ common_integers size rank true other r false }
    ensures right { type_of_numbers result ≡ common_integers other r false size rank true }
{
    if r < rank {
        Numbers::Wholes {
            size,
            rank,
            signed: other < size,
        }
    } else {
        Numbers::Wholes {
            size: other,
            rank: r,
            signed: false,
        }
    }
}

// The common type of two types of one sign.
fn greater(signed: bool, size: u8, rank: u8, other: u8, r: u8) -> Numbers
    ensures { type_of_numbers result ≡ common_integers size rank signed other r signed }
{
    if rank < r {
        Numbers::Wholes {
            size: other,
            rank: r,
            signed,
        }
    } else {
        Numbers::Wholes { size, rank, signed }
    }
}

// The common type of two integer types.
fn common_integers(size: u8, rank: u8, signed: bool, other: u8, r: u8, sign: bool) -> Numbers
    ensures { type_of_numbers result ≡ common_integers size rank signed other r sign }
{
    match (signed, sign) {
        (true, true) => greater(true, size, rank, other, r),
        (false, false) => greater(false, size, rank, other, r),
        (true, false) => mixed(size, rank, other, r),
        (false, true) => mixed(other, r, size, rank),
    }
}

/// The common type of two promoted integers.
pub fn common(a: Numbers, b: Numbers) -> Numbers
    ensures { type_of_numbers result ≡ common (type_of_numbers a) (type_of_numbers b) }
{
    match a {
        Numbers::Truths => a,
        Numbers::Wholes { size, rank, signed } => match b {
            Numbers::Truths => a,
            Numbers::Wholes {
                size: other,
                rank: r,
                signed: sign,
            } => common_integers(size, rank, signed, other, r, sign),
        },
    }
}

// The common type of a promoted integer and a value of a type.
fn common_with(types: &TypeTable, a: Numbers, ty: TypeId) -> Numbers
    requires { ty.0 < length types.now.terms }
    ensures { type_of_numbers result ≡ common (type_of_numbers a) (type_of types.now ty.0) }
{
    match types.term(ty) {
        Term::Integer { size, rank, signed } => common(
            a,
            Numbers::Wholes {
                size: *size,
                rank: *rank,
                signed: *signed,
            },
        ),
        Term::Void | Term::Bool | Term::Floating | Term::VaList | Term::Pointer(_) => a,
        Term::Array { .. } | Term::Function { .. } | Term::Structure(_) | Term::Union(_) => a,
    }
}

/// The type in which `p op= v` computes, for a value of that type.
pub fn update_type(types: &TypeTable, op: Op, place: Numbers, value_type: TypeId) -> Numbers
    requires { value_type.0 < length types.now.terms }
    ensures { type_of_numbers result ≡ update_type op (type_of_numbers place) (type_of types.now value_type.0) }
{
    if shifts(op) {
        place
    } else {
        common_with(types, place, value_type)
    }
}
