// The operators on numbers of an integer type.

ghost use Rattle.std.specs.Prelude.{◌≡◌, ◌<◌, ◌^◌, pos, ◌*ℤ◌, ◌≤ℤ◌, ◌<ℤ◌, unsigned_abs, IsTrue, IfOk};
ghost use Rattle.c_consts.specs.Wrapped.{IsHeld};
ghost use Rattle.c_consts.specs.Operators.{step_at, unary, binary, is_count, Operand, Operands};
ghost use Rattle.core_tree.specs.declared.node.Op.TheVariants.{Multiply, Divide, Remainder, ShiftLeft, ShiftRight};

use crate::fault::ConstFault;
use crate::numbers::{Numbers, truth};
use core_tree::node::Op;

/// An operator with one operand (C11 6.5.3.3), at the node of that number.
pub(crate) fn unary(numbers: Numbers, at: u32, op: Op, x: i128) -> Result<i128, ConstFault>
    requires { Operand op numbers.signed numbers.half x }
    ensures value { result ≡ step_at at (unary op numbers.signed numbers.half x) }
    ensures held { IfOk result (λ v. IsHeld numbers.signed numbers.half v) }
{
    match op {
        Op::Plus => Ok(x),
        Op::Minus => numbers.settle(at, -x),
        Op::Complement => numbers.settle(at, -x - 1),
        Op::Not => Ok(truth(x == 0)),
        Op::Multiply => Err(ConstFault::NotConstant(at)),
        Op::Divide => Err(ConstFault::NotConstant(at)),
        Op::Remainder => Err(ConstFault::NotConstant(at)),
        Op::ShiftLeft => Err(ConstFault::NotConstant(at)),
        Op::ShiftRight => Err(ConstFault::NotConstant(at)),
        Op::Less => Err(ConstFault::NotConstant(at)),
        Op::Greater => Err(ConstFault::NotConstant(at)),
        Op::LessEqual => Err(ConstFault::NotConstant(at)),
        Op::GreaterEqual => Err(ConstFault::NotConstant(at)),
        Op::Equal => Err(ConstFault::NotConstant(at)),
        Op::NotEqual => Err(ConstFault::NotConstant(at)),
        Op::And => Err(ConstFault::NotConstant(at)),
        Op::Xor => Err(ConstFault::NotConstant(at)),
        Op::Or => Err(ConstFault::NotConstant(at)),
    }
}

// A product (C11 6.5.5).
fn multiplied(numbers: Numbers, at: u32, x: i128, y: i128) -> Result<i128, ConstFault>
    requires left { IsHeld numbers.signed numbers.half x }
    requires right { IsHeld numbers.signed numbers.half y }
    ensures value { result ≡ step_at at (binary Multiply numbers.signed numbers.half numbers.width x y) }
    ensures held { IfOk result (λ v. IsHeld numbers.signed numbers.half v) }
{
    if numbers.signed {
        return numbers.settle(at, x * y);
    }
    let turn = 2 * u128::from(numbers.half);
    let product = x as u128 * y as u128;
    Ok((product % turn) as i128)
}

// A quotient, rounded toward zero (C11 6.5.5).
fn divided(numbers: Numbers, at: u32, x: i128, y: i128) -> Result<i128, ConstFault>
    requires left { IsHeld numbers.signed numbers.half x }
    requires right { IsHeld numbers.signed numbers.half y }
    ensures value { result ≡ step_at at (binary Divide numbers.signed numbers.half numbers.width x y) }
    ensures held { IfOk result (λ v. IsHeld numbers.signed numbers.half v) }
{
    if y == 0 {
        return Err(ConstFault::DivideByZero(at));
    }
    numbers.settle(at, x / y)
}

// The remainder of such a quotient (C11 6.5.5).
fn remainder(numbers: Numbers, at: u32, x: i128, y: i128) -> Result<i128, ConstFault>
    requires left { IsHeld numbers.signed numbers.half x }
    requires right { IsHeld numbers.signed numbers.half y }
    ensures value { result ≡ step_at at (binary Remainder numbers.signed numbers.half numbers.width x y) }
    ensures held { IfOk result (λ v. IsHeld numbers.signed numbers.half v) }
{
    if y == 0 {
        return Err(ConstFault::DivideByZero(at));
    }
    numbers.settle(at, x % y)
}

// Whether a number may be shifted by so many bits (C11 6.5.7).
fn is_count(numbers: Numbers, count: i128) -> bool
    ensures value { result ≡ is_count numbers.width count }
    ensures from { IsTrue result → pos 0 ≤ℤ count }
    ensures below { IsTrue result → count <ℤ pos 64 }
{
    0 <= count && count < i128::from(numbers.width)
}

// A power of two.
fn power(count: i128) -> i128
    requires from { pos 0 ≤ℤ count }
    requires below { count <ℤ pos 64 }
    ensures value { result ≡ pos (2 ^ unsigned_abs count) }
    ensures bound { result ≤ℤ pos (2 ^ 63) }
{
    (1u64 << count as u32) as i128
}

// The product of a number with a power of two.
fn scaled(numbers: Numbers, x: i128, count: i128) -> i128
    requires held { IsHeld numbers.signed numbers.half x }
    requires from { pos 0 ≤ℤ count }
    requires below { count <ℤ pos 64 }
    ensures { result ≡ x *ℤ pos (2 ^ unsigned_abs count) }
{
    x * power(count)
}

// A number shifted to the left: its product with a power of two (C11 6.5.7).
fn shifted_left(numbers: Numbers, at: u32, x: i128, count: i128) -> Result<i128, ConstFault>
    requires { IsHeld numbers.signed numbers.half x }
    ensures value { result ≡ step_at at (binary ShiftLeft numbers.signed numbers.half numbers.width x count) }
    ensures held { IfOk result (λ v. IsHeld numbers.signed numbers.half v) }
{
    if !is_count(numbers, count) {
        return Err(ConstFault::Range(at));
    }
    numbers.settle(at, scaled(numbers, x, count))
}

// A number shifted to the right: the greatest number not above its quotient by a power of two (C11 6.5.7).
fn shifted_right(numbers: Numbers, at: u32, x: i128, count: i128) -> Result<i128, ConstFault>
    requires { IsHeld numbers.signed numbers.half x }
    ensures value { result ≡ step_at at (binary ShiftRight numbers.signed numbers.half numbers.width x count) }
    ensures held { IfOk result (λ v. IsHeld numbers.signed numbers.half v) }
{
    if !is_count(numbers, count) {
        return Err(ConstFault::Range(at));
    }
    numbers.settle(at, x >> count as u32)
}

/// An operator with two operands (C11 6.5.5 to 6.5.12), at the node of that number.
pub(crate) fn binary(
    numbers: Numbers,
    at: u32,
    op: Op,
    x: i128,
    y: i128,
) -> Result<i128, ConstFault>
    requires { Operands op numbers.signed numbers.half x y }
    ensures value { result ≡ step_at at (binary op numbers.signed numbers.half numbers.width x y) }
    ensures held { IfOk result (λ v. IsHeld numbers.signed numbers.half v) }
{
    match op {
        Op::Multiply => multiplied(numbers, at, x, y),
        Op::Divide => divided(numbers, at, x, y),
        Op::Remainder => remainder(numbers, at, x, y),
        Op::Plus => numbers.settle(at, x + y),
        Op::Minus => numbers.settle(at, x - y),
        Op::ShiftLeft => shifted_left(numbers, at, x, y),
        Op::ShiftRight => shifted_right(numbers, at, x, y),
        Op::Less => Ok(truth(x < y)),
        Op::Greater => Ok(truth(x > y)),
        Op::LessEqual => Ok(truth(x <= y)),
        Op::GreaterEqual => Ok(truth(x >= y)),
        Op::Equal => Ok(truth(x == y)),
        Op::NotEqual => Ok(truth(x != y)),
        Op::And => Ok(numbers.wrap(i128::from(numbers.bits(x) & numbers.bits(y)))),
        Op::Xor => Ok(numbers.wrap(i128::from(numbers.bits(x) ^ numbers.bits(y)))),
        Op::Or => Ok(numbers.wrap(i128::from(numbers.bits(x) | numbers.bits(y)))),
        Op::Complement => Err(ConstFault::NotConstant(at)),
        Op::Not => Err(ConstFault::NotConstant(at)),
    }
}
