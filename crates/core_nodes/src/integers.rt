// Promotions and usual conversions of integers (C11 6.3.1.1, 6.3.1.8).
#![tactic(auto, using(crate::proofs::IntegerTypes::integers))]

ghost use Rattle.std.specs.Prelude.{◌≡◌, ◌<◌, length, IsOkUnless, IfOk, IfSome, MatchOption, MatchBool, Bool, false, IsTrue, ℕ};
ghost use Rattle.c_types.specs.Trees.{Ctype, IntegerType};
ghost use Rattle.c_types.specs.Table.{type_of};
ghost use Rattle.c_types.specs.Made.{is_integer_size};
ghost use Rattle.core_tree.specs.Rows.{int};
ghost use Rattle.c_senses.specs.Given.{Fits};
ghost use Rattle.c_senses.specs.World.{World};
ghost use Rattle.c_senses.specs.Conversions.{promotion as promotion_of, made, common, promoted};
ghost use Rattle.c_senses.specs.Operators as spec;
ghost use Rattle.core_nodes.specs.Standing.{core_at, IsReady, Builds, Made, TypeMade, BothMade, Knows};
ghost use Rattle.core_nodes.specs.Sorts.{integer_seen, chosen_type, PairMade, IsPairWithin};

use crate::CheckFault;
use crate::reads::type_of_node;
use crate::trees::{add_type, int_type, push_over_two};
use crate::values::as_type;
use crate::widths::is_narrow;
use c_types::table::TypeTable;
use c_types::term::{Term, TypeId};
use core_tree::node::{NodeKind, Op, Unit};
use pta_base::Place;
use std::alloc::Global;

/// An integer type: its size in bytes, its rank, and whether it is signed.
#[derive(Clone, Copy, Debug, PartialEq, Eq)]
pub struct Integer {
    pub size: u8,
    pub rank: u8,
    pub signed: bool,
}

/// Which of two types two integers are converted to: the left one, the right one, or the unsigned one of the rank of the
/// left or the right one.
#[derive(Clone, Copy, Debug, PartialEq, Eq)]
enum Common {
    Left,
    Right,
    UnsignedLeft,
    UnsignedRight,
}

// The integer type of that number.
fn integer_of(types: &TypeTable, ty: TypeId) -> Option<Integer>
    requires { ty.0 < length types.now.terms }
    ensures form { MatchOption result
        ((size rank : ℕ) (signed : Bool) → type_of types.now ty.0 ≡ IntegerType size rank signed → ⊥)
        (λ i. type_of types.now ty.0 ≡ integer_seen i) }
    ensures size { IfSome result (λ i. IsTrue (is_integer_size i.size)) }
{
    let _count = types.type_count();
    match types.term(ty) {
        Term::Integer { size, rank, signed } => Some(Integer {
            size: *size,
            rank: *rank,
            signed: *signed,
        }),
        _ => None,
    }
}

// Whether a type is promoted to int, where a value of it is read from a bit-field of fewer bits or not.
fn promotes_to_int(types: &TypeTable, ty: TypeId, narrow: bool) -> bool
    requires { ty.0 < length types.now.terms }
    ensures { MatchBool result (promoted (type_of types.now ty.0) narrow ≡ int)
        (promoted (type_of types.now ty.0) narrow ≡ type_of types.now ty.0) }
{
    match types.term(ty) {
        Term::Bool => true,
        Term::Integer { size, signed, .. } => *size < 4 || (*size == 4 && (!*signed && narrow)),
        _ => false,
    }
}

/// A value, promoted where it is an integer.
pub fn promotion(alloc: Global, unit: &mut Unit, node: u32) -> Result<u32, CheckFault>
    requires ready { IsReady unit.old }
    requires node { node < length unit.old.nodes.items }
    ensures ready { IsReady unit.new }
    ensures builds { Builds unit.old unit.new }
    ensures memory { IsOkUnless result CheckFault.OutOfMemory }
    ensures within { IfOk result (λ i. i < length unit.new.nodes.items) }
    ensures made { (w : World) → Knows w unit.old → Made unit.new result (Fits (promotion_of w (core_at unit.old node))) }
{
    let ty = type_of_node(unit, node);
    let narrow = is_narrow(unit, node);
    if !promotes_to_int(&unit.types, ty, narrow) {
        return Ok(node);
    }
    let int = int_type(unit)?;
    as_type(alloc, unit, int, node)
}

// Which type two integers have in common.
fn common_choice(a: Integer, b: Integer) -> Common
    ensures { chosen_type a b result ≡ common (integer_seen a) (integer_seen b) }
{
    if a.signed == b.signed {
        return if a.rank < b.rank {
            Common::Right
        } else {
            Common::Left
        };
    }
    if b.signed {
        if a.rank >= b.rank {
            Common::Left
        } else if a.size < b.size {
            Common::Right
        } else {
            Common::UnsignedRight
        }
    } else if b.rank >= a.rank {
        Common::Right
    } else if b.size < a.size {
        Common::Left
    } else {
        Common::UnsignedLeft
    }
}

// An unsigned type.
fn unsigned_type(unit: &mut Unit, i: Integer) -> Result<TypeId, CheckFault>
    requires ready { IsReady unit.old }
    requires size { IsTrue (is_integer_size i.size) }
    ensures ready { IsReady unit.new }
    ensures builds { Builds unit.old unit.new }
    ensures made { TypeMade unit.new result (IntegerType i.size i.rank false) }
    ensures within { IfOk result (λ id. id.0 < length unit.new.types.terms) }
{
    add_type(
        unit,
        Term::Integer {
            size: i.size,
            rank: i.rank,
            signed: false,
        },
    )
}

// The type that two promoted integers have in common.
fn common_type(unit: &mut Unit, a: TypeId, b: TypeId) -> Result<TypeId, CheckFault>
    requires ready { IsReady unit.old }
    requires a { a.0 < length unit.old.types.terms }
    requires b { b.0 < length unit.old.types.terms }
    ensures ready { IsReady unit.new }
    ensures builds { Builds unit.old unit.new }
    ensures made { TypeMade unit.new result (common (type_of unit.old.types a.0) (type_of unit.old.types b.0)) }
    ensures within { IfOk result (λ id. id.0 < length unit.new.types.terms) }
{
    let Some(left) = integer_of(&unit.types, a) else {
        return Ok(a);
    };
    let Some(right) = integer_of(&unit.types, b) else {
        return Ok(a);
    };
    match common_choice(left, right) {
        Common::Left => Ok(a),
        Common::Right => Ok(b),
        Common::UnsignedLeft => unsigned_type(unit, left),
        Common::UnsignedRight => unsigned_type(unit, right),
    }
}

/// Two nodes, and a type.
#[derive(Clone, Copy, Debug, PartialEq, Eq)]
pub struct Pair {
    pub left: u32,
    pub right: u32,
    pub ty: TypeId,
}

// Two values, promoted where they are integers.
fn promoted_both(alloc: Global, unit: &mut Unit, a: u32, b: u32) -> Result<(u32, u32), CheckFault>
    requires ready { IsReady unit.old }
    requires a { a < length unit.old.nodes.items }
    requires b { b < length unit.old.nodes.items }
    ensures ready { IsReady unit.new }
    ensures builds { Builds unit.old unit.new }
    ensures memory { IsOkUnless result CheckFault.OutOfMemory }
    ensures made { (w : World) →
        Knows w unit.old → BothMade unit.new result (promotion_of w (core_at unit.old a)) (promotion_of w (core_at unit.old b)) }
    ensures within { IfOk result (λ both. (both.0 < length unit.new.nodes.items) × (both.1 < length unit.new.nodes.items)) }
{
    let left = promotion(alloc, unit, a)?;
    let right = promotion(alloc, unit, b)?;
    Ok((left, right))
}

// Two values as values of one type.
fn both_as_type(
    alloc: Global,
    unit: &mut Unit,
    ty: TypeId,
    a: u32,
    b: u32,
) -> Result<(u32, u32), CheckFault>
    requires ready { IsReady unit.old }
    requires ty { ty.0 < length unit.old.types.terms }
    requires a { a < length unit.old.nodes.items }
    requires b { b < length unit.old.nodes.items }
    ensures ready { IsReady unit.new }
    ensures builds { Builds unit.old unit.new }
    ensures made { BothMade unit.new result
        (made (type_of unit.old.types ty.0) (core_at unit.old a)) (made (type_of unit.old.types ty.0) (core_at unit.old b)) }
    ensures within { IfOk result (λ both. (both.0 < length unit.new.nodes.items) × (both.1 < length unit.new.nodes.items)) }
{
    let first = as_type(alloc, unit, ty, a)?;
    let second = as_type(alloc, unit, ty, b)?;
    Ok((first, second))
}

/// Two integers, promoted and converted to their common type.
pub fn in_common(alloc: Global, unit: &mut Unit, a: u32, b: u32) -> Result<Pair, CheckFault>
    requires ready { IsReady unit.old }
    requires a { a < length unit.old.nodes.items }
    requires b { b < length unit.old.nodes.items }
    ensures ready { IsReady unit.new }
    ensures builds { Builds unit.old unit.new }
    ensures memory { IsOkUnless result CheckFault.OutOfMemory }
    ensures made { (w : World) → Knows w unit.old → PairMade w unit.new result (core_at unit.old a) (core_at unit.old b) }
    ensures within { IfOk result (λ pair. IsPairWithin unit.new pair) }
{
    let (left, right) = promoted_both(alloc, unit, a, b)?;
    let left_type = type_of_node(unit, left);
    let right_type = type_of_node(unit, right);
    let ty = common_type(unit, left_type, right_type)?;
    let (left, right) = both_as_type(alloc, unit, ty, left, right)?;
    Ok(Pair { left, right, ty })
}

/// Two integers under an operator: both are promoted and converted to their common type, which is the operator's.
pub fn arithmetic(
    alloc: Global,
    unit: &mut Unit,
    op: Op,
    place: Place,
    a: u32,
    b: u32,
) -> Result<u32, CheckFault>
    requires ready { IsReady unit.old }
    requires a { a < length unit.old.nodes.items }
    requires b { b < length unit.old.nodes.items }
    ensures ready { IsReady unit.new }
    ensures builds { Builds unit.old unit.new }
    ensures memory { IsOkUnless result CheckFault.OutOfMemory }
    ensures within { IfOk result (λ i. i < length unit.new.nodes.items) }
    ensures made { (w : World) →
        Knows w unit.old → Made unit.new result (Fits (spec.arithmetic w op place (core_at unit.old a) (core_at unit.old b))) }
{
    let pair = in_common(alloc, unit, a, b)?;
    push_over_two(
        alloc,
        unit,
        NodeKind::Arith(op),
        place,
        pair.ty,
        pair.left,
        pair.right,
    )
}

/// Two integers that are compared: both are promoted and converted to their common type, and the result is an int.
pub fn comparison(
    alloc: Global,
    unit: &mut Unit,
    op: Op,
    place: Place,
    a: u32,
    b: u32,
) -> Result<u32, CheckFault>
    requires ready { IsReady unit.old }
    requires a { a < length unit.old.nodes.items }
    requires b { b < length unit.old.nodes.items }
    ensures ready { IsReady unit.new }
    ensures builds { Builds unit.old unit.new }
    ensures memory { IsOkUnless result CheckFault.OutOfMemory }
    ensures within { IfOk result (λ i. i < length unit.new.nodes.items) }
    ensures made { (w : World) →
        Knows w unit.old → Made unit.new result (Fits (spec.comparison w op place (core_at unit.old a) (core_at unit.old b))) }
{
    let pair = in_common(alloc, unit, a, b)?;
    compared(alloc, unit, op, place, pair.left, pair.right)
}

/// Two values that are compared as they are: the result is an int.
pub fn compared(
    alloc: Global,
    unit: &mut Unit,
    op: Op,
    place: Place,
    a: u32,
    b: u32,
) -> Result<u32, CheckFault>
    requires ready { IsReady unit.old }
    requires a { a < length unit.old.nodes.items }
    requires b { b < length unit.old.nodes.items }
    ensures ready { IsReady unit.new }
    ensures builds { Builds unit.old unit.new }
    ensures within { IfOk result (λ i. i < length unit.new.nodes.items) }
    ensures made { Made unit.new result (Fits (spec.compared op place (core_at unit.old a) (core_at unit.old b))) }
{
    let int = int_type(unit)?;
    push_over_two(alloc, unit, NodeKind::Arith(op), place, int, a, b)
}

/// A shift: each operand is promoted by itself.
pub fn shifted(
    alloc: Global,
    unit: &mut Unit,
    op: Op,
    place: Place,
    a: u32,
    b: u32,
) -> Result<u32, CheckFault>
    requires ready { IsReady unit.old }
    requires a { a < length unit.old.nodes.items }
    requires b { b < length unit.old.nodes.items }
    ensures ready { IsReady unit.new }
    ensures builds { Builds unit.old unit.new }
    ensures memory { IsOkUnless result CheckFault.OutOfMemory }
    ensures within { IfOk result (λ i. i < length unit.new.nodes.items) }
    ensures made { (w : World) →
        Knows w unit.old → Made unit.new result (Fits (spec.shifted w op place (core_at unit.old a) (core_at unit.old b))) }
{
    let (left, right) = promoted_both(alloc, unit, a, b)?;
    let ty = type_of_node(unit, left);
    push_over_two(alloc, unit, NodeKind::Arith(op), place, ty, left, right)
}
