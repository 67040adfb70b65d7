// Sorts of types.
ghost use Rattle.std.specs.Prelude.{◌≡◌, ◌<◌, length, IfSome, MatchOption, Some, None, Bool, IsTrue, ◌↔◌};
ghost use Rattle.c_types.specs.Trees.{PointerTo};
ghost use Rattle.c_types.specs.Table.{type_of};
ghost use Rattle.core_tree.specs.Typed.{decayed};
ghost use Rattle.c_senses.specs.World.{World, same_type, has_size};
ghost use Rattle.c_senses.specs.Conversions.{operand_of, is_scalar, is_fetched, is_list};
ghost use Rattle.core_nodes.specs.Sorts.{sort_seen, IsWithin, DecaysTo};
ghost use Rattle.core_nodes.specs.Standing.{Knows};

use c_types::table::TypeTable;
use c_types::term::{Term, TypeId};
use core_tree::node::Unit;

/// What operators tell apart of a type: whole numbers, pointers to a type, structures and unions by their tag, and others.
#[derive(Clone, Copy, Debug, PartialEq, Eq)]
pub enum Operand {
    Whole,
    Address(TypeId),
    Aggregate(u32),
    Other,
}

/// The sort of a type.
pub fn operand_of(types: &TypeTable, ty: TypeId) -> Operand
    requires { ty.0 < length types.now.terms }
    ensures sort { sort_seen types.now result ≡ operand_of (type_of types.now ty.0) }
    ensures within { IsWithin types.now result }
{
    match types.term(ty) {
        Term::Bool | Term::Integer { .. } => Operand::Whole,
        Term::Pointer(to) => Operand::Address(*to),
        Term::Structure(tag) | Term::Union(tag) => Operand::Aggregate(*tag),
        _ => Operand::Other,
    }
}

/// Whether a sort is one of scalars.
pub fn is_scalar(types: &TypeTable, sort: Operand) -> bool
    ensures { result ≡ is_scalar (sort_seen types.now sort) }
{
    match sort {
        Operand::Whole => true,
        Operand::Address(_) => true,
        Operand::Aggregate(_) => false,
        Operand::Other => false,
    }
}

/// Whether a place of that sort is fetched.
pub fn is_fetched(unit: &Unit, sort: Operand) -> bool
    requires { IsWithin unit.now.types sort }
    ensures { (w : World) → Knows w unit.now → result ≡ is_fetched w (sort_seen unit.now.types sort) }
{
    match sort {
        Operand::Whole => true,
        Operand::Address(_) => true,
        Operand::Aggregate(tag) => unit.types.members(tag).is_some(),
        Operand::Other => false,
    }
}

/// Whether a type is that of variadic lists (C11 7.16p3).
pub fn is_list(types: &TypeTable, ty: TypeId) -> bool
    requires { ty.0 < length types.now.terms }
    ensures { result ≡ is_list (type_of types.now ty.0) }
{
    match types.term(ty) {
        Term::VaList => true,
        _ => false,
    }
}

/// The type to which the value of an array or a function points.
pub fn decayed(types: &TypeTable, ty: TypeId) -> Option<TypeId>
    requires { ty.0 < length types.now.terms }
    ensures target { DecaysTo types.now (decayed (type_of types.now ty.0)) result }
    ensures within { IfSome result (λ to. to.0 < length types.now.terms) }
{
    match types.term(ty) {
        Term::Array { of, .. } => Some(*of),
        Term::Function { .. } => Some(ty),
        _ => None,
    }
}

/// Whether two types are one.
pub fn same_types(types: &TypeTable, a: TypeId, b: TypeId) -> bool
    requires a { a.0 < length types.now.terms }
    requires b { b.0 < length types.now.terms }
    ensures { result ≡ same_type (type_of types.now a.0) (type_of types.now b.0) }
{
    types.same(a, b)
}

/// Whether a type is complete: it has a size.
pub fn has_size(unit: &Unit, ty: TypeId) -> bool
    requires { ty.0 < length unit.now.types.terms }
    ensures { (w : World) → Knows w unit.now → result ≡ has_size w (type_of unit.now.types ty.0) }
{
    unit.types.size_of(ty).is_some()
}
