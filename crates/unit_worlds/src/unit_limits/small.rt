// Whether types are small.
ghost use Rattle.std.specs.Prelude.{◌≡◌, ◌<◌, ◌↔◌, [], length, IsTrue};
ghost use Rattle.core_tree.specs.declared.node.Unit.{Unit as UnitSpec};
ghost use Rattle.c_types.specs.Table.{type_of, extent_in};
ghost use Rattle.c_senses.specs.Limits.{is_small};
ghost use Rattle.c_results.specs.passed.core_nodes.Standing.{Builds};
ghost use Rattle.unit_worlds.specs.unit_limits.Small as spec;
ghost use Rattle.unit_worlds.specs.unit_limits.Small.{AreSmallFrom, IsSmallTable};

use c_types::table::TypeTable;
use c_types::term::{Term, TypeId};
use core_tree::node::Unit;

// Whether a type has no size, or a size below 2^63 and at most 2^24 nodes.
fn is_small_type(types: &TypeTable, ty: TypeId) -> bool
    requires { ty.0 < length types.now.terms }
    ensures { result ≡ is_small (extent_in types.now (type_of types.now ty.0)) }
{
    match types.align_of(ty) {
        Some(_) => types.size_of(ty).is_some() && types.nodes(ty).is_some(),
        None => true,
    }
}

// Whether a type is no array, or one of elements that have a size.
fn has_element(types: &TypeTable, ty: TypeId) -> bool
    requires { ty.0 < length types.now.terms }
    ensures { result ≡ spec.has_element (extent_in types.now) (type_of types.now ty.0) }
{
    match types.term(ty) {
        Term::Array { of, .. } => types.align_of(*of).is_some(),
        _ => true,
    }
}

// Whether a type is small and stays so.
fn stays_small(types: &TypeTable, ty: TypeId) -> bool
    requires { ty.0 < length types.now.terms }
    ensures { result ≡ spec.stays_small (extent_in types.now) (type_of types.now ty.0) }
{
    is_small_type(types, ty) && has_element(types, ty)
}

/// Whether the types from a number on are small: each has no size, or one below 2^63 and at most 2^24 nodes, and an array's element
/// has a size. It takes a step for each of them. Where they are, a table that was small before those types were added still is.
pub fn new_types_are_small(unit: &Unit, from: u32) -> bool
    ensures result { IsTrue result ↔ AreSmallFrom unit.now.types from }
    ensures start { IsTrue result → from ≡ 0 → unit.now.types.completed ≡ [] → IsSmallTable unit.now.types }
    ensures built { (old : UnitSpec) →
        IsTrue result →
        Builds old unit.now →
        from ≡ length old.types.terms → IsSmallTable old.types → IsSmallTable unit.now.types }
{
    for id in from..unit.types.type_count() {
        if !stays_small(&unit.types, TypeId(id)) {
            return false;
        }
    }
    true
}
