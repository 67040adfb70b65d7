// What is noted of tags behind the row of a node.
ghost use Rattle.std.specs.Prelude.{◌≡◌, ◌<◌, ℕ, List, true, length, IfSome, Some};
ghost use Rattle.core_tree.specs.declared.node.Unit.{Unit as UnitSpec};
ghost use Rattle.c_grammar.specs.Productions.{p_struct};
ghost use Rattle.c_senses.specs.Tree.{is_a};
ghost use Rattle.c_senses.specs.World.{World};
ghost use Rattle.c_senses.specs.Given.{Fits};
ghost use Rattle.c_senses.specs.Sense.{Sense};
ghost use Rattle.c_senses.specs.Tags.{tag_of, struct_row};
ghost use Rattle.tree_reads.specs.Sources.{source_in};
ghost use Rattle.c_results.specs.Parts.{type_in};
ghost use Rattle.c_results.specs.Standing.{sense_made, IsWithin, TypeSeen};
ghost use Rattle.unit_worlds.specs.Growing.{Grows, completed_at};
ghost use Rattle.c_types.specs.Table.{type_of};
ghost use Rattle.c_types.specs.Made.{IsMade};
ghost use Rattle.unit_worlds.specs.unit_limits.Small.{IsTypeOf, tag_in};
ghost use Rattle.unit_worlds.specs.unit_limits.Unions.{AreUnions};

use crate::unit_limits::unions::note_type;
use c_grammar::productions::{MEMBERS, STRUCT};
use c_results::Made;
use c_types::term::TypeId;
use core_tree::node::Unit;
use tree_reads::{Syntax, child_of, is_a};

// The type, if that is what has been made.
fn typed(made: &Made) -> Option<TypeId>
    ensures seen { (u : UnitSpec) → TypeSeen u result (type_in (sense_made u made.now)) }
    ensures within { (u : UnitSpec) → IsWithin u made.now → IfSome result (λ t. t.0 < length u.types.terms) }
{
    match made {
        Made::Typed(ty) => Some(*ty),
        Made::Nothing | Made::Node(_) | Made::Specifiers { .. } | Made::Declarator { .. } => None,
        Made::Derived(_) | Made::Parameter { .. } | Made::Members(_) | Made::Value(_) => None,
        Made::Run(_) | Made::Initial { .. } => None,
    }
}

// The type of the structure or union that a node completes, if it completes one: that of its row (C11 6.7.2.1).
fn completed_type(syntax: &Syntax, at: u32, made: &Made) -> Option<TypeId>
    ensures within { (u : UnitSpec) → IsWithin u made.now → IfSome result (λ t. t.0 < length u.types.terms) }
    ensures tag { (u : UnitSpec) (w : World) (uses : List (ℕ × ℕ)) (sense : ℕ → Sense) →
        let s = source_in syntax.now uses in
        (is_a s p_struct at ≡ true → struct_row w s sense at ≡ Fits (sense_made u made.now)) →
        IsTypeOf u.types result (completed_at s sense at) }
    ensures tagged { (u : UnitSpec) (w : World) (uses : List (ℕ × ℕ)) (sense : ℕ → Sense) →
        let s = source_in syntax.now uses in
        (is_a s p_struct at ≡ true → struct_row w s sense at ≡ Fits (sense_made u made.now)) →
        IfSome result (λ ty. tag_in (type_of u.types ty.0) ≡ Some (tag_of s at)) }
{
    if !is_a(syntax, STRUCT, at) {
        return None;
    }
    match child_of(syntax, MEMBERS, at) {
        Some(_) => typed(made),
        None => None,
    }
}

/// Notes of the structure or union that a node completes, if it completes one, whether it has as a member a structure that ends in an array
/// without a length, or a union that has one (C11 6.7.2.1p3). So the flags of a unit's tags stay right over the row of a node: it takes a
/// step for each member of that structure or union.
pub fn note_behind(unit: &Unit, unions: &mut Vec<bool>, syntax: &Syntax, at: u32, made: &Made)
    requires within { IsWithin unit.now made.now }
    requires long { length unions.old.items ≡ unit.now.types.tags }
    ensures { (old : UnitSpec) (w : World) (uses : List (ℕ × ℕ)) (sense : ℕ → Sense) →
        let s = source_in syntax.now uses in
        (is_a s p_struct at ≡ true → struct_row w s sense at ≡ Fits (sense_made unit.now made.now)) →
        Grows old unit.now (completed_at s sense at) →
        IsMade old.types → AreUnions old.types unions.old.items → AreUnions unit.now.types unions.new.items }
{
    // (What every table keeps is told by its count.)
    let _count = unit.types.type_count();
    match completed_type(syntax, at, made) {
        Some(ty) => note_type(unit, unions, ty),
        None => {}
    }
}
