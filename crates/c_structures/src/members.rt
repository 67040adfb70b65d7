// Lists of members, and their declarations.
ghost use Rattle.std.specs.Prelude.{◌≡◌, ◌<◌, ◌++◌, ◌∷◌, [], ℕ, List, length, map, Option, None, option_and_then, ◌||◌};
ghost use Rattle.std.specs.Prelude.{not, OnOk, IfOk, IfSome, IsOkUnless, All};
ghost use Rattle.c_types.specs.Trees.{Ctype};
ghost use Rattle.c_senses.specs.Given.{Fits};
ghost use Rattle.core_tree.specs.declared.node.Unit.{Unit as UnitSpec};
ghost use Rattle.c_types.specs.Table.{type_of};
ghost use Rattle.c_inits.specs.Tables.{part_of};
ghost use Rattle.c_senses.specs.World.{World};
ghost use Rattle.c_senses.specs.Tree.{Source};
ghost use Rattle.c_senses.specs.Sense.{Sense, IsMembers, sense_in};
ghost use Rattle.c_senses.specs.Limits.{ends_flexible};
ghost use Rattle.c_senses.specs.Tags as spec;
ghost use Rattle.core_nodes.specs.Standing.{Knows};
ghost use Rattle.c_results.specs.Standing.{senses_made, IsWithin, Rowed, TypeSeen};
ghost use Rattle.c_results.specs.Parts.{parts_in, type_in};
ghost use Rattle.c_declarators.specs.Limited.{AreFlexible};
ghost use Rattle.tree_reads.specs.Sources.{source_read, source_in};
ghost use Rattle.c_structures.specs.Members.{parts_or};

use crate::places::{is_in_union, untagged_in};
use c_declarators::ends_flexible;
use c_grammar::productions::{FIELD, SPECS};
use c_results::{Made, Results, copied_member, members_at, type_at};
use c_types::term::{MemberTerm, TypeId};
use core_nodes::CheckFault;
use core_tree::node::Unit;
use std::alloc::Global;
use tree_reads::{Syntax, Test, any_where, child_of};

// Adds the same members once more.
fn add_copies(
    alloc: Global,
    list: &mut Vec<MemberTerm>,
    members: &[MemberTerm],
) -> Result<(), CheckFault>
    ensures ok { OnOk result (list.new.items ≡ list.old.items ++ members.now) }
    ensures memory { IsOkUnless result CheckFault.OutOfMemory }
{
    for member in members {
        let copy = copied_member(alloc, member)?;
        list.push(copy)?;
    }
    Ok(())
}

// Adds the members that have been made for a node.
fn add_members(
    alloc: Global,
    list: &mut Vec<MemberTerm>,
    results: &Results,
    node: u32,
) -> Result<(), CheckFault>
    ensures seen { (u : UnitSpec) →
        OnOk result
        (map (part_of u.types) list.new.items
        ≡ map (part_of u.types) list.old.items ++ parts_or (parts_in (sense_in (senses_made u results.now) node))) }
    ensures within { (u : UnitSpec) →
        All (IsWithin u) results.now →
        All (λ m. m.ty.0 < length u.types.terms) list.old.items →
        OnOk result (All (λ m. m.ty.0 < length u.types.terms) list.new.items) }
    ensures memory { IsOkUnless result CheckFault.OutOfMemory }
{
    match members_at(results, node) {
        Some(members) => add_copies(alloc, list, members),
        None => Ok(()),
    }
}

/// The members that have been made for some nodes, one after another.
pub fn members_among(
    alloc: Global,
    results: &Results,
    nodes: &[u32],
) -> Result<Vec<MemberTerm>, CheckFault>
    ensures seen { (u : UnitSpec) (w : World) (s : Source) →
        IfOk result (λ list.
        map (part_of u.types) list.items ≡ spec.members_among w s (sense_in (senses_made u results.now)) nodes.now) }
    ensures within { (u : UnitSpec) →
        All (IsWithin u) results.now → IfOk result (λ list. All (λ m. m.ty.0 < length u.types.terms) list.items) }
    ensures memory { IsOkUnless result CheckFault.OutOfMemory }
{
    let mut list = Vec::new(alloc);
    for node in nodes {
        add_members(alloc, &mut list, results, *node)?;
    }
    Ok(list)
}

/// The row of a list of members (C11 6.7.2.1): those of its declarations, one after another. Only memory may want.
pub fn members_row(alloc: Global, results: &Results, children: &[u32]) -> Result<Made, CheckFault>
    ensures within { (u : UnitSpec) → All (IsWithin u) results.now → IfOk result (IsWithin u) }
    ensures row { (u : UnitSpec) (w : World) (s : Source) →
        Rowed u result (spec.members_row w s (sense_in (senses_made u results.now)) children.now) }
{
    match members_among(alloc, results, children) {
        Ok(members) => Ok(Made::Members(members)),
        Err(_) => Err(CheckFault::OutOfMemory),
    }
}

// The type of the untagged structure or union among specifiers.
fn untagged_type(syntax: &Syntax, results: &Results, specs: u32) -> Option<TypeId>
    ensures seen { (u : UnitSpec) (w : World) →
        let s = source_read syntax.now in
        let sense = sense_in (senses_made u results.now) in
        TypeSeen u result
        (option_and_then (λ i. spec.type_in_sense w s sense (sense i)) (spec.untagged_in w s sense specs)) }
    ensures within { (u : UnitSpec) → All (IsWithin u) results.now → IfSome result (λ t. t.0 < length u.types.terms) }
{
    match untagged_in(syntax, specs) {
        Some(node) => type_at(results, node),
        None => None,
    }
}

// One member without a name.
fn one_unnamed(alloc: Global, ty: TypeId) -> Result<Made, CheckFault>
    ensures row { (u : UnitSpec) →
        Rowed u result (Fits (IsMembers (record { name = None; type = type_of u.types ty.0; bits = None } ∷ []))) }
    ensures within { (u : UnitSpec) → ty.0 < length u.types.terms → IfOk result (IsWithin u) }
{
    let mut list = Vec::new(alloc);
    list.push(MemberTerm {
        name: None,
        ty,
        bits: None,
    })?;
    Ok(Made::Members(list))
}

// Whether a declaration may be a member of that type without a name.
fn may_be_unnamed(unit: &Unit, syntax: &Syntax, unions: &[bool], at: u32, ty: TypeId) -> bool
    requires at { at < length syntax.now.tree.now.nodes.items }
    requires ty { ty.0 < length unit.now.types.terms }
    ensures { (w : World) (sense : ℕ → Sense) →
        Knows w unit.now →
        AreFlexible w unions.now →
        result
        ≡ (spec.is_in_union w (source_read syntax.now) sense at || not (ends_flexible w (type_of unit.now.types ty.0))) }
{
    is_in_union(syntax, at) || !ends_flexible(unit, unions, ty)
}

// The member that specifiers alone declare, by the type of the untagged structure or union among them.
fn unnamed_member(
    alloc: Global,
    unit: &Unit,
    syntax: &Syntax,
    unions: &[bool],
    at: u32,
    untagged: Option<TypeId>,
) -> Result<Made, CheckFault>
    requires at { at < length syntax.now.tree.now.nodes.items }
    requires untagged { IfSome untagged (λ t. t.0 < length unit.now.types.terms) }
    ensures within { IfOk result (IsWithin unit.now) }
    ensures row { (w : World) (sense : ℕ → Sense) (t : Option Ctype) →
        Knows w unit.now →
        AreFlexible w unions.now →
        TypeSeen unit.now untagged t →
        Rowed unit.now result (spec.unnamed_member w (source_read syntax.now) sense at t) }
{
    let Some(ty) = untagged else {
        return Ok(Made::Members(Vec::new(alloc)));
    };
    if may_be_unnamed(unit, syntax, unions, at, ty) {
        one_unnamed(alloc, ty)
    } else {
        Err(CheckFault::BadOperand(at))
    }
}

/// The row of a declaration of members (C11 6.7.2.1): the members of its fields; without one a member only where its
/// specifiers are an untagged structure or union. That is refused as `operand` at the declaration where it stands in a
/// structure and ends in an array without a length.
pub fn member_declaration(
    alloc: Global,
    unit: &Unit,
    syntax: &Syntax,
    results: &Results,
    unions: &[bool],
    at: u32,
    children: &[u32],
) -> Result<Made, CheckFault>
    requires results { All (IsWithin unit.now) results.now }
    requires at { at < length syntax.now.tree.now.nodes.items }
    ensures within { IfOk result (IsWithin unit.now) }
    ensures row { (w : World) (uses : List (ℕ × ℕ)) →
        Knows w unit.now →
        AreFlexible w unions.now →
        Rowed unit.now result
        (spec.member_declaration w (source_in syntax.now uses) (sense_in (senses_made unit.now results.now)) at children.now) }
{
    let Some(specs) = child_of(syntax, SPECS, at) else {
        return Ok(Made::Members(Vec::new(alloc)));
    };
    if any_where(syntax, Test::IsA(FIELD), children) {
        return members_row(alloc, results, children);
    }
    let untagged = untagged_type(syntax, results, specs);
    unnamed_member(alloc, unit, syntax, unions, at, untagged)
}
