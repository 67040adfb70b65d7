// Rows of specifiers of structures and unions.
ghost use Rattle.std.specs.Prelude.{◌≡◌, ◌<◌, ◌&&◌, ℕ, List, Some, None, not, length, map, true, is_none, is_some, IfOk, OnOk, All};
ghost use Rattle.std.specs.Bool.{OnTrue};
ghost use Rattle.pta_base.specs.declared.kind.Kind.TheVariants.{NotBuilt as NotBuiltKind};
ghost use Rattle.c_grammar.specs.Productions.{p_struct, p_members};
ghost use Rattle.c_types.specs.Table.{type_of, members_in, extent_in};
ghost use Rattle.c_inits.specs.Tables.{part_of};
ghost use Rattle.c_senses.specs.World.{World};
ghost use Rattle.c_senses.specs.Given.{given_if};
ghost use Rattle.c_senses.specs.Tree as tree;
ghost use Rattle.c_senses.specs.Tree.{Source};
ghost use Rattle.c_senses.specs.Sense.{sense_in};
ghost use Rattle.c_senses.specs.Limits as limits;
ghost use Rattle.c_senses.specs.Tags as spec;
ghost use Rattle.core_nodes.specs.Standing.{IsReady, Knows};
ghost use Rattle.c_results.specs.Standing.{senses_made, IsWithin, Rowed};
ghost use Rattle.c_results.specs.Parts.{parts_in};
ghost use Rattle.c_tags.specs.Seen.{IsSeen};
ghost use Rattle.tree_reads.specs.Sources.{source_read, source_in};
ghost use Rattle.unit_worlds.specs.Growing.{Grows, completed_at};
ghost use Rattle.struct_rows.specs.Taken as taken;
ghost use Rattle.struct_rows.specs.Completes.{Completes};
ghost use Rattle.struct_rows.specs.Standing.{StandsTagged, IsSmallTag, CompletesBy};
ghost use Rattle.struct_rows.specs.Built as built;
ghost use Rattle.struct_rows.specs.Built.{HasTagTypes, completed_row, built_struct};

use crate::completion::{complete, is_small_type};
use crate::taking::takes;
use c_grammar::productions::MEMBERS;
use c_results::{Made, Results, members_at};
use c_structures::members_among;
use c_tags::{SeenTag, named_tag};
use c_types::table::TypeTable;
use c_types::term::{MemberTerm, Term, TypeId};
use core_nodes::CheckFault;
use core_tree::node::Unit;
use pta_base::Kind;
use std::alloc::Global;
use tree_reads::{Syntax, Test, any_where, child_of, children_of};

const WORD_UNION: u8 = 29;

/// Whether a specifier is one of a union: the word `union` is among its children (C11 6.7.2.1).
pub fn is_union(syntax: &Syntax, node: u32) -> bool
    ensures { result ≡ spec.is_union (source_read syntax.now) node }
{
    any_where(syntax, Test::Word(WORD_UNION), children_of(syntax, node))
}

// Whether the type of a number is the structure or union of the tag of that number.
fn stands_as(types: &TypeTable, number: u32, is_union: bool) -> bool
    ensures is { result ≡ built.stands_as types.now number is_union }
    ensures tagged { OnTrue result (StandsTagged types.now number is_union) }
{
    if number >= types.type_count() {
        return false;
    }
    match types.term(TypeId(number)) {
        Term::Structure(tag) => !is_union && *tag == number,
        Term::Union(tag) => is_union && *tag == number,
        _ => false,
    }
}

// Whether a tag has no members yet.
fn is_open(types: &TypeTable, number: u32) -> bool
    requires { number < types.now.tags }
    ensures { result ≡ is_none (members_in types.now number) }
{
    types.members(number).is_none()
}

// Whether a tag may be completed with some members.
fn may_complete(types: &TypeTable, number: u32, is_union: bool, members: &[MemberTerm]) -> bool
    requires number { number < types.now.tags }
    requires members { All (λ m. m.ty.0 < length types.now.terms) members.now }
    ensures { let parts = map (part_of types.now) members.now in
        result ≡ (is_none (members_in types.now number) && taken.takes (extent_in types.now) is_union true parts) }
{
    is_open(types, number) && takes(types, members, is_union)
}

// The type of a tag that is completed with some members.
fn completed(
    unit: &mut Unit,
    number: u32,
    is_union: bool,
    at: u32,
    members: Vec<MemberTerm>,
) -> Result<Made, CheckFault>
    requires ready { IsReady unit.old }
    requires is { built.stands_as unit.old.types number is_union ≡ true }
    requires tagged { StandsTagged unit.old.types number is_union }
    requires members { All (λ m. m.ty.0 < length unit.old.types.terms) members.items }
    ensures ready { IsReady unit.new }
    ensures within { IfOk result (IsWithin unit.new) }
    ensures completes { OnOk result (Completes unit.old unit.new number (map (part_of unit.old.types) members.items)) }
    ensures small { OnOk result (IsSmallTag unit.new.types number) }
    ensures row { (w : World) →
        Knows w unit.old →
        Rowed unit.new result (completed_row w at number is_union (map (part_of unit.old.types) members.items)) }
{
    let ty = TypeId(number);
    if !may_complete(&unit.types, number, is_union, members.as_slice()) {
        return Err(CheckFault::Unsupported(Kind::NotBuilt, at));
    }
    let Ok(()) = complete(unit, number, members) else {
        return Err(CheckFault::OutOfMemory);
    };
    if is_small_type(unit, ty) {
        Ok(Made::Typed(ty))
    } else {
        Err(CheckFault::BadOperand(at))
    }
}

// The type of a tag that is completed with what has been made for a list.
fn listed(
    alloc: Global,
    unit: &mut Unit,
    results: &Results,
    number: u32,
    is_union: bool,
    at: u32,
    list: u32,
) -> Result<Made, CheckFault>
    requires ready { IsReady unit.old }
    requires results { All (IsWithin unit.old) results.now }
    requires is { built.stands_as unit.old.types number is_union ≡ true }
    requires tagged { StandsTagged unit.old.types number is_union }
    ensures ready { IsReady unit.new }
    ensures within { IfOk result (IsWithin unit.new) }
    ensures completes { OnOk result (CompletesBy unit.old unit.new number (sense_in (senses_made unit.old results.now) list)) }
    ensures small { OnOk result (IsSmallTag unit.new.types number) }
    ensures row { (w : World) (s : Source) →
        Knows w unit.old →
        let sense = sense_in (senses_made unit.old results.now) in
        Rowed unit.new result
        (given_if (is_some (parts_in (sense list))) NotBuiltKind at
        (completed_row w at number is_union (spec.members_in_sense w s sense (sense list)))) }
{
    let Some(_) = members_at(results, list) else {
        return Err(CheckFault::Unsupported(Kind::NotBuilt, at));
    };
    let Ok(members) = members_among(alloc, results, &[list]) else {
        return Err(CheckFault::OutOfMemory);
    };
    completed(unit, number, is_union, at, members)
}

/// The row of a specifier of a structure or union (C11 6.7.2.1, 6.7.2.3), by what is known of its tag: its type, which the table has
/// under the tag's number. A list of members completes the tag. It is refused as `operand` at the tag's name where the tag has a list
/// before or was declared with another keyword, and at the specifier where its size isn't below 2^63 or it has over 2^24 nodes; and as
/// not built, at the specifier, where its keyword isn't that of the tag's first specifier, where the tag has members already, and where
/// its list has none made, or has some that may not stand. Without a list the unit stays; after a refusal with one it is only fit to be
/// dropped.
pub fn struct_row(
    alloc: Global,
    unit: &mut Unit,
    syntax: &Syntax,
    results: &Results,
    tag: SeenTag,
    at: u32,
) -> Result<Made, CheckFault>
    requires ready { IsReady unit.old }
    requires results { All (IsWithin unit.old) results.now }
    requires at { tree.is_a (source_read syntax.now) p_struct at ≡ true }
    ensures ready { IsReady unit.new }
    ensures within { IfOk result (IsWithin unit.new) }
    ensures same { tree.child_of (source_read syntax.now) p_members at ≡ None → unit.new ≡ unit.old }

    // With a list, the tag is small.
    ensures small { (list : ℕ) →
        tree.child_of (source_read syntax.now) p_members at ≡ Some list → OnOk result (IsSmallTag unit.new.types tag.number) }
    ensures grows { (uses : List (ℕ × ℕ)) →
        let s = source_in syntax.now uses in
        IsSeen s at tag →
        OnOk result (Grows unit.old unit.new (completed_at s (sense_in (senses_made unit.old results.now)) at)) }
    ensures row { (w : World) (uses : List (ℕ × ℕ)) →
        Knows w unit.old →
        let s = source_in syntax.now uses in
        IsSeen s at tag →
        HasTagTypes s unit.old.types →
        Rowed unit.new result (built_struct w s (sense_in (senses_made unit.old results.now)) at) }
{
    if !tag.fits {
        return Err(CheckFault::BadOperand(named_tag(syntax, at)));
    }
    let is_union = is_union(syntax, at);
    if !stands_as(&unit.types, tag.number, is_union) {
        return Err(CheckFault::Unsupported(Kind::NotBuilt, at));
    }
    match child_of(syntax, MEMBERS, at) {
        Some(list) => listed(alloc, unit, results, tag.number, is_union, at, list),
        None => Ok(Made::Typed(TypeId(tag.number))),
    }
}
