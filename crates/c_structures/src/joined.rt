// The rows of lists of members, of their declarations and of fields.
ghost use Rattle.std.specs.Prelude.{◌≡◌, ◌<◌, ◌⊎◌, ℕ, List, Some, length, IfOk, IfSome, All};
ghost use Rattle.c_grammar.specs.Productions.{p_members, p_member, p_field};
ghost use Rattle.c_senses.specs.World.{World};
ghost use Rattle.c_senses.specs.Sense.{sense_in};
ghost use Rattle.c_senses.specs.Tree.{parent_of, production_at, children_at};
ghost use Rattle.c_senses.specs.Tags as spec;
ghost use Rattle.c_senses.specs.Rows.{declaring_row};
ghost use Rattle.core_nodes.specs.Standing.{IsReady, Knows, Builds};
ghost use Rattle.c_results.specs.Standing.{senses_made, IsWithin, Rowed};
ghost use Rattle.c_declarators.specs.Limited.{AreFlexible};
ghost use Rattle.c_conversions.specs.constant_values.Constants.{HasConstants};
ghost use Rattle.tree_reads.specs.Sources.{source_read, source_in};
ghost use Rattle.c_structures.specs.Listed.{AreLists};

use crate::earlier::members_before;
use crate::lists::{MemberLists, moved};
use crate::members::{member_declaration, members_row};
use crate::rows::field_row;
use c_grammar::productions::{MEMBER, MEMBERS};
use c_results::{Made, Results};
use core_nodes::CheckFault;
use core_tree::node::Unit;
use std::alloc::Global;
use tree_reads::{Syntax, children_of, production_of};

// The row of a field, where the members before it are gathered anew.
fn gathered_field(
    alloc: Global,
    unit: &mut Unit,
    syntax: &Syntax,
    results: &Results,
    unions: &[bool],
    at: u32,
) -> Result<Made, CheckFault>
    requires ready { IsReady unit.old }
    requires results { All (IsWithin unit.old) results.now }
    requires rows { All (HasConstants unit.old) results.now }
    requires at { at < length syntax.now.tree.now.nodes.items }
    ensures ready { IsReady unit.new }
    ensures builds { Builds unit.old unit.new }
    ensures within { IfOk result (IsWithin unit.new) }
    ensures row { (w : World) (uses : List (ℕ × ℕ)) →
        Knows w unit.old →
        AreFlexible w unions.now →
        let sense = sense_in (senses_made unit.old results.now) in
        Rowed unit.new result (spec.field_row w (source_in syntax.now uses) sense at) }
{
    let Ok(before) = members_before(alloc, syntax, results, at) else {
        return Err(CheckFault::OutOfMemory);
    };
    field_row(alloc, unit, syntax, results, unions, &before, at)
}

// The declaration and the list in which a field stands.
fn list_around(syntax: &Syntax, at: u32) -> Option<(u32, u32)>
    requires { at < length syntax.now.tree.now.nodes.items }
    ensures { IfSome result (λ p.
        (parent_of (source_read syntax.now) at ≡ Some p.1) × (parent_of (source_read syntax.now) p.1 ≡ Some p.0)) }
{
    let Some(member) = syntax.parent_of(at) else {
        return None;
    };
    match syntax.parent_of(member) {
        Some(list) => Some((list, member)),
        None => None,
    }
}

// The row of a field, with what is kept of its list.
fn listed_field(
    alloc: Global,
    unit: &mut Unit,
    syntax: &Syntax,
    results: &Results,
    unions: &[bool],
    lists: &mut MemberLists,
    at: u32,
) -> Result<Made, CheckFault>
    requires ready { IsReady unit.old }
    requires results { All (IsWithin unit.old) results.now }
    requires rows { All (HasConstants unit.old) results.now }
    requires lists { AreLists syntax.now results.now lists.old }
    requires at { at < length syntax.now.tree.now.nodes.items }
    ensures ready { IsReady unit.new }
    ensures builds { Builds unit.old unit.new }
    ensures within { IfOk result (IsWithin unit.new) }
    ensures lists { AreLists syntax.now results.now lists.new }
    ensures row { (w : World) (uses : List (ℕ × ℕ)) →
        Knows w unit.old →
        AreFlexible w unions.now →
        let sense = sense_in (senses_made unit.old results.now) in
        Rowed unit.new result (spec.field_row w (source_in syntax.now uses) sense at) }
{
    let Some((list, member)) = list_around(syntax, at) else {
        return gathered_field(alloc, unit, syntax, results, unions, at);
    };
    let Some(begun) = lists.found(alloc, syntax, list, member) else {
        return gathered_field(alloc, unit, syntax, results, unions, at);
    };
    let Ok(before) = moved(alloc, syntax, results, begun, list, at) else {
        return Err(CheckFault::OutOfMemory);
    };
    let made = field_row(alloc, unit, syntax, results, unions, &before, at);
    let kept = lists.keep(list, before);
    if kept {
        made
    } else {
        Err(CheckFault::OutOfMemory)
    }
}

/// The row of a list of members, of a declaration of members or of a field (C11 6.7.2.1), by the node's production: exactly
/// `declaring_row`, with the refusals of `members_row`, `member_declaration` and `field_row`. `unions` are the tags whose members are or
/// hold a structure that ends in an array without a length. With what is kept of the lists of members that are being gone through, each
/// field costs about as much as its name; what is kept stays right while more is made.
pub fn listed_member(
    alloc: Global,
    unit: &mut Unit,
    syntax: &Syntax,
    results: &Results,
    unions: &[bool],
    lists: &mut MemberLists,
    at: u32,
) -> Result<Made, CheckFault>
    requires ready { IsReady unit.old }
    requires results { All (IsWithin unit.old) results.now }
    requires rows { All (HasConstants unit.old) results.now }
    requires lists { AreLists syntax.now results.now lists.old }
    requires at { at < length syntax.now.tree.now.nodes.items }
    requires production { let p = production_at (source_read syntax.now) at in (p ≡ p_members) ⊎ ((p ≡ p_member) ⊎ (p ≡ p_field)) }
    ensures ready { IsReady unit.new }
    ensures builds { Builds unit.old unit.new }
    ensures within { IfOk result (IsWithin unit.new) }
    ensures lists { AreLists syntax.now results.now lists.new }
    ensures row { (w : World) (uses : List (ℕ × ℕ)) →
        Knows w unit.old →
        AreFlexible w unions.now →
        let s = source_in syntax.now uses in
        let sense = sense_in (senses_made unit.old results.now) in
        Rowed unit.new result (declaring_row w s sense (production_at s at) at (children_at s at)) }
{
    let production = production_of(syntax, at);
    if production == MEMBERS {
        return members_row(alloc, results, children_of(syntax, at));
    }
    if production == MEMBER {
        let children = children_of(syntax, at);
        return member_declaration(alloc, unit, syntax, results, unions, at, children);
    }
    listed_field(alloc, unit, syntax, results, unions, lists, at)
}
