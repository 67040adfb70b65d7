//! Tags and types of units as nodes: first all tags, then the types of each unit. A type's kids are the types and the tag of
//! its term, a tag's kids the types of the members of the list that counts for it.

ghost use Rattle.std.specs.Prelude.{◌≡◌, ◌<◌, ◌≤◌, ◌+◌, ◌++◌, ◌∷◌, [], ℕ, None, IfOk, IfSome, OnOk, length, map};
ghost use Rattle.std.specs.List.{slice_index_or};
ghost use Rattle.link_model.specs.Units.{IsTag};
ghost use Rattle.link_merge.specs.Counted.{AreOfTags};
ghost use Rattle.link_merge.specs.Kids.{term_kids, tag_kids, all_kids};
ghost use Rattle.link_merge.specs.Parted.{lists_of};

use crate::lists::own_list;
use c_types::table::TypeTable;
use c_types::term::{MemberTerm, Term, TypeId};
use core_tree::Unit;
use link_model::Item;
use pta_base::OutOfMemory;
use std::alloc::Global;

// Adds the node at a distance from a start.
fn add_kid(list: &mut Vec<u32>, start: u32, distance: u32) -> Result<(), OutOfMemory>
    ensures { OnOk result (list.new.items ≡ list.old.items ++ (start + distance) ∷ []) }
{
    let kid = start.checked_add(distance).ok_or(OutOfMemory)?;
    list.push(kid)?;
    Ok(())
}

// The kids of a function type of a unit whose types begin at that number.
fn function_kids(
    list: &mut Vec<u32>,
    result_type: TypeId,
    parameters: &[TypeId],
    types: u32,
) -> Result<(), OutOfMemory>
    ensures { OnOk result
        (list.new.items ≡ list.old.items ++ (types + result_type.0) ∷ map (λ id. types + id.0) parameters.now) }
{
    add_kid(list, types, result_type.0)?;
    for parameter in parameters {
        add_kid(list, types, parameter.0)?;
    }
    Ok(())
}

// The kids of a term of a unit whose types and tags begin at those numbers.
fn term_kids(alloc: Global, term: &Term, types: u32, tags: u32) -> Result<Vec<u32>, OutOfMemory>
    ensures { IfOk result (λ list. list.items ≡ term_kids types tags term.now) }
{
    let mut list = Vec::new(alloc);
    match term {
        Term::Void | Term::Bool | Term::Integer { .. } | Term::Floating | Term::VaList => {}
        Term::Pointer(to) => add_kid(&mut list, types, to.0)?,
        Term::Array { of, .. } => add_kid(&mut list, types, of.0)?,
        Term::Function {
            result,
            parameters,
            ..
        } => function_kids(&mut list, *result, parameters.as_slice(), types)?,
        Term::Structure(tag) => add_kid(&mut list, tags, *tag)?,
        Term::Union(tag) => add_kid(&mut list, tags, *tag)?,
    }
    Ok(list)
}

// The kids of a tag by its members, where the types of the unit begin at that number.
fn member_kids(alloc: Global, members: &[MemberTerm], types: u32) -> Result<Vec<u32>, OutOfMemory>
    ensures { IfOk result (λ list. list.items ≡ map (λ m. types + m.ty.0) members.now) }
{
    let mut list = Vec::new(alloc);
    for member in members {
        add_kid(&mut list, types, member.ty.0)?;
    }
    Ok(list)
}

// The kids of a tag, given the place of the tag whose list counts for it.
fn tag_kids(
    alloc: Global,
    units: &[Unit],
    nodes: &[u32],
    tags: &[Item],
    counted: Option<u32>,
) -> Result<Vec<u32>, OutOfMemory>
    requires tags { AreOfTags units.now tags.now }
    requires counted { IfSome counted (λ h. h < length tags.now) }
    requires nodes { length units.now ≤ length nodes.now }
    ensures { IfOk result (λ list. list.items ≡ tag_kids units.now nodes.now tags.now counted) }
{
    let Some(place) = counted else {
        return Ok(Vec::new(alloc));
    };
    let tag = tags[place as usize];
    let Some(members) = own_list(units, tag) else {
        return Ok(Vec::new(alloc));
    };
    member_kids(alloc, members, nodes[tag.unit as usize])
}

// The kids of all tags.
fn all_tag_kids(
    alloc: Global,
    units: &[Unit],
    nodes: &[u32],
    tags: &[Item],
    counted: &[Option<u32>],
) -> Result<Vec<Vec<u32>>, OutOfMemory>
    requires tags { AreOfTags units.now tags.now }
    requires counted { (g : ℕ) → g < length counted.now → IfSome (slice_index_or counted.now g None) (λ h. h < length tags.now) }
    requires nodes { length units.now ≤ length nodes.now }
    ensures { IfOk result (λ lists. lists_of lists.items ≡ map (tag_kids units.now nodes.now tags.now) counted.now) }
{
    let mut lists = Vec::new(alloc);
    for one in counted {
        let list = tag_kids(alloc, units, nodes, tags, *one)?;
        lists.push(list)?;
    }
    Ok(lists)
}

// Adds the kids of the types of a unit, whose types and tags begin at those numbers.
fn add_type_kids(
    alloc: Global,
    lists: &mut Vec<Vec<u32>>,
    unit: &TypeTable,
    types: u32,
    tags: u32,
) -> Result<(), OutOfMemory>
    ensures { OnOk result
        (lists_of lists.new.items ≡ lists_of lists.old.items ++ map (term_kids types tags) unit.now.terms) }
{
    for id in 0..unit.type_count() {
        let list = term_kids(alloc, unit.term(TypeId(id)), types, tags)?;
        lists.push(list)?;
    }
    Ok(())
}

/// The kids of all nodes, given where the nodes of each unit's types and the tags of each unit begin.
pub(crate) fn kids_of(
    alloc: Global,
    units: &[Unit],
    nodes: &[u32],
    tag_starts: &[u32],
    tags: &[Item],
    counted: &[Option<u32>],
) -> Result<Vec<Vec<u32>>, OutOfMemory>
    requires tags { AreOfTags units.now tags.now }
    requires counted { (g : ℕ) → g < length counted.now → IfSome (slice_index_or counted.now g None) (λ h. h < length tags.now) }
    requires nodes { length units.now ≤ length nodes.now }
    requires starts { length units.now ≤ length tag_starts.now }
    ensures { IfOk result (λ lists.
        lists_of lists.items ≡ all_kids units.now nodes.now tag_starts.now tags.now counted.now) }
{
    let mut lists = all_tag_kids(alloc, units, nodes, tags, counted)?;
    for (u, unit) in units.iter().enumerate() {
        add_type_kids(alloc, &mut lists, &unit.types, nodes[u], tag_starts[u])?;
    }
    Ok(lists)
}

/// Where the nodes of each unit's types begin, behind so many tags.
pub(crate) fn type_nodes(
    alloc: Global,
    type_starts: &[u32],
    count: u32,
) -> Result<Vec<u32>, OutOfMemory>
    ensures { IfOk result (λ list. list.items ≡ map (λ s. count + s) type_starts.now) }
{
    let mut list = Vec::new(alloc);
    for start in type_starts {
        add_kid(&mut list, count, *start)?;
    }
    Ok(list)
}
