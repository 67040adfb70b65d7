// What is known of types.

ghost use Rattle.std.specs.Prelude.{◌≡◌, ℕ, ◌+◌, ◌<◌, ◌^◌, ◌++◌, ◌∷◌, [], Some, None, Option, IfOk, IfSome, MatchOption};
ghost use Rattle.std.specs.Prelude.{OnOk, All, List, length, map, replicate, slice_get, IsTrue};
ghost use Rattle.std.specs.List.{range_with_len};
ghost use Rattle.c_types.specs.Table.{type_of, members_in};
ghost use Rattle.c_types.specs.Made.{IsMade};
ghost use Rattle.c_types.specs.declared.term.TypeId.{TypeId};
ghost use Rattle.row_numbers.specs.Kept.{member_node};
ghost use Rattle.normal_form.specs.Facts.{plain_fact, positions_by, tag_fact_by, tag_fact, type_facts};
ghost use Rattle.constraints.specs.Types.{AreTagIds, IsTagId, tag_of};

use c_types::table::TypeTable;
use c_types::term::{Term, TypeId};
use pta_base::{Listing, OutOfMemory};
use row_numbers::kept::node_count;
use sol_model::TypeFact;
use std::alloc::Global;

// The tag of a term.
fn tag_of(term: &Term) -> Option<u32>
    ensures { result ≡ tag_of term.now }
{
    match term {
        Term::Structure(tag) | Term::Union(tag) => Some(*tag),
        Term::Void | Term::Bool | Term::Integer { .. } | Term::Floating | Term::VaList => None,
        Term::Pointer(_) | Term::Array { .. } | Term::Function { .. } => None,
    }
}

// An id of each tag's type, where a term has it.
fn tag_ids(alloc: Global, types: &TypeTable) -> Result<Vec<Option<TypeId>>, OutOfMemory>
    ensures { IfOk result (λ ids. AreTagIds types.now ids.items) }
{
    let mut ids = no_ids(alloc, types.tag_count())?;
    for id in 0..types.type_count() {
        if let Some(tag) = tag_of(types.term(TypeId(id))) {
            ids[tag as usize] = Some(TypeId(id));
        }
    }
    Ok(ids)
}

// No id for each tag.
fn no_ids(alloc: Global, tags: u32) -> Result<Vec<Option<TypeId>>, OutOfMemory>
    ensures { IfOk result (λ ids. ids.items ≡ map {B = Option TypeId} (λ tag. None) (range_with_len 0 tags)) }
{
    let ids = (0..tags).map(|_| None).collect(alloc)?;
    Ok(ids)
}

// The position of a member's node. A member past the numbers of 32 bits stands behind as many nodes, so it has none there.
fn member_node(types: &TypeTable, id: TypeId, k: usize) -> u32
    requires id { id.0 < length types.now.terms }
    requires made { IsMade types.now }
    ensures { result ≡ member_node types.now (type_of types.now id.0) k }
{
    if k > u32::MAX as usize {
        return 0;
    }
    types.field_node(id, k as u32).unwrap_or(0)
}

// The position of each member's node.
fn positions(
    alloc: Global,
    types: &TypeTable,
    id: TypeId,
    members: usize,
) -> Result<Vec<u32>, OutOfMemory>
    requires id { id.0 < length types.now.terms }
    requires made { IsMade types.now }
    ensures { IfOk result (λ list. list.items ≡ positions_by types.now (type_of types.now id.0) members) }
{
    let list = (0..members)
        .map(|k| member_node(types, id, k))
        .collect(alloc)?;
    Ok(list)
}

// One node without members.
fn plain_fact(alloc: Global) -> TypeFact
    ensures { result ≡ plain_fact }
{
    TypeFact {
        nodes: 1,
        members: Listing::new(alloc),
    }
}

// What is known of a tag whose type has an id.
fn tag_fact(alloc: Global, types: &TypeTable, tag: u32, id: TypeId) -> Result<TypeFact, OutOfMemory>
    requires tag { tag < types.now.tags }
    requires id { id.0 < length types.now.terms }
    requires made { IsMade types.now }
    ensures { IfOk result (λ fact. fact ≡ tag_fact_by types.now (type_of types.now id.0) (members_in types.now tag)) }
{
    match types.members(tag) {
        None => Ok(plain_fact(alloc)),
        Some(members) => Ok(TypeFact {
            nodes: node_count(types, id),
            members: Listing::of(positions(alloc, types, id, members.len())?),
        }),
    }
}

// What is known of a tag.
fn fact_at(
    alloc: Global,
    types: &TypeTable,
    tag: u32,
    id: Option<TypeId>,
) -> Result<TypeFact, OutOfMemory>
    requires tag { tag < types.now.tags }
    requires id { IsTagId types.now tag id }
    requires made { IsMade types.now }
    ensures { IfOk result (λ fact. fact ≡ tag_fact types.now tag) }
{
    match id {
        Some(id) => tag_fact(alloc, types, tag, id),
        None => Ok(plain_fact(alloc)),
    }
}

// What is known of the types without tags.
fn plain_facts(alloc: Global) -> Result<Listing<TypeFact>, OutOfMemory>
    ensures { IfOk result (λ facts. facts ≡ replicate 8 plain_fact) }
{
    let mut facts = Listing::new(alloc);
    facts.push(plain_fact(alloc))?;
    facts.push(plain_fact(alloc))?;
    facts.push(plain_fact(alloc))?;
    facts.push(plain_fact(alloc))?;
    facts.push(plain_fact(alloc))?;
    facts.push(plain_fact(alloc))?;
    facts.push(plain_fact(alloc))?;
    facts.push(plain_fact(alloc))?;
    Ok(facts)
}

/// What is known of each type: those without tags first, then those of each tag.
pub(crate) fn type_facts(alloc: Global, types: &TypeTable) -> Result<Listing<TypeFact>, OutOfMemory>
    ensures { IfOk result (λ facts. facts ≡ type_facts types.now) }
{
    let _types = types.type_count();
    let ids = tag_ids(alloc, types)?;
    let mut facts = plain_facts(alloc)?;
    for tag in 0..types.tag_count() {
        facts.push(fact_at(alloc, types, tag, ids[tag as usize])?)?;
    }
    Ok(facts)
}
