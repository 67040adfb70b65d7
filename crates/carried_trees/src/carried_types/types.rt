// The types of one table in the table of another unit.
ghost use Rattle.std.specs.Prelude.{◌≡◌, ◌<◌, None, length, map, get_or, All, IfOk};
ghost use Rattle.c_types.specs.Trees.{grow};
ghost use Rattle.c_types.specs.Table.{IsAfter, HasTag, types_of, type_of};
ghost use Rattle.c_types.specs.Made.{IsSized, KeepsApart};
ghost use Rattle.carried_trees.specs.carried_types.Terms as spec;
ghost use Rattle.carried_trees.specs.carried_types.Terms.{AreIds, AreTagIds, AreTypes, IsGrown, id_in, tag_type, term_type};

use c_types::table::TypeTable;
use c_types::term::{Term, TypeId, TypeList};
use pta_base::OutOfMemory;
use std::alloc::Global;

/// The numbers of the types of one table in another, and of which each tag has a type there.
#[derive(Drop)]
pub struct CarriedTypes {
    pub ids: Vec<u32>,
    pub given: Vec<bool>,
}

// The tag that a term names.
fn tag_in(term: &Term) -> Option<u32>
    ensures { result ≡ spec.tag_in term.now }
{
    match term {
        Term::Structure(tag) | Term::Union(tag) => Some(*tag),
        _ => None,
    }
}

// The number of the type of a tag.
fn type_at(tags: &[Option<u32>], tag: u32) -> Option<u32>
    ensures { result ≡ get_or tags.now tag None }
{
    match tags.get(tag as usize) {
        Some(there) => *there,
        None => None,
    }
}

// The number of the type that a term names by its tag.
fn tag_id(tags: &[Option<u32>], term: &Term) -> Option<u32>
    ensures { result ≡ spec.tag_id tags.now term.now }
{
    match tag_in(term) {
        Some(tag) => type_at(tags, tag),
        None => None,
    }
}

// The numbers of some types.
fn moved_ids(alloc: Global, ids: &[u32], list: &[TypeId]) -> Result<TypeList, OutOfMemory>
    requires { All (λ id. id.0 < length ids.now) list.now }
    ensures moved { IfOk result (λ new. new ≡ map (id_in ids.now) list.now) }
{
    let mut new = Vec::new(alloc);
    for id in list {
        new.push(TypeId(ids[id.0 as usize]))?;
    }
    Ok(TypeList::from_items(new))
}

// A term over the numbers of the types before it, but for a tag.
fn moved_term(alloc: Global, ids: &[u32], term: &Term) -> Result<Term, OutOfMemory>
    requires { IsAfter (length ids.now) term.now }
    ensures moved { IfOk result (λ new. new ≡ spec.moved_term ids.now term.now) }
{
    match term {
        Term::Void | Term::Structure(_) | Term::Union(_) => Ok(Term::Void),
        Term::Bool => Ok(Term::Bool),
        Term::Integer { size, rank, signed } => Ok(Term::Integer {
            size: *size,
            rank: *rank,
            signed: *signed,
        }),
        Term::Floating => Ok(Term::Floating),
        Term::VaList => Ok(Term::VaList),
        Term::Pointer(to) => Ok(Term::Pointer(TypeId(ids[to.0 as usize]))),
        Term::Array { of, length } => Ok(Term::Array {
            of: TypeId(ids[of.0 as usize]),
            length: *length,
        }),
        Term::Function {
            result,
            parameters,
            form,
        } => Ok(Term::Function {
            result: TypeId(ids[result.0 as usize]),
            parameters: moved_ids(alloc, ids, parameters.as_slice())?,
            form: *form,
        }),
    }
}

// Whether all of some types are given.
fn all_in(given: &[bool], list: &[TypeId]) -> bool
    requires { All (λ id. id.0 < length given.now) list.now }
    ensures { result ≡ spec.all_in given.now list.now }
{
    for id in list {
        if !given[id.0 as usize] {
            return false;
        }
    }
    true
}

// Whether each tag in a term has a type.
fn is_given(given: &[bool], tags: &[Option<u32>], term: &Term) -> bool
    requires { IsAfter (length given.now) term.now }
    ensures { result ≡ spec.is_given_term given.now tags.now term.now }
{
    match term {
        Term::Void | Term::Bool | Term::Integer { .. } | Term::Floating | Term::VaList => true,
        Term::Pointer(to) => given[to.0 as usize],
        Term::Array { of, .. } => given[of.0 as usize],
        Term::Function {
            result,
            parameters,
            ..
        } => given[result.0 as usize] && all_in(given, parameters.as_slice()),
        Term::Structure(tag) | Term::Union(tag) => type_at(tags, *tag).is_some(),
    }
}

// The number of the type of a term that names no tag, which is added where there is none.
fn add_term(types: &mut TypeTable, term: Term) -> Result<u32, OutOfMemory>
    requires types { IsAfter (length types.old.terms) term }
    requires tags { HasTag types.old.tags term }
    requires sized { IsSized term }
    requires apart { KeepsApart types.old.terms term }
    ensures grown { IsGrown types.old types.new }
    ensures made { IfOk result (λ id. type_of types.new id ≡ grow (types_of types.old) term) }
    ensures within { IfOk result (λ id. id < length types.new.terms) }
{
    let Ok(found) = types.find(&term) else {
        return Err(OutOfMemory);
    };
    match found {
        Some(known) => Ok(known.0),
        None => match types.add(term) {
            Ok(ty) => Ok(ty.0),
            Err(_) => Err(OutOfMemory),
        },
    }
}

// The number of the type of a term.
fn add_carried(
    alloc: Global,
    types: &mut TypeTable,
    ids: &[u32],
    tags: &[Option<u32>],
    term: &Term,
) -> Result<u32, OutOfMemory>
    requires ids { AreIds ids.now types.old }
    requires tags { AreTagIds tags.now types.old }
    requires after { IsAfter (length ids.now) term.now }
    requires sized { IsSized term.now }
    ensures grown { IsGrown types.old types.new }
    ensures made { IfOk result (λ id. type_of types.new id ≡ term_type types.old ids.now tags.now term.now) }
    ensures within { IfOk result (λ id. id < length types.new.terms) }
{
    if let Some(id) = tag_id(tags, term) {
        return Ok(id);
    }
    let moved = moved_term(alloc, ids, term)?;
    add_term(types, moved)
}

/// The types of a table in another, where the type of each tag stands in a list. Only memory may want.
pub fn carried_types(
    alloc: Global,
    types: &mut TypeTable,
    old: &TypeTable,
    tags: &[Option<u32>],
) -> Result<CarriedTypes, OutOfMemory>
    requires tags { AreTagIds tags.now types.old }
    ensures grown { IsGrown types.old types.new }
    ensures types { IfOk result (λ new.
        AreTypes (tag_type types.old tags.now) old.now (length old.now.terms) new.ids.items new.given.items types.new) }
{
    let mut ids = Vec::new(alloc);
    let mut given = Vec::new(alloc);
    for id in 0..old.type_count() {
        let term = old.term(TypeId(id));
        let new = add_carried(alloc, types, ids.as_slice(), tags, term)?;
        let flag = is_given(given.as_slice(), tags, term);
        ids.push(new)?;
        given.push(flag)?;
    }
    Ok(CarriedTypes { ids, given })
}
