// The numbers of entities, and the types of tags, that are known of declarations.
ghost use Rattle.std.specs.Prelude.{◌≡◌, ◌<◌, ◌++◌, [], ◌∷◌, ℕ, List, length, IfOk, OnOk, IsOkUnless, slice_index};
ghost use Rattle.c_senses.specs.Tags as spec;
ghost use Rattle.tree_reads.specs.Sources.{source_read, source_in};
ghost use Rattle.carried_trees.specs.carried_types.Terms.{AreTagIds, IsIdIn};
ghost use Rattle.c_check.specs.declared.known_tags.known.Meaning.{Meaning as MeaningSpec};
ghost use Rattle.c_tags.specs.tag_numbers.Firsts.{Declares};
ghost use Rattle.c_check.specs.known_tags.Given.{AreGiven, IsTypeId, IsIdOf, AreIdsOf};
ghost use Rattle.c_check.specs.known_tags.Known.{tag_known};

use crate::known_tags::known::Meaning;
use c_tags::tag_numbers::{Declaring, Numbered, tag_declared};
use c_types::table::TypeTable;
use c_types::term::Term;
use core_nodes::CheckFault;
use std::alloc::Global;
use struct_rows::is_union;
use tree_reads::Syntax;
use tree_reads::leaf_maps::LeafMap;

/// The numbers of entities and of tags by the nodes that declare them, and of which nodes something is known.
#[derive(Drop)]
pub struct Given {
    pub seen: LeafMap,
    pub entities: LeafMap,
    pub tags: LeafMap,
}

// One declaration more.
fn note(given: &mut Given, node: u32, meaning: Meaning) -> Result<(), CheckFault>
    ensures given { OnOk result ((list : List (ℕ × MeaningSpec)) →
        AreGiven given.old list → AreGiven given.new (list ++ (node, meaning) ∷ [])) }
    ensures memory { IsOkUnless result CheckFault.OutOfMemory }
{
    if given.seen.get(node).is_some() {
        return Ok(());
    }
    given.seen.add(node, 0)?;
    match meaning {
        Meaning::Entity(entity) => given.entities.add(node, entity)?,
        Meaning::Tag(tag) => given.tags.add(node, tag)?,
        Meaning::TypeName(_) => {}
        Meaning::Value(_) => {}
    }
    Ok(())
}

/// What some declarations give.
pub fn given_of(alloc: Global, list: &[(u32, Meaning)]) -> Result<Given, CheckFault>
    ensures given { IfOk result (λ given. AreGiven given list.now) }
    ensures memory { IsOkUnless result CheckFault.OutOfMemory }
{
    let mut given = Given {
        seen: LeafMap::new(alloc),
        entities: LeafMap::new(alloc),
        tags: LeafMap::new(alloc),
    };
    for entry in list {
        note(&mut given, entry.0, entry.1)?;
    }
    Ok(given)
}

// The number of the type of a tag, where there is that type.
fn type_of_tag(types: &TypeTable, is_union: bool, tag: u32) -> Result<Option<u32>, CheckFault>
    ensures typed { IfOk result (IsTypeId types.now is_union tag) }
    ensures within { IfOk result (IsIdIn types.now) }
    ensures memory { IsOkUnless result CheckFault.OutOfMemory }
{
    let term = if is_union {
        Term::Union(tag)
    } else {
        Term::Structure(tag)
    };
    match types.find(&term)? {
        Some(id) => Ok(Some(id.0)),
        None => Ok(None),
    }
}

// The number of the type of the tag of a specifier, where its first declaration is known.
fn known_type(
    types: &TypeTable,
    syntax: &Syntax,
    declaring: &Declaring,
    given: &Given,
    first: u32,
) -> Result<Option<u32>, CheckFault>
    ensures typed { IfOk result (λ id. (uses : List (ℕ × ℕ)) (list : List (ℕ × MeaningSpec)) →
        let s = source_in syntax.now uses in
        Declares s declaring.now →
        AreGiven given.now list →
        IsIdOf types.now (spec.is_union s first) (tag_known list (spec.tag_declared s first)) id) }
    ensures within { IfOk result (IsIdIn types.now) }
    ensures memory { IsOkUnless result CheckFault.OutOfMemory }
{
    match given.tags.get(tag_declared(syntax, declaring, first)) {
        Some(tag) => type_of_tag(types, is_union(syntax, first), tag),
        None => Ok(None),
    }
}

/// The first specifier of a tag.
pub(in crate::known_tags) fn first_of(firsts: &[u32], tag: u32) -> u32
    ensures { result ≡ slice_index firsts.now tag }
{
    match firsts.get(tag as usize) {
        Some(first) => *first,
        None => 0,
    }
}

/// The numbers in a table of the types of a source's tags, in order, where their declarations are known. Only memory may want.
pub fn known_types(
    alloc: Global,
    types: &TypeTable,
    numbered: &Numbered,
    declaring: &Declaring,
    given: &Given,
) -> Result<Vec<Option<u32>>, CheckFault>
    ensures typed { IfOk result (λ ids. (uses : List (ℕ × ℕ)) (list : List (ℕ × MeaningSpec)) →
        let s = source_in numbered.now.syntax uses in
        Declares s declaring.now →
        AreGiven given.now list →
        AreIdsOf s list types.now numbered.now.tags.firsts.items numbered.now.tags.count ids.items) }
    ensures within { IfOk result (λ ids. AreTagIds ids.items types.now) }
    ensures long { IfOk result (λ ids. length ids.items ≡ numbered.now.tags.count) }
    ensures memory { IsOkUnless result CheckFault.OutOfMemory }
{
    let mut ids = Vec::new(alloc);
    for tag in 0..numbered.tags.count {
        let first = first_of(numbered.tags.firsts.as_slice(), tag);
        let id = known_type(types, &numbered.syntax, declaring, given, first)?;
        ids.push(id)?;
    }
    Ok(ids)
}
