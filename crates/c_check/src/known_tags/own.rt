// The tags that an expression itself declares.
ghost use Rattle.std.specs.Prelude.{◌≡◌, ◌<◌, ◌+◌, ◌++◌, ℕ, List, length, slice_index, IfOk, OnOk, IsOkUnless};
ghost use Rattle.c_inits.specs.Tables.{tagged};
ghost use Rattle.c_senses.specs.Tags as spec;
ghost use Rattle.core_nodes.specs.Standing.{IsReady};
ghost use Rattle.tree_reads.specs.Sources.{source_read, source_in};
ghost use Rattle.c_tags.specs.tag_numbers.Firsts.{Declares};
ghost use Rattle.carried_trees.specs.carried_types.Terms.{AreTagIds, IsIdIn};
ghost use Rattle.carried_trees.specs.Extends.{Extends, SameParts};
ghost use Rattle.c_check.specs.declared.known_tags.known.Meaning.{Meaning as MeaningSpec};
ghost use Rattle.c_check.specs.known_tags.Given.{AreGiven};
ghost use Rattle.c_check.specs.known_tags.Own as own;
ghost use Rattle.c_check.specs.known_tags.Own.{AreUnder, AreOpened, IsOpened};

use crate::known_tags::given::{Given, first_of};
use crate::known_tags::known::Meaning;
use c_tags::tag_numbers::{Declaring, Numbered, tag_declared};
use carried_trees::open_in;
use core_nodes::CheckFault;
use core_tree::node::Unit;
use std::alloc::Global;
use struct_rows::is_union;

/// The numbers of the types of all tags, where they have one, and the tags that are an expression's own: the node of the declaration of
/// each with its number.
#[derive(Drop)]
pub struct OwnTags {
    pub ids: Vec<Option<u32>>,
    pub pairs: Vec<(u32, Meaning)>,
}

/// The flag of a node.
pub(in crate::known_tags) fn flag_at(flags: &[bool], node: u32) -> bool
    ensures { result ≡ own.flag_at flags.now node }
{
    match flags.get(node as usize) {
        Some(flag) => *flag,
        None => false,
    }
}

/// The number of the type of a tag.
pub(in crate::known_tags) fn id_at(ids: &[Option<u32>], tag: u32) -> Option<u32>
    ensures { result ≡ own.id_at ids.now tag }
{
    match ids.get(tag as usize) {
        Some(id) => *id,
        None => None,
    }
}

/// Whether the tag of a first specifier is the expression's own.
pub(in crate::known_tags) fn is_own(
    numbered: &Numbered,
    declaring: &Declaring,
    given: &Given,
    flags: &[bool],
    first: u32,
) -> bool
    ensures { (uses : List (ℕ × ℕ)) (list : List (ℕ × MeaningSpec)) (node : ℕ) →
        let s = source_in numbered.now.syntax uses in
        Declares s declaring.now →
        AreGiven given.now list →
        AreUnder (source_read numbered.now.syntax) node flags.now → result ≡ own.is_own_first s node list first }
{
    flag_at(flags, first)
        && given
            .seen
            .get(tag_declared(&numbered.syntax, declaring, first))
            .is_none()
}

// The number of the type of a tag, which is opened in the unit where it is the expression's own.
fn next_id(
    unit: &mut Unit,
    pairs: &mut Vec<(u32, Meaning)>,
    numbered: &Numbered,
    declaring: &Declaring,
    is_own: bool,
    first: u32,
    known: Option<u32>,
) -> Result<Option<u32>, CheckFault>
    requires ready { IsReady unit.old }
    requires known { IsIdIn unit.old.types known }
    ensures ready { IsReady unit.new }
    ensures extends { Extends unit.old unit.new }
    ensures parts { SameParts unit.old unit.new }
    ensures nodes { unit.new.nodes.items ≡ unit.old.nodes.items }
    ensures within { IfOk result (IsIdIn unit.new.types) }
    ensures opened { IfOk result (λ id.
        IsOpened is_own unit.new.types (tagged (spec.is_union (source_read numbered.now.syntax) first) unit.old.types.tags) known id) }
    ensures pairs { (uses : List (ℕ × ℕ)) →
        let s = source_in numbered.now.syntax uses in
        Declares s declaring.now →
        OnOk result (pairs.new.items ≡ pairs.old.items ++ own.pair_if is_own (spec.tag_declared s first) unit.old.types.tags) }
    ensures tags { OnOk result (unit.new.types.tags + length pairs.old.items ≡ unit.old.types.tags + length pairs.new.items) }
    ensures memory { IsOkUnless result CheckFault.OutOfMemory }
{
    if !is_own {
        return Ok(known);
    }
    let opened = open_in(unit, is_union(&numbered.syntax, first))?;
    let declared = tag_declared(&numbered.syntax, declaring, first);
    pairs.push((declared, Meaning::Tag(opened.0)))?;
    Ok(Some(opened.1))
}

/// Opens in a unit the tags that an expression itself declares: those whose first specifier stands under the expression's node, where
/// nothing is known of the node that declares the tag. They get the unit's next numbers, in the order of their first specifiers, and have
/// no members yet; the types of the other tags are those of a list. Only memory may want.
pub fn own_types(
    alloc: Global,
    unit: &mut Unit,
    numbered: &Numbered,
    declaring: &Declaring,
    given: &Given,
    flags: &[bool],
    known: &[Option<u32>],
) -> Result<OwnTags, CheckFault>
    requires ready { IsReady unit.old }
    requires known { AreTagIds known.now unit.old.types }
    ensures ready { IsReady unit.new }
    ensures extends { Extends unit.old unit.new }
    ensures parts { SameParts unit.old unit.new }
    ensures nodes { unit.new.nodes.items ≡ unit.old.nodes.items }
    ensures within { IfOk result (λ tags. AreTagIds tags.ids.items unit.new.types) }
    ensures long { IfOk result (λ tags. length tags.ids.items ≡ numbered.now.tags.count) }
    ensures opened { IfOk result (λ tags. (uses : List (ℕ × ℕ)) (list : List (ℕ × MeaningSpec)) (node : ℕ) →
        let s = source_in numbered.now.syntax uses in
        Declares s declaring.now →
        AreGiven given.now list →
        AreUnder (source_read numbered.now.syntax) node flags.now →
        AreOpened s (slice_index numbered.now.tags.firsts.items) node list unit.old.types.tags unit.new.types known.now
        numbered.now.tags.count tags.ids.items tags.pairs.items) }
    ensures tags { IfOk result (λ tags. unit.new.types.tags ≡ unit.old.types.tags + length tags.pairs.items) }
    ensures memory { IsOkUnless result CheckFault.OutOfMemory }
{
    let mut ids = Vec::new(alloc);
    let mut pairs = Vec::new(alloc);
    for tag in 0..numbered.tags.count {
        let first = first_of(numbered.tags.firsts.as_slice(), tag);
        let own = is_own(numbered, declaring, given, flags, first);
        let before = id_at(known, tag);
        let id = next_id(unit, &mut pairs, numbered, declaring, own, first, before)?;
        ids.push(id)?;
    }
    Ok(OwnTags { ids, pairs })
}
