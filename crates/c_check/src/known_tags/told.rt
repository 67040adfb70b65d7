// Which tags are told, before the tree of an expression is carried.
ghost use Rattle.std.specs.Prelude.{◌≡◌, ◌||◌, ◌&&◌, ℕ, List, is_some, length, slice_index, IfOk, IsOkUnless};
ghost use Rattle.c_senses.specs.Tags as spec;
ghost use Rattle.tree_reads.specs.Sources.{source_read, source_in};
ghost use Rattle.c_tags.specs.tag_numbers.Firsts.{Declares};
ghost use Rattle.carried_trees.specs.carried_types.Told.{IsMark, AreMarks};
ghost use Rattle.c_check.specs.declared.known_tags.known.Meaning.{Meaning as MeaningSpec};
ghost use Rattle.c_check.specs.known_tags.Known.{tag_known};
ghost use Rattle.c_check.specs.known_tags.Given.{AreGiven};
ghost use Rattle.c_check.specs.known_tags.Own.{AreUnder};
ghost use Rattle.c_check.specs.known_tags.Told.{AreTold};
ghost use Rattle.c_check.specs.known_tags.Told as told;

use crate::known_tags::given::{Given, first_of};
use crate::known_tags::own::{id_at, is_own};
use c_tags::tag_numbers::{Declaring, Numbered, tag_declared};
use c_types::table::TypeTable;
use core_nodes::CheckFault;
use std::alloc::Global;

/// A mark for each tag that has a type in the unit, or gets one, and a flag for each of these that has no members there.
#[derive(Drop)]
pub struct ToldTags {
    pub marks: Vec<Option<u32>>,
    pub incomplete: Vec<bool>,
}

// The mark of a tag.
fn mark_of(own: bool, id: Option<u32>) -> Option<u32>
    ensures mark { IsMark result }
    ensures is { is_some result ≡ (own || is_some id) }
{
    if own {
        return Some(0);
    }
    match id {
        Some(_) => Some(0),
        None => None,
    }
}

// Whether a known tag has no members in a table.
fn lacks_members(types: &TypeTable, number: Option<u32>) -> bool
    ensures { result ≡ told.lacks_members types.now number }
{
    // (What every table keeps is told by its count.)
    let _count = types.type_count();
    let Some(tag) = number else {
        return false;
    };
    if tag >= types.tag_count() {
        return true;
    }
    match types.members(tag) {
        Some(_) => false,
        None => true,
    }
}

// The flag of a tag.
fn flag_of(
    types: &TypeTable,
    numbered: &Numbered,
    declaring: &Declaring,
    given: &Given,
    own: bool,
    id: Option<u32>,
    first: u32,
) -> bool
    ensures { (uses : List (ℕ × ℕ)) (list : List (ℕ × MeaningSpec)) →
        let s = source_in numbered.now.syntax uses in
        Declares s declaring.now →
        AreGiven given.now list →
        result ≡ (own || (is_some id && told.lacks_members types.now (tag_known list (spec.tag_declared s first)))) }
{
    let tag = given
        .tags
        .get(tag_declared(&numbered.syntax, declaring, first));
    own || (id.is_some() && lacks_members(types, tag))
}

/// The marks and flags of all tags, in order, by the numbers of the types that are known. Only memory may want.
pub fn told_tags(
    alloc: Global,
    types: &TypeTable,
    numbered: &Numbered,
    declaring: &Declaring,
    given: &Given,
    flags: &[bool],
    known: &[Option<u32>],
) -> Result<ToldTags, CheckFault>
    ensures marks { IfOk result (λ told. AreMarks told.marks.items) }
    ensures told { IfOk result (λ told. (uses : List (ℕ × ℕ)) (list : List (ℕ × MeaningSpec)) (node : ℕ) →
        let s = source_in numbered.now.syntax uses in
        Declares s declaring.now →
        AreGiven given.now list →
        AreUnder (source_read numbered.now.syntax) node flags.now →
        AreTold s (slice_index numbered.now.tags.firsts.items) node list types.now known.now numbered.now.tags.count
        told.marks.items told.incomplete.items) }
    ensures long { IfOk result (λ told. length told.marks.items ≡ numbered.now.tags.count) }
    ensures same { IfOk result (λ told. length told.incomplete.items ≡ numbered.now.tags.count) }
    ensures memory { IsOkUnless result CheckFault.OutOfMemory }
{
    let mut marks = Vec::new(alloc);
    let mut incomplete = Vec::new(alloc);
    for tag in 0..numbered.tags.count {
        let first = first_of(numbered.tags.firsts.as_slice(), tag);
        let own = is_own(numbered, declaring, given, flags, first);
        let before = id_at(known, tag);
        let mark = mark_of(own, before);
        let flag = flag_of(types, numbered, declaring, given, own, before, first);
        marks.push(mark)?;
        incomplete.push(flag)?;
    }
    Ok(ToldTags { marks, incomplete })
}
