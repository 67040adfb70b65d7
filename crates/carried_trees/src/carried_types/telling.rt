// Whether the members of tags have types that are given, before any is carried.
ghost use Rattle.std.specs.Prelude.{◌≡◌, ◌<◌, false, get_or, length, MatchBool};
ghost use Rattle.carried_trees.specs.carried_types.Told.{LacksFlag, IsPartUntold};

use crate::carried_types::completing::are_flagged;
use c_types::table::TypeTable;

// The flag of a tag.
fn flag_of(flags: &[bool], tag: u32) -> bool
    ensures { result ≡ get_or flags.now tag false }
{
    match flags.get(tag as usize) {
        Some(flag) => *flag,
        None => false,
    }
}

// Whether the types of a tag's members are given, where the tag is incomplete.
fn is_tag_told(types: &TypeTable, given: &[bool], incomplete: &[bool], tag: u32) -> bool
    requires tag { tag < types.now.tags }
    requires given { length given.now ≡ length types.now.terms }
    ensures { let lacks = LacksFlag types.now given.now incomplete.now tag in MatchBool result (lacks → ⊥) lacks }
{
    if !flag_of(incomplete, tag) {
        return true;
    }
    match types.members(tag) {
        Some(members) => are_flagged(given, members),
        None => true,
    }
}

/// Whether the types of all members of each incomplete tag of a table are given: false exactly where one isn't. The flags say which tags
/// are incomplete, and which types are given.
pub fn are_parts_told(types: &TypeTable, given: &[bool], incomplete: &[bool]) -> bool
    requires given { length given.now ≡ length types.now.terms }
    ensures { let untold = IsPartUntold types.now given.now incomplete.now types.now.tags in MatchBool result (untold → ⊥) untold }
{
    let count = types.tag_count();
    for tag in 0..count {
        if !is_tag_told(types, given, incomplete, tag) {
            return false;
        }
    }
    true
}
