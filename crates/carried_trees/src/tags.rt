// New tags in a unit, and the members of tags.
ghost use Rattle.std.specs.Prelude.{◌≡◌, ◌<◌, ◌+◌, ℕ, List, Option, true, false, length, IfOk, OnOk, IsOkUnless};
ghost use Rattle.c_types.specs.Table.{type_of, members_in};
ghost use Rattle.c_inits.specs.Made.{Part};
ghost use Rattle.c_inits.specs.Tables.{tagged};
ghost use Rattle.core_nodes.specs.Standing.{IsReady, parts_in};
ghost use Rattle.carried_trees.specs.carried_types.Terms.{AreTagIds, AreTypes, tag_type};
ghost use Rattle.carried_trees.specs.carried_types.Members.{AreTagged};
ghost use Rattle.carried_trees.specs.Extends.{Extends, SameParts, AreFilled, LacksPart};

use crate::carried_types::{CarriedTypes, complete_tags, open_tag};
use c_types::table::TypeTable;
use core_nodes::CheckFault;
use core_tree::node::Unit;
use std::alloc::Global;

/// A new tag of a unit, of a structure or union without members: its number, and that of its type. Only memory may want, and then the
/// unit may have the tag without the type.
pub fn open_in(unit: &mut Unit, is_union: bool) -> Result<(u32, u32), CheckFault>
    requires ready { IsReady unit.old }
    ensures ready { IsReady unit.new }
    ensures extends { Extends unit.old unit.new }
    ensures parts { SameParts unit.old unit.new }
    ensures nodes { unit.new.nodes.items ≡ unit.old.nodes.items }
    ensures number { IfOk result (λ r. r.0 ≡ unit.old.types.tags) }
    ensures typed { IfOk result (λ r. type_of unit.new.types r.1 ≡ tagged is_union r.0) }
    ensures within { IfOk result (λ r. r.1 < length unit.new.types.terms) }
    ensures tags { OnOk result (unit.new.types.tags ≡ unit.old.types.tags + 1) }
    ensures memory { IsOkUnless result CheckFault.OutOfMemory }
{
    // (What every table keeps is told by its count.)
    let _count = unit.types.type_count();
    match open_tag(&mut unit.types, is_union) {
        Ok(opened) => Ok(opened),
        Err(_) => Err(CheckFault::OutOfMemory),
    }
}

/// Gives each tag of a table that has a type in a unit its members there, with their types carried, where it has none there yet. False
/// where a member of one of these has a type that isn't given; then, as after want of memory, tags before it may have theirs. A tag whose
/// keyword differs in the unit counts as want of memory.
pub(crate) fn complete_in(
    alloc: Global,
    unit: &mut Unit,
    walked: &TypeTable,
    tags: &[Option<u32>],
    types: &CarriedTypes,
) -> Result<bool, CheckFault>
    requires ready { IsReady unit.old }
    requires ids { AreTagIds tags.now unit.old.types }
    requires tagged { AreTagged (tag_type unit.old.types tags.now) }
    requires carried { AreTypes (tag_type unit.old.types tags.now) walked.now (length walked.now.terms) types.now.ids.items
        types.now.given.items unit.old.types }
    ensures ready { IsReady unit.new }
    ensures extends { Extends unit.old unit.new }
    ensures nodes { unit.new.nodes.items ≡ unit.old.nodes.items }
    ensures terms { unit.new.types.terms ≡ unit.old.types.terms }
    ensures tags { unit.new.types.tags ≡ unit.old.types.tags }
    ensures filled { IfOk result (λ ok. (members : ℕ → Option (List Part)) →
        ((k : ℕ) → members k ≡ parts_in walked.now (members_in walked.now k)) →
        ok ≡ true → AreFilled (tag_type unit.old.types tags.now) members unit.old unit.new) }
    ensures lacks { IfOk result (λ ok. (members : ℕ → Option (List Part)) →
        ((k : ℕ) → members k ≡ parts_in walked.now (members_in walked.now k)) →
        ok ≡ false → LacksPart (tag_type unit.old.types tags.now) members unit.old) }
    ensures memory { IsOkUnless result CheckFault.OutOfMemory }
{
    // (What every table keeps is told by its count.)
    let _count = unit.types.type_count();
    match complete_tags(alloc, &mut unit.types, walked, tags, types) {
        Ok(all) => Ok(all),
        Err(_) => Err(CheckFault::OutOfMemory),
    }
}
