// A tree of one unit in another, with the members of its tags.
ghost use Rattle.std.specs.Prelude.{◌≡◌, ◌<◌, ℕ, List, Option, length, IfOk, IfSome, IsOkUnless, MatchOption};
ghost use Rattle.c_types.specs.Table.{members_in};
ghost use Rattle.c_inits.specs.Made.{Part};
ghost use Rattle.core_nodes.specs.Standing.{core_at, parts_in, IsReady};
ghost use Rattle.core_nodes.specs.kept_nodes.Keeps.{AllUnder};
ghost use Rattle.tree_reads.specs.leaf_maps.Numbers.{number_at};
ghost use Rattle.carried_trees.specs.carried_types.Terms.{AreTagIds, tag_type};
ghost use Rattle.carried_trees.specs.carried_types.Members.{AreTagged};
ghost use Rattle.carried_trees.specs.Extends.{Extends, IsMissing, IsWhole};

use crate::carrying::{WholeTree, add_types, carry};
use crate::tags::complete_in;
use core_nodes::CheckFault;
use core_nodes::kept_nodes::keep_under;
use core_tree::node::Unit;
use std::alloc::Global;
use tree_reads::leaf_maps::LeafMap;

/// Carries the tree of a node of one unit into another, in which entities have the numbers of a map, and tags the types of a list; each
/// of these tags that has members in the first unit, and none in the other, gets them there, with their types carried. The compound
/// literals in the tree get the next numbers of the unit's entities, in the order of their nodes; the caller makes these entities. The
/// tree there, of whose nodes alone the unit has more; None exactly where it holds an entity without a number, a tag without a type, an
/// initialiser of no compound literal in it, or a statement that has entities, or where a tag that would get members has one with a tag
/// without a type. Only memory may want; a tag that has another keyword there counts as such. The first unit is only fit to be dropped
/// then, and after None, or want of memory, so is the other.
pub fn carry_whole(
    alloc: Global,
    unit: &mut Unit,
    walked: &mut Unit,
    top: u32,
    entities: &LeafMap,
    tags: &[Option<u32>],
) -> Result<Option<WholeTree>, CheckFault>
    requires ready { IsReady unit.old }
    requires walked { IsReady walked.old }
    requires top { top < length walked.old.nodes.items }
    requires tags { AreTagIds tags.now unit.old.types }
    requires tagged { AreTagged (tag_type unit.old.types tags.now) }
    ensures ready { IsReady unit.new }
    ensures extends { Extends unit.old unit.new }
    ensures tags { unit.new.types.tags ≡ unit.old.types.tags }
    ensures answer { (members : ℕ → Option (List Part)) →
        ((k : ℕ) → members k ≡ parts_in walked.old.types (members_in walked.old.types k)) →
        IfOk result (λ found. MatchOption found
        (IsMissing (number_at entities.now) (tag_type unit.old.types tags.now) members (core_at walked.old top) unit.old)
        (λ whole. IsWhole (number_at entities.now) (tag_type unit.old.types tags.now) members (core_at walked.old top) unit.old unit.new
        whole.node whole.literals.items)) }
    ensures within { IfOk result (λ found. IfSome found (λ whole. whole.node < length unit.new.nodes.items)) }
    ensures only { IfOk result (λ found. IfSome found (λ whole. AllUnder unit.new (length unit.old.nodes.items) whole.node)) }
    ensures memory { IsOkUnless result CheckFault.OutOfMemory }
{
    let node = keep_under(alloc, walked, 0, top)?;
    let types = add_types(alloc, unit, &walked.types, tags)?;
    if !complete_in(alloc, unit, &walked.types, tags, &types)? {
        return Ok(None);
    }
    carry(alloc, unit, walked, node, entities, &types)
}
