// A core tree of one unit in another.
ghost use Rattle.std.specs.Prelude.{◌≡◌, ◌<◌, ◌+◌, ℕ, Option, true, false, length, get_or, IfOk, IfSome, IsOkUnless, MatchOption};
ghost use Rattle.c_types.specs.Trees.{Ctype};
ghost use Rattle.core_nodes.specs.Standing.{core_at, IsReady, Builds};
ghost use Rattle.core_nodes.specs.kept_nodes.Keeps.{AllUnder};
ghost use Rattle.tree_reads.specs.leaf_maps.Numbers.{number_at};
ghost use Rattle.carried_trees.specs.Carried.{is_given_core};
ghost use Rattle.carried_trees.specs.Literals.{has_literal, IsTree};
ghost use Rattle.carried_trees.specs.carried_types.Terms.{AreTagIds, AreTypes, tag_type};

use crate::carried_types::{CarriedTypes, carried_types};
use crate::literals::literals_of;
use crate::nodes::carried_nodes;
use c_types::table::TypeTable;
use core_nodes::CheckFault;
use core_tree::node::Unit;
use std::alloc::Global;
use tree_reads::leaf_maps::LeafMap;

/// A tree that was carried into a unit: its node there, and its compound literals, each by the leaf that it had and its node there. The
/// entities of these have the next numbers of the unit, in this order.
#[derive(Drop)]
pub struct WholeTree {
    pub node: u32,
    pub literals: Vec<(u32, u32)>,
}

/// The types of a table in a unit, where the type of each tag stands in a list. Only memory may want.
pub(crate) fn add_types(
    alloc: Global,
    unit: &mut Unit,
    old: &TypeTable,
    tags: &[Option<u32>],
) -> Result<CarriedTypes, CheckFault>
    requires ready { IsReady unit.old }
    requires tags { AreTagIds tags.now unit.old.types }
    ensures ready { IsReady unit.new }
    ensures builds { Builds unit.old unit.new }
    ensures types { IfOk result (λ new.
        AreTypes (tag_type unit.old.types tags.now) old.now (length old.now.terms) new.ids.items new.given.items unit.new.types) }
    ensures nodes { unit.new.nodes.items ≡ unit.old.nodes.items }
    ensures memory { IsOkUnless result CheckFault.OutOfMemory }
{
    // (What every table keeps is told by its count.)
    let _count = unit.types.type_count();
    match carried_types(alloc, &mut unit.types, old, tags) {
        Ok(types) => Ok(types),
        Err(_) => Err(CheckFault::OutOfMemory),
    }
}

// The number of a node behind others, where it is flagged.
fn placed(flags: &[bool], from: u32, top: u32) -> Result<Option<u32>, CheckFault>
    requires top { top < length flags.now }
    ensures given { IfOk result (λ found.
        MatchOption found (get_or flags.now top false ≡ false) (λ i. get_or flags.now top false ≡ true)) }
    ensures is { IfOk result (λ found. IfSome found (λ i. i ≡ from + top)) }
    ensures memory { IsOkUnless result CheckFault.OutOfMemory }
{
    if !flags[top as usize] {
        return Ok(None);
    }
    match from.checked_add(top) {
        Some(place) => Ok(Some(place)),
        None => Err(CheckFault::OutOfMemory),
    }
}

// The number that a list's next element would have.
fn next_number(length: usize) -> Result<u32, CheckFault>
    ensures is { IfOk result (λ number. number ≡ length) }
    ensures memory { IsOkUnless result CheckFault.OutOfMemory }
{
    match u32::try_from(length) {
        Ok(number) => Ok(number),
        Err(_) => Err(CheckFault::OutOfMemory),
    }
}

/// Carries the nodes of a unit of one tree into another unit, in which entities have the numbers of a map, and types those of a list; its
/// compound literals get the next numbers of the unit's entities, in the order of their nodes. The tree there, of whose nodes alone the unit
/// has more; None exactly where the tree holds an entity without a number, a tag without a type, an initialiser of no compound literal in
/// it, or a statement that has entities. Only memory may want. The first unit is only fit to be dropped then, and after None, or want of
/// memory, so is the other.
pub(crate) fn carry(
    alloc: Global,
    unit: &mut Unit,
    walked: &mut Unit,
    top: u32,
    entities: &LeafMap,
    types: &CarriedTypes,
) -> Result<Option<WholeTree>, CheckFault>
    requires ready { IsReady unit.old }
    requires walked { IsReady walked.old }
    requires top { top < length walked.old.nodes.items }
    requires alone { AllUnder walked.old 0 top }
    requires types { (tag : ℕ → Option Ctype) × AreTypes tag walked.old.types (length walked.old.types.terms) types.now.ids.items
        types.now.given.items unit.old.types }
    ensures ready { IsReady unit.new }
    ensures builds { Builds unit.old unit.new }
    ensures tree { (tag : ℕ → Option Ctype) →
        AreTypes tag walked.old.types (length walked.old.types.terms) types.now.ids.items types.now.given.items unit.old.types →
        let core = core_at walked.old top in
        IfOk result (λ found. MatchOption found
        (is_given_core (number_at entities.now) (has_literal core) tag core ≡ false)
        (λ whole. IsTree (number_at entities.now) tag core unit.old unit.new whole.node whole.literals.items)) }
    ensures within { IfOk result (λ found. IfSome found (λ whole. whole.node < length unit.new.nodes.items)) }
    ensures only { IfOk result (λ found. IfSome found (λ whole. AllUnder unit.new (length unit.old.nodes.items) whole.node)) }
    ensures memory { IsOkUnless result CheckFault.OutOfMemory }
{
    let from = next_number(unit.nodes.len())?;
    let first = next_number(unit.entities.len())?;
    let own = literals_of(alloc, walked.nodes.as_slice(), from, first)?;
    let nodes = std::mem::replace(&mut walked.nodes, Vec::new(alloc));
    let flags = carried_nodes(alloc, unit, entities, &own.numbers, types, from, nodes)?;
    match placed(flags.as_slice(), from, top)? {
        Some(node) => Ok(Some(WholeTree {
            node,
            literals: own.list,
        })),
        None => Ok(None),
    }
}
