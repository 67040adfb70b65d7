// The entities of compound literals (C11 6.5.2.5).
ghost use Rattle.std.specs.Prelude.{◌≡◌, ◌<◌, ◌++◌, ℕ, List, All, length, map, take, is_some, IfOk, OnOk, IsOkUnless};
ghost use Rattle.core_tree.specs.declared.node.Unit.{Unit as UnitSpec};
ghost use Rattle.c_senses.specs.Entities as spec;
ghost use Rattle.c_senses.specs.Right as right;
ghost use Rattle.c_senses.specs.Sense.{sense_in};
ghost use Rattle.c_results.specs.Standing.{senses_made};
ghost use Rattle.parsed_tree_laws.specs.sense_laws.Senses.{ChildrenFirst};
ghost use Rattle.tree_reads.specs.Sources.{source_read, source_in};
ghost use Rattle.c_check.specs.literal_entities.Entities as literals;
ghost use Rattle.c_check.specs.literal_entities.Entities.{literal_entity};

use c_results::Results;
use core_nodes::CheckFault;
use core_tree::node::{Entity, Linkage, Node, Storage};
use name_places::function_around;
use pta_base::Text;
use std::alloc::Global;
use tree_reads::{Syntax, place_of};

// Whether a leaf stands in the definition of a function; not where it isn't a node of the tree.
fn is_in_function(syntax: &Syntax, results: &Results, leaf: u32) -> bool
    requires first { ChildrenFirst (source_read syntax.now) }
    ensures { (u : UnitSpec) →
        result ≡ is_some (spec.function_around (source_read syntax.now) (sense_in (senses_made u results.now)) leaf) }
{
    if leaf as usize >= syntax.tree.nodes.len() {
        return false;
    }
    function_around(syntax, results, leaf).is_some()
}

// The storage of a compound literal: within a function that of its block.
fn literal_storage(syntax: &Syntax, results: &Results, leaf: u32) -> Storage
    requires first { ChildrenFirst (source_read syntax.now) }
    ensures { (u : UnitSpec) (uses : List (ℕ × ℕ)) →
        result ≡ right.literal_storage (source_in syntax.now uses) (senses_made u results.now) leaf }
{
    if is_in_function(syntax, results, leaf) {
        Storage::Automatic
    } else {
        Storage::Static
    }
}

// The entity of the function that a compound literal belongs to.
fn literal_owner(syntax: &Syntax, results: &Results, owner: Option<u32>, leaf: u32) -> Option<u32>
    requires first { ChildrenFirst (source_read syntax.now) }
    ensures { (u : UnitSpec) (uses : List (ℕ × ℕ)) →
        result ≡ literals.literal_owner (source_in syntax.now uses) (senses_made u results.now) owner leaf }
{
    if is_in_function(syntax, results, leaf) {
        owner
    } else {
        None
    }
}

// The entity of a compound literal, by its leaf and its node.
fn entity_of(
    alloc: Global,
    syntax: &Syntax,
    results: &Results,
    owner: Option<u32>,
    nodes: &[Node],
    literal: (u32, u32),
) -> Result<Entity, CheckFault>
    requires first { ChildrenFirst (source_read syntax.now) }
    requires node { literal.1 < length nodes.now }
    ensures entity { IfOk result (λ entity. (u : UnitSpec) (uses : List (ℕ × ℕ)) →
        entity ≡ literal_entity (source_in syntax.now uses) (senses_made u results.now) owner nodes.now literal) }
    ensures memory { IsOkUnless result CheckFault.OutOfMemory }
{
    let name = Text::copy_of(alloc, "")?;
    let node = &nodes[literal.1 as usize];
    Ok(Entity {
        name,
        unit: syntax.tree.unit,
        place: place_of(syntax, literal.0),
        ty: node.ty,
        linkage: Linkage::Local,
        storage: literal_storage(syntax, results, literal.0),
        owner: literal_owner(syntax, results, owner, literal.0),
        body: node.children.as_slice().first().copied(),
        used: None,
    })
}

/// Puts the entities of compound literals behind those of a unit, in order: an object without a name, of its node's type, with its place
/// for the whole run outside of functions and with its block within one, which owns it. Only memory may want, and then some of them may
/// stand there.
pub fn push_entities(
    alloc: Global,
    entities: &mut Vec<Entity>,
    syntax: &Syntax,
    results: &Results,
    owner: Option<u32>,
    nodes: &[Node],
    list: &[(u32, u32)],
) -> Result<(), CheckFault>
    requires first { ChildrenFirst (source_read syntax.now) }
    requires nodes { All (λ l. l.1 < length nodes.now) list.now }
    ensures added { OnOk result ((u : UnitSpec) (uses : List (ℕ × ℕ)) →
        entities.new.items ≡ entities.old.items
        ++ map (literal_entity (source_in syntax.now uses) (senses_made u results.now) owner nodes.now) list.now) }
    ensures kept { take (length entities.old.items) entities.new.items ≡ entities.old.items }
    ensures memory { IsOkUnless result CheckFault.OutOfMemory }
{
    for literal in list {
        let entity = entity_of(alloc, syntax, results, owner, nodes, *literal)?;
        entities.push(entity)?;
    }
    Ok(())
}
