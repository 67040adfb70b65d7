// The instances of objects that live for the whole run, found by their objects.

ghost use Rattle.std.specs.Prelude.{◌≡◌, false, [], Some, IfOk, IfSome, if◌then◌else◌, slice_get};
ghost use Rattle.c_types.specs.declared.key.ObjectKey.{ObjectKey};
ghost use Rattle.core_tree.specs.declared.node.Node.{Node};
ghost use Rattle.core_tree.specs.Seen.{core_of};
ghost use Rattle.obj_space.specs.Found.{kept_for, same_object};
ghost use Rattle.ref_cells.specs.declared.cells.Cell.TheVariants.{Pointer};
ghost use Rattle.ref_mem.specs.Reads.{one_cell};
ghost use Rattle.ref_start.specs.Standing.{AreFirst, Names, IsFirstNamed};

use c_types::key::ObjectKey;
use c_types::term::OutOfMemory;
use core_tree::NodeKind;
use core_tree::trees::Trees;
use pta_base::Listing;
use ref_cells::cells::{Cell, Value};
use ref_cells::instance::Instance;
use ref_places::places::pair_of;
use row_numbers::objects::entity_key;
use std::alloc::Global;
use std::collections::BTreeMap;

/// The first instance of each object, by the object's kind and number.
pub type Standing = BTreeMap<(u32, u32), u32>;

// Keeps an instance for an object, in place of another one.
fn put(standing: &mut Standing, key: ObjectKey, i: u32) -> Result<(), OutOfMemory>
    ensures { IfOk result (λ done. (other : ObjectKey) → kept_for standing.new other
        ≡ (if same_object key other then Some i else kept_for standing.old other)) }
{
    let pair = pair_of(key);
    match standing.insert((pair.0, pair.1), i) {
        Ok(_) => Ok(()),
        Err(_) => Err(OutOfMemory),
    }
}

/// The first instance of each object of a memory.
pub fn standing_in(alloc: Global, memory: &[Instance]) -> Result<Standing, OutOfMemory>
    ensures { IfOk result (λ standing. AreFirst standing memory.now) }
{
    if memory.len() > u32::MAX as usize {
        return Err(OutOfMemory);
    }
    let mut standing = BTreeMap::new(alloc);
    let mut i = memory.len();
    while i > 0 {
        i -= 1;
        put(&mut standing, memory[i].key, i as u32)?;
    }
    Ok(standing)
}

/// The instance that is kept for an object. It takes no memory, and looks through no other instances.
pub fn first_of(standing: &Standing, key: ObjectKey) -> Option<u32>
    ensures { result ≡ kept_for standing.now key }
{
    let pair = pair_of(key);
    standing.get(&pair).copied()
}

/// The object that a node without operands names: an entity's, or a string's own (C11 6.5.1).
pub fn named_key(trees: &Trees<'_>, n: u32) -> Option<ObjectKey>
    ensures { IfSome result (λ key. (node : Node) × (slice_get trees.now.nodes.now n ≡ Some node) × Names (core_of trees.now) n node key) }
{
    let node = trees.nodes.get(n as usize)?;
    if node.children.as_slice().is_empty() {
        match &node.kind {
            NodeKind::Named(e) => Some(entity_key(trees.entities, *e)),
            NodeKind::Text(_) => Some(ObjectKey::Text(n)),
            _ => None,
        }
    } else {
        None
    }
}

/// The first instance of the object that a node without operands names.
pub fn first_named(trees: &Trees<'_>, standing: &Standing, n: u32) -> Option<u32>
    ensures { IfSome result (IsFirstNamed (core_of trees.now) standing.now n) }
{
    let key = named_key(trees, n)?;
    first_of(standing, key)
}

/// The place of an instance, as a value.
pub fn place_value(alloc: Global, i: u32) -> Result<Value, OutOfMemory>
    ensures { IfOk result (λ value. value ≡ one_cell (Pointer i [] false)) }
{
    let path = Listing::new(alloc);
    Value::one(
        alloc,
        Cell::Pointer {
            instance: i,
            path,
            past: false,
        },
    )
}
