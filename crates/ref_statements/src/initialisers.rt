// The row of an initialiser (C11 6.7.9).

ghost use Rattle.std.specs.Prelude.{◌≡◌, ℕ, ◌<◌, All, IfOk, OnErr, length, Some, slice_get};
ghost use Rattle.core_tree.specs.Seen.{core_of};
ghost use Rattle.ref_cells.specs.Answers.{Gives};
ghost use Rattle.ref_cells.specs.Places.{IsKnown, AreKnown};
ghost use Rattle.ref_places.specs.Places.{instance_of};
ghost use Rattle.c_types.specs.declared.key.ObjectKey.TheVariants.{Entity as EntityKey};
ghost use Rattle.ref_mem.specs.Writes.{initialised};
ghost use Rattle.ref_state.specs.Items.{top_values};
ghost use Rattle.ref_statements.specs.Initialisers.{initialise_row, initialised_at, part_of, parts, clears};
ghost use Rattle.ref_statements.specs.Made.{IsWorld};

use crate::rows::World;
use c_types::key::ObjectKey;
use c_types::term::OutOfMemory;
use core_tree::{Node, NodeKind};
use pta_base::Listing;
use ref_cells::cells::{Cell, MemFault, Path, Reason, Value, copy_path};
use ref_cells::instance::Instance;
use ref_elements::outcome::pointers_in;
use ref_mem::memory::Memory;
use ref_mem::{Initial, initialise};
use ref_places::places::instance_of;
use ref_state::frames::Frame;
use ref_state::lists::push;
use ref_state::values::value_in;
use ref_values::values::lacks;

// One part of an initialiser: a path with the value for it, of the value's type.
fn part(
    world: &World<'_>,
    path: &Path,
    v: u32,
    values: &[(u32, Value)],
) -> Result<Initial, OutOfMemory>
    requires world { IsWorld world.now }
    requires node { v < length world.now.trees.nodes.now }
    ensures { IfOk result (λ part. part ≡ part_of (core_of world.now.trees) path.now v values.now) }
{
    let value = value_in(world.alloc, values, v)?;
    let path = copy_path(world.alloc, path.as_slice())?;
    Ok(Initial {
        path,
        ty: world.trees.nodes[v as usize].ty,
        cells: value.cells,
    })
}

// The parts of an initialiser.
fn parts(
    world: &World<'_>,
    paths: &[Path],
    children: &[u32],
    values: &[(u32, Value)],
) -> Result<Vec<Initial>, OutOfMemory>
    requires world { IsWorld world.now }
    requires children { All (λ c. c < length world.now.trees.nodes.now) children.now }
    ensures { IfOk result (λ list. list.items ≡ parts (core_of world.now.trees) paths.now children.now values.now) }
{
    let mut list = Vec::new(world.alloc);
    for k in 0..paths.len() {
        if k >= children.len() {
            return Ok(list);
        }
        let one = part(world, &paths[k], children[k], values)?;
        push(&mut list, one)?;
    }
    Ok(list)
}

/// Whether all of the object is zero before: unless one value is for the whole of it.
pub fn clears(paths: &[Path]) -> bool
    ensures { result ≡ clears paths.now }
{
    match paths {
        [path] => !path.as_slice().is_empty(),
        _ => true,
    }
}

// An instance with the parts of an initialiser.
fn with_parts(
    world: &World<'_>,
    inst: &Instance,
    clear: bool,
    parts: &[Initial],
) -> Result<Instance, OutOfMemory>
    requires inst { IsKnown (length world.now.trees.types.now.terms) inst.now.ty }
    requires parts { All (λ part. part.ty.0 < length world.now.trees.types.now.terms) parts.now }
    ensures { IfOk result (λ after. after ≡ initialised world.now.trees.types.now clear parts.now inst.now) }
{
    let mut after = inst.copy(world.alloc)?;
    initialise(world.alloc, world.trees.types, &mut after, clear, parts)?;
    Ok(after)
}

// An object gets its initialiser, where it has an instance. A refusal leaves the memory and the frame as they were.
fn initialise_object(
    world: &World<'_>,
    memory: &mut Memory,
    frame: &mut Frame,
    entity: u32,
    paths: &[Path],
    children: &[u32],
) -> Result<Listing<(Cell, Cell)>, MemFault>
    requires world { IsWorld world.now }
    requires memory { AreKnown (length world.now.trees.types.now.terms) memory.old }
    requires children { All (λ c. c < length world.now.trees.nodes.now) children.now }
    ensures row { Gives (λ stores. record { memory = memory.new; frame = frame.new; stores = stores }) result
        (initialised_at (core_of world.now.trees) memory.old frame.old
        (instance_of memory.old frame.old.instances (EntityKey entity)) paths.now
        (parts (core_of world.now.trees) paths.now children.now (top_values frame.old.items))) }
    ensures err { OnErr result ((memory.new ≡ memory.old) × (frame.new ≡ frame.old)) }
{
    if memory.instances().len() > 0xffff_ffff {
        return Err(MemFault::OutOfMemory);
    }
    let key = ObjectKey::Entity(entity);
    let Some(i) = instance_of(memory.instances(), frame.instances.as_slice(), key) else {
        return Err(MemFault::Stop(Reason::Mismatch));
    };
    let list = parts(world, paths, children, frame.items.values())?;
    let inst = &memory.instances()[i as usize];
    let after = with_parts(world, inst, clears(paths), list.as_slice())?;
    let stores = pointers_in(world.alloc, i, after.cells.as_slice())?;
    memory.set(i, after);
    frame.items.pop();
    Ok(stores)
}

/// The row of an initialiser whose values are all there: its object's instance gets them. It gives the pointers that it put
/// into cells. A refusal leaves the memory and the frame as they were.
#[tactic(auto, unfolding(crate::specs::Initialisers::initialise_row))]
pub fn initialise_row(
    world: &World<'_>,
    memory: &mut Memory,
    frame: &mut Frame,
    n: u32,
    node: &Node,
) -> Result<Listing<(Cell, Cell)>, MemFault>
    requires world { IsWorld world.now }
    requires memory { AreKnown (length world.now.trees.types.now.terms) memory.old }
    requires node { slice_get world.now.trees.nodes.now n ≡ Some node.now }
    ensures row { Gives (λ stores. record { memory = memory.new; frame = frame.new; stores = stores }) result
        (initialise_row (core_of world.now.trees) memory.old frame.old node.now (top_values frame.old.items)) }
    ensures err { OnErr result ((memory.new ≡ memory.old) × (frame.new ≡ frame.old)) }
{
    let children = node.children.as_slice();
    if lacks(world.alloc, &world.trees, frame.items.values(), n, children)? {
        return Err(MemFault::Stop(Reason::Unset));
    }
    let NodeKind::Initialise { entity, paths } = &node.kind else {
        return Err(MemFault::Stop(Reason::Mismatch));
    };
    initialise_object(world, memory, frame, *entity, paths.as_slice(), children)
}
