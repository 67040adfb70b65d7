// The memory in which a run begins (C11 6.7.9).

ghost use Rattle.std.specs.Prelude.{◌≡◌, ◌<◌, ◌^◌, List, All, IfOk, OnOk, length, slice_get};
ghost use Rattle.core_tree.specs.declared.node.Node.{Node};
ghost use Rattle.core_tree.specs.Range.{InRange};
ghost use Rattle.core_tree.specs.Seen.{core_of};
ghost use Rattle.core_tree.specs.Typed.{CoreTrees};
ghost use Rattle.ref_cells.specs.declared.instance.Instance.{Instance};
ghost use Rattle.ref_cells.specs.Places.{IsKnown, AreKnown};
ghost use Rattle.ref_start.specs.Objects.{object_types};
ghost use Rattle.ref_start.specs.Fixed.{value_at, PartsGiven};
ghost use Rattle.ref_start.specs.Standing.{AreFirst};
ghost use Rattle.ref_start.specs.Start.{part_of, parts_of, filled_at, filled_by, filled_if, all_filled, filled_over, start_memory};

use crate::fixed::{cells_by, fixed_values, static_body};
use crate::objects::static_objects;
use crate::standing::{Standing, first_of, standing_in};
use c_types::key::ObjectKey;
use c_types::term::{OutOfMemory, PathStep};
use core_tree::trees::Trees;
use core_tree::{Node, NodeKind};
use obj_space::Space;
use pta_base::Listing;
use ref_cells::cells::{Value, copy_path};
use ref_mem::memory::Memory;
use ref_mem::{Initial, initialise};
use ref_state::lists::push;
use ref_state::ref_types::LibraryTypes;
use std::alloc::Global;

// A part of an initialiser.
fn part_of(
    alloc: Global,
    nodes: &[Node],
    table: &[Option<Value>],
    path: &[PathStep],
    v: u32,
) -> Result<Initial, OutOfMemory>
    requires { v < length nodes.now }
    ensures { IfOk result (λ part. part ≡ part_of nodes.now (value_at table.now) path.now v) }
{
    Ok(Initial {
        path: copy_path(alloc, path)?,
        ty: nodes[v as usize].ty,
        cells: cells_by(alloc, table, v)?,
    })
}

// The parts of an initialiser.
fn parts_of(
    alloc: Global,
    nodes: &[Node],
    table: &[Option<Value>],
    paths: &[Listing<PathStep>],
    children: &[u32],
) -> Result<Vec<Initial>, OutOfMemory>
    requires { All (λ c. c < length nodes.now) children.now }
    ensures { IfOk result (λ parts. parts.items ≡ parts_of nodes.now (value_at table.now) paths.now children.now) }
{
    let mut parts = Vec::new(alloc);
    for i in 0..paths.len() {
        if i >= children.len() {
            return Ok(parts);
        }
        let part = part_of(alloc, nodes, table, paths[i].as_slice(), children[i])?;
        push(&mut parts, part)?;
    }
    Ok(parts)
}

// An instance gets an initialiser's parts.
fn fill(
    alloc: Global,
    trees: &Trees<'_>,
    memory: &mut Memory,
    i: u32,
    parts: &[Initial],
) -> Result<(), OutOfMemory>
    requires memory { AreKnown (length trees.now.types.now.terms) memory.old }
    requires parts { All (λ part. part.ty.0 < length trees.now.types.now.terms) parts.now }
    ensures { OnOk result (memory.new ≡ filled_at (core_of trees.now) memory.old (Some i) parts.now) }
{
    let Some(inst) = memory.instances().get(i as usize) else {
        return Ok(());
    };
    let mut inst = inst.copy(alloc)?;
    initialise(alloc, trees.types, &mut inst, false, parts)?;
    memory.set(i, inst);
    Ok(())
}

// A static object gets its initialiser, of that node.
fn fill_by(
    alloc: Global,
    trees: &Trees<'_>,
    standing: &Standing,
    memory: &mut Memory,
    table: &[Option<Value>],
    n: u32,
) -> Result<(), OutOfMemory>
    requires range { InRange (core_of trees.now) }
    requires memory { AreKnown (length trees.now.types.now.terms) memory.old }
    requires standing { AreFirst standing.now memory.old }
    ensures { (objects : List Instance) → PartsGiven (core_of trees.now) objects table.now n →
        OnOk result (memory.new ≡ filled_if (core_of trees.now) objects memory.old (Some n)) }
{
    let Some(node) = trees.nodes.get(n as usize) else {
        return Ok(());
    };
    let NodeKind::Initialise { entity, paths } = &node.kind else {
        return Ok(());
    };
    let children = node.children.as_slice();
    let parts = parts_of(alloc, trees.nodes, table, paths.as_slice(), children)?;
    match first_of(standing, ObjectKey::Entity(*entity)) {
        Some(i) => fill(alloc, trees, memory, i, parts.as_slice()),
        None => Ok(()),
    }
}

// Each static object gets its initialiser. A value whose computation would stop leaves its cell unset.
fn fill_all(alloc: Global, trees: &Trees<'_>, memory: &mut Memory) -> Result<(), OutOfMemory>
    requires range { InRange (core_of trees.now) }
    requires memory { AreKnown (length trees.now.types.now.terms) memory.old }
    ensures { OnOk result (memory.new ≡ filled_over (core_of trees.now) memory.old) }
{
    let standing = standing_in(alloc, memory.instances())?;
    let table = fixed_values(alloc, trees, &standing, memory)?;
    for entity in trees.entities {
        match static_body(entity) {
            Some(body) => fill_by(alloc, trees, &standing, memory, table.as_slice(), body)?,
            None => {}
        }
    }
    Ok(())
}

/// The memory of a program that starts: the objects that live for the whole run, with their initialisers. The trees are over
/// the machine's own types, of which `types` are those of the library's objects.
#[tactic(auto, unfolding(crate::specs::Start::start_memory))]
pub fn start_memory(
    alloc: Global,
    trees: &Trees<'_>,
    types: LibraryTypes,
    space: &Space,
) -> Result<Memory, OutOfMemory>
    requires range { InRange (core_of trees.now) }
    requires library { All (IsKnown (length trees.now.types.now.terms)) (object_types types) }
    ensures memory { IfOk result (λ memory. memory ≡ start_memory (core_of trees.now) space.now types) }
    ensures known { IfOk result (λ memory. AreKnown (length trees.now.types.now.terms) memory) }
{
    let mut memory = static_objects(alloc, trees, types, space)?;
    fill_all(alloc, trees, &mut memory)?;
    Ok(memory)
}
