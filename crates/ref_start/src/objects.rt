// The objects that live for the whole run, before any initialiser (C11 5.1.2, 6.2.4p3, 6.7.9p10).

ghost use Rattle.std.specs.Prelude.{◌≡◌, ◌<◌, ◌∷◌, ◌++◌, [], Some, false, IfOk, OnOk, OnErr, slice_get};
ghost use Rattle.std.specs.List.{cons_option};
ghost use Rattle.c_types.specs.declared.term.PathStep.TheVariants.{Index};
ghost use Rattle.core_tree.specs.Range.{InRange};
ghost use Rattle.core_tree.specs.Seen.{core_of};
ghost use Rattle.ref_cells.specs.declared.cells.Cell.TheVariants.{Pointer};
ghost use Rattle.ref_mem.specs.Writes.{changed};
ghost use Rattle.ref_state.specs.ref_types.Types.{type_in};
ghost use Rattle.ref_start.specs.Objects.{object_types, object_with, cells_from, characters, text_object, entity_object};
ghost use Rattle.ref_start.specs.Objects.{literal_object, object_of, is_new, object_at, objects_after, pointed};
ghost use Rattle.ref_start.specs.Objects.{library_pointed, static_objects};

use c_types::key::ObjectKey;
use c_types::term::{OutOfMemory, PathStep, TypeId};
use core_tree::trees::Trees;
use core_tree::{NodeKind, Storage};
use obj_space::Space;
use pta_base::Listing;
use ref_cells::cells::{Cell, Cells, push_entry};
use ref_cells::instance::Instance;
use ref_cells::numbers::as_character;
use ref_elements::objects::object_at as instance_at;
use ref_mem::memory::Memory;
use ref_places::places::same_object;
use ref_state::lists::push;
use ref_state::ref_types::LibraryTypes;
use std::alloc::Global;

// The type of a library object, none for a blob.
fn library_type(types: LibraryTypes, position: u32) -> Option<TypeId>
    ensures { result ≡ type_in (slice_get (object_types types) position) }
{
    let list = [
        Some(types.text),
        Some(types.text),
        None,
        Some(types.pointer),
        Some(types.pointer),
        Some(types.pointer),
        Some(types.number),
        Some(types.pointer),
        Some(types.classes),
        Some(types.arguments),
        Some(types.argument),
    ];
    match list.get(position as usize) {
        Some(ty) => *ty,
        None => None,
    }
}

// An object that lives, whose cells are these, and zero or null where none is listed.
fn object_with(key: ObjectKey, ty: Option<TypeId>, cells: Cells) -> Instance
    ensures { result ≡ object_with key ty cells }
{
    Instance {
        key,
        live: true,
        ty,
        bytes: 0,
        zero: true,
        cells,
    }
}

/// Cells one after another, from index 0 on.
pub fn cells_of(alloc: Global, cells: &[Cell]) -> Result<Cells, OutOfMemory>
    ensures { IfOk result (λ made. made ≡ cells_from 0 cells.now) }
{
    let mut list = Vec::new(alloc);
    for (i, cell) in cells.iter().enumerate() {
        let steps = Vec::from_slice(alloc, &[PathStep::Index(i as u64)])?;
        let copy = cell.copy(alloc)?;
        push_entry(&mut list, Listing::of(steps), copy)?;
    }
    Ok(Cells::of(list))
}

// Bytes as characters.
fn characters(alloc: Global, bytes: &[u8]) -> Result<Vec<i128>, OutOfMemory>
    ensures { IfOk result (λ text. text.items ≡ characters bytes.now) }
{
    let mut text = Vec::new(alloc);
    for byte in bytes {
        push(&mut text, as_character(i128::from(*byte)))?;
    }
    Ok(text)
}

/// An object of characters that holds a text.
pub fn text_object(
    alloc: Global,
    key: ObjectKey,
    ty: TypeId,
    text: &[i128],
) -> Result<Instance, OutOfMemory>
    ensures { IfOk result (λ inst. inst ≡ text_object key ty text.now) }
{
    let mut cells = Vec::new(alloc);
    for c in text {
        push(&mut cells, Cell::Number(*c))?;
    }
    let cells = cells_of(alloc, cells.as_slice())?;
    Ok(object_with(key, Some(ty), cells))
}

// The object of an entity, where that is a static one.
fn entity_object(alloc: Global, trees: &Trees<'_>, e: u32) -> Option<Instance>
    ensures { result ≡ entity_object (ObjectKey.Entity e) (slice_get trees.now.entities.now e) }
{
    let entity = trees.entities.get(e as usize)?;
    match entity.storage {
        Storage::Static => {
            let key = ObjectKey::Entity(e);
            Some(object_with(key, Some(entity.ty), Cells::none(alloc)))
        }
        Storage::Automatic | Storage::FunctionBody => None,
        Storage::Parameter | Storage::Declared => None,
    }
}

// The object of a string literal.
fn literal_object(alloc: Global, trees: &Trees<'_>, n: u32) -> Result<Option<Instance>, OutOfMemory>
    ensures { IfOk result (λ o. o ≡ literal_object (ObjectKey.Text n) (slice_get trees.now.nodes.now n)) }
{
    let Some(node) = trees.nodes.get(n as usize) else {
        return Ok(None);
    };
    match &node.kind {
        NodeKind::Text(bytes) => {
            let text = characters(alloc, bytes.as_slice())?;
            let inst = text_object(alloc, ObjectKey::Text(n), node.ty, text.as_slice())?;
            Ok(Some(inst))
        }
        _ => Ok(None),
    }
}

// An object as it is where the program starts, if it lives then: a static one, a string literal, or one of the library but
// for the arguments of main.
fn object_of(
    alloc: Global,
    trees: &Trees<'_>,
    types: LibraryTypes,
    key: ObjectKey,
) -> Result<Option<Instance>, OutOfMemory>
    ensures { IfOk result (λ o. o ≡ object_of (core_of trees.now) types key) }
{
    match key {
        ObjectKey::Entity(e) => Ok(entity_object(alloc, trees, e)),
        ObjectKey::Text(n) => literal_object(alloc, trees, n),
        ObjectKey::Library(position) => {
            if position == 10 {
                Ok(None)
            } else {
                let ty = library_type(types, position);
                Ok(Some(object_with(key, ty, Cells::none(alloc))))
            }
        }
        ObjectKey::Call(_) | ObjectKey::Star(_) => Ok(None),
        ObjectKey::Function(_) | ObjectKey::Varargs(_) | ObjectKey::Outside => Ok(None),
    }
}

// Whether a location is of another object than the one before.
fn is_new(before: Option<ObjectKey>, key: ObjectKey) -> bool
    ensures { result ≡ is_new before key }
{
    match before {
        Some(other) => !same_object(key, other),
        None => true,
    }
}

// The object of a location behind another one, where it begins there, behind others.
fn put_object(
    alloc: Global,
    trees: &Trees<'_>,
    types: LibraryTypes,
    before: Option<ObjectKey>,
    key: ObjectKey,
    list: &mut Vec<Instance>,
) -> Result<(), OutOfMemory>
    ensures { OnOk result (list.new.items ≡
        list.old.items ++ cons_option (object_at (core_of trees.now) types before key) []) }
{
    if is_new(before, key) {
        if let Some(object) = object_of(alloc, trees, types, key)? {
            push(list, object)?;
        }
    }
    Ok(())
}

// The objects that live for the whole run, in the order of their locations.
fn all_objects(
    alloc: Global,
    trees: &Trees<'_>,
    types: LibraryTypes,
    space: &Space,
) -> Result<Vec<Instance>, OutOfMemory>
    ensures { IfOk result (λ list. list.items ≡ objects_after (core_of trees.now) types None space.now) }
{
    let mut list = Vec::new(alloc);
    let mut before = None;
    for l in 0..space.count() {
        let key = space.location(l).key;
        put_object(alloc, trees, types, before, key, &mut list)?;
        before = Some(key);
    }
    Ok(list)
}

/// A pointer to an element of an instance.
pub fn element_of(alloc: Global, instance: u32, i: u64) -> Result<Cell, OutOfMemory>
    ensures { IfOk result (λ cell. cell ≡ Pointer instance (Index i ∷ []) false) }
{
    let steps = Vec::from_slice(alloc, &[PathStep::Index(i)])?;
    Ok(Cell::Pointer {
        instance,
        path: Listing::of(steps),
        past: false,
    })
}

// A library object points to an element of another one, where there are both.
fn point(alloc: Global, memory: &mut Memory, from: u32, to: u32, i: u64) -> Result<(), OutOfMemory>
    ensures { OnOk result (memory.new ≡ pointed from to i memory.old) }
{
    let Some(f) = instance_at(memory, from)? else {
        return Ok(());
    };
    let Some(t) = instance_at(memory, to)? else {
        return Ok(());
    };
    let cells = Cells::one(alloc, element_of(alloc, t, i)?)?;
    put_cells(alloc, memory, f, cells)
}

/// An instance holds these cells now.
pub fn put_cells(
    alloc: Global,
    memory: &mut Memory,
    instance: u32,
    cells: Cells,
) -> Result<(), OutOfMemory>
    ensures ok { OnOk result (memory.new ≡ changed memory.old instance (slice_get memory.old instance)
        (λ inst. record inst { cells = cells })) }
    ensures err { OnErr result (memory.new ≡ memory.old) }
{
    let Some(inst) = memory.instances().get(instance as usize) else {
        return Ok(());
    };
    let mut inst = inst.copy(alloc)?;
    inst.cells = cells;
    memory.set(instance, inst);
    Ok(())
}

/// The objects that live for the whole run, in the order of their locations, before any initialiser: the streams point to
/// `<FILE>`, and `<ctype>` into `<ctypes>`.
#[tactic(auto, unfolding(crate::specs::Objects::static_objects))]
pub fn static_objects(
    alloc: Global,
    trees: &Trees<'_>,
    types: LibraryTypes,
    space: &Space,
) -> Result<Memory, OutOfMemory>
    ensures { IfOk result (λ memory. memory ≡ static_objects (core_of trees.now) space.now types) }
{
    let list = all_objects(alloc, trees, types, space)?;
    let mut memory = Memory::new(alloc);
    memory.append(list)?;
    point(alloc, &mut memory, 3, 2, 0)?;
    point(alloc, &mut memory, 4, 2, 0)?;
    point(alloc, &mut memory, 5, 2, 0)?;
    point(alloc, &mut memory, 7, 8, 128)?;
    Ok(memory)
}
