// A function is entered.

ghost use Rattle.std.specs.Prelude.{◌≡◌, ◌+◌, ◌<◌, ◌^◌, ◌∷◌, ◌++◌, IfOk, OnOk, OnErr, All, length, map, slice_get};
ghost use Rattle.std.specs.Option.{option_map};
ghost use Rattle.std.specs.List.{range_with_len};
ghost use Rattle.c_types.specs.declared.key.ObjectKey.{ObjectKey};
ghost use Rattle.c_types.specs.Trees.{trees_at};
ghost use Rattle.c_types.specs.Table as spec;
ghost use Rattle.c_types.specs.Table.{type_of, types_of};
ghost use Rattle.core_tree.specs.Range.{InRange};
ghost use Rattle.core_tree.specs.Seen.{core_of};
ghost use Rattle.row_numbers.specs.Functions.{key_id};
ghost use Rattle.call_sites.specs.Signatures.{called_type};
ghost use Rattle.ref_cells.specs.Answers.{Gives};
ghost use Rattle.ref_frames.specs.Made.{IsRunning, seen};
ghost use Rattle.ref_frames.specs.Frames.{entered, entered_objects, is_typed, have_types, list_of, parameter_object};
ghost use Rattle.ref_frames.specs.Frames.{parameter_objects, pointers_from};

use crate::running::Running;
use c_types::key::ObjectKey;
use c_types::term::{Form, OutOfMemory, Term, TypeId};
use core_tree::Entity;
use core_tree::trees::Trees;
use pta_base::Listing;
use ref_cells::cells::{Cell, MemFault, Reason, Value};
use ref_cells::instance::Instance;
use ref_elements::outcome::pointers_in;
use ref_elements::parts::same_type;
use ref_mem::arguments::arguments_object;
use ref_mem::memory::Memory;
use ref_state::frames::{Frame, Frames};
use ref_state::items::{Item, Items};
use row_numbers::numbering::takes_further;
use std::alloc::Global;

/// How a function is entered: by the call at a node, or by a library function of that number, or as main.
#[derive(Clone, Copy)]
pub struct Entry {
    pub function: u32,
    pub call: Option<u32>,
    pub by: Option<u32>,
}

/// A function that is about to be entered: its frame, the objects of its parameters, and the pointers that these hold.
#[derive(Drop)]
pub struct Activation {
    pub frame: Frame,
    pub fresh: Listing<Instance>,
    pub stores: Listing<(Cell, Cell)>,
}

// The declared type of an entity.
fn type_of(entities: &[Entity], e: u32) -> Option<TypeId>
    ensures { result ≡ option_map (λ entity. entity.ty) (slice_get entities.now e) }
{
    match entities.get(e as usize) {
        Some(entity) => Some(entity.ty),
        None => None,
    }
}

// Whether an entity has a type.
fn is_typed(trees: &Trees<'_>, e: u32, ty: TypeId) -> bool
    requires range { InRange (core_of trees.now) }
    requires ty { ty.0 < length trees.now.types.now.terms }
    ensures { result ≡ is_typed trees.now.types.now (key_id (core_of trees.now) (ObjectKey.Entity e))
        (type_of trees.now.types.now ty.0) }
{
    match trees.entities.get(e as usize) {
        Some(entity) => same_type(trees.types, entity.ty, ty),
        None => false,
    }
}

// Whether parameters have the types of a list, one for one.
fn have_types(trees: &Trees<'_>, parameters: &[u32], list: &[TypeId]) -> bool
    requires range { InRange (core_of trees.now) }
    requires list { All (λ id. id.0 < length trees.now.types.now.terms) list.now }
    ensures { result ≡ have_types (core_of trees.now) (map ObjectKey.Entity parameters.now)
        (trees_at (types_of trees.now.types.now) list.now) }
{
    for k in 0..parameters.len() {
        if k >= list.len() {
            return false;
        }
        if !is_typed(trees, parameters[k], list[k]) {
            return false;
        }
    }
    parameters.len() == list.len()
}

// Whether parameters have the types in the list of the type by which a function is called.
fn are_listed(trees: &Trees<'_>, ty: TypeId, parameters: &[u32]) -> bool
    requires range { InRange (core_of trees.now) }
    requires ty { ty.0 < length trees.now.types.now.terms }
    ensures { result ≡ have_types (core_of trees.now) (map ObjectKey.Entity parameters.now)
        (list_of (called_type (type_of trees.now.types.now ty.0))) }
{
    match trees.types.term(ty) {
        Term::Function {
            parameters: list,
            form,
            ..
        } => match form {
            Form::Unspecified => have_types(trees, parameters, &[]),
            Form::Fixed | Form::Variadic => have_types(trees, parameters, list.as_slice()),
        },
        Term::Void | Term::Bool | Term::Floating | Term::VaList | Term::Integer { .. } => {
            have_types(trees, parameters, &[])
        }
        Term::Array { .. } | Term::Pointer(_) | Term::Structure(_) | Term::Union(_) => {
            have_types(trees, parameters, &[])
        }
    }
}

// A parameter with its argument.
fn parameter(
    alloc: Global,
    trees: &Trees<'_>,
    e: u32,
    value: &Value,
) -> Result<Instance, OutOfMemory>
    ensures { IfOk result (λ inst. inst ≡ parameter_object (core_of trees.now) (ObjectKey.Entity e) value.now) }
{
    let cells = value.cells.copy(alloc)?;
    Ok(Instance {
        key: ObjectKey::Entity(e),
        live: true,
        ty: type_of(trees.entities, e),
        bytes: 0,
        zero: false,
        cells,
    })
}

// The objects of parameters that hold these arguments.
fn parameter_objects(
    alloc: Global,
    trees: &Trees<'_>,
    parameters: &[u32],
    arguments: &[Value],
) -> Result<Listing<Instance>, OutOfMemory>
    ensures { IfOk result (λ fresh. fresh ≡
        parameter_objects (core_of trees.now) (map ObjectKey.Entity parameters.now) arguments.now) }
{
    let mut fresh = Listing::new(alloc);
    for k in 0..parameters.len() {
        if k >= arguments.len() {
            return Ok(fresh);
        }
        fresh.push(parameter(alloc, trees, parameters[k], &arguments[k])?)?;
    }
    Ok(fresh)
}

// The objects of parameters, and that of what a variadic function is passed past them.
fn entered_objects(
    alloc: Global,
    trees: &Trees<'_>,
    ty: TypeId,
    function: u32,
    parameters: &[u32],
    arguments: &[Value],
) -> Result<Listing<Instance>, OutOfMemory>
    requires ty { ty.0 < length trees.now.types.now.terms }
    requires few { length arguments.now < 2 ^ 63 }
    ensures { IfOk result (λ fresh. fresh ≡
        entered_objects (core_of trees.now) (spec.type_of trees.now.types.now ty.0) function
        (map ObjectKey.Entity parameters.now) arguments.now) }
{
    let mut fresh = parameter_objects(alloc, trees, parameters, arguments)?;
    if takes_further(trees.types, ty) {
        let own = parameters.len().min(arguments.len());
        let key = ObjectKey::Varargs(function);
        fresh.push(arguments_object(alloc, key, &arguments[own..])?)?;
    }
    Ok(fresh)
}

// More pairs behind others.
fn push_all(
    list: Listing<(Cell, Cell)>,
    more: Listing<(Cell, Cell)>,
) -> Result<Listing<(Cell, Cell)>, OutOfMemory>
    ensures { IfOk result (λ all. all ≡ list ++ more) }
{
    let mut all = list.into_vec();
    let mut more = more.into_vec();
    all.append(&mut more)?;
    Ok(Listing::of(all))
}

// The pointers that instances hold, the first of them of that number.
fn pointers_from(
    alloc: Global,
    first: usize,
    instances: &[Instance],
) -> Result<Listing<(Cell, Cell)>, OutOfMemory>
    ensures { IfOk result (λ stores. stores ≡ pointers_from first instances.now) }
{
    let mut stores = Listing::new(alloc);
    for (k, inst) in instances.iter().enumerate() {
        let number = number_of(first, k)?;
        let pointers = pointers_in(alloc, number, inst.cells.as_slice())?;
        stores = push_all(stores, pointers)?;
    }
    Ok(stores)
}

// The number that stands so far behind another one.
fn number_of(first: usize, k: usize) -> Result<u32, OutOfMemory>
    ensures { IfOk result (λ number. number ≡ first + k) }
{
    if first > u32::MAX as usize || k > u32::MAX as usize {
        return Err(OutOfMemory);
    }
    let number = first + k;
    if number > u32::MAX as usize {
        Err(OutOfMemory)
    } else {
        Ok(number as u32)
    }
}

// So many numbers, from the first one on.
fn numbers_from(alloc: Global, first: usize, count: usize) -> Result<Listing<u32>, OutOfMemory>
    ensures { IfOk result (λ numbers. numbers ≡ range_with_len first count) }
{
    let mut numbers = Listing::new(alloc);
    for k in 0..count {
        numbers.push(number_of(first, k)?)?;
    }
    Ok(numbers)
}

/// What is made where a function is entered with these arguments, of a memory of so many instances. A function without a
/// body is Mismatch, and so is one whose parameters don't have the types in the list of its own type, which is no valid
/// program's.
#[tactic(auto, unfolding(crate::specs::Frames::entered))]
pub fn entered(
    running: &Running<'_>,
    count: usize,
    entry: Entry,
    arguments: &[Value],
) -> Result<Activation, MemFault>
    requires running { IsRunning running.now }
    ensures { Gives (λ made. made) result (entered (seen running.now) count entry arguments.now) }
{
    let alloc = running.alloc;
    let Some(entity) = running.trees.entities.get(entry.function as usize) else {
        return Err(MemFault::Stop(Reason::Mismatch));
    };
    let Some(body) = entity.body else {
        return Err(MemFault::Stop(Reason::Mismatch));
    };
    let parameters = running.parameters[entry.function as usize].as_slice();
    if !are_listed(&running.trees, entity.ty, parameters) {
        return Err(MemFault::Stop(Reason::Mismatch));
    }
    let fresh = entered_objects(
        alloc,
        &running.trees,
        entity.ty,
        entry.function,
        parameters,
        arguments,
    )?;
    let stores = pointers_from(alloc, count, fresh.as_slice())?;
    let instances = numbers_from(alloc, count, fresh.len())?;
    let items = Items::one(alloc, Item::Do(body))?;
    let frame = Frame {
        function: ObjectKey::Entity(entry.function),
        call: entry.call,
        by: entry.by,
        instances,
        items,
    };
    Ok(Activation {
        frame,
        fresh,
        stores,
    })
}

/// Enters a function. It gives the pointers that its parameters hold. At `Err` nothing has changed.
pub fn enter(
    memory: &mut Memory,
    frames: &mut Frames,
    made: Activation,
) -> Result<Listing<(Cell, Cell)>, OutOfMemory>
    ensures stores { IfOk result (λ stores. stores ≡ made.stores) }
    ensures memory { OnOk result (memory.new ≡ memory.old ++ made.fresh) }
    ensures frames { OnOk result (frames.new ≡ made.frame ∷ frames.old) }
    ensures err { OnErr result ((memory.new ≡ memory.old) × (frames.new ≡ frames.old)) }
{
    let Activation {
        frame,
        fresh,
        stores,
    } = made;
    frames.push(frame)?;
    match memory.append(fresh.into_vec()) {
        Ok(()) => Ok(stores),
        Err(_) => {
            let _ = frames.pop();
            Err(OutOfMemory)
        }
    }
}
