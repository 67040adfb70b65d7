// The rows of places, and of pointers made of them.

ghost use Rattle.std.specs.Prelude.{◌≡◌, ◌<◌, ◌^◌, IfSome, length, slice_get};
ghost use Rattle.obj_space.specs.Found.{kind_of, number_of, same_object};
ghost use Rattle.ref_cells.specs.Wholes.{shape_in, IsOver};
ghost use Rattle.c_types.specs.Table.{type_of};
ghost use Rattle.ref_cells.specs.Answers.{Gives};
ghost use Rattle.ref_cells.specs.Places.{AreKnown};
ghost use Rattle.ref_places.specs.Places.{has_key, is_type, is_array, own_instance, first_instance, instance_of};
ghost use Rattle.ref_places.specs.Places.{named_row, varargs_row, deref_row, stepped, member_row, decay_row, upcast_row};

use crate::parts::type_there;
use c_types::key::ObjectKey;
use c_types::table::TypeTable;
use c_types::term::{PathStep, Term, TypeId};
use pta_base::Listing;
use ref_cells::cells::{Cell, MemFault, Reason};
use ref_cells::instance::Instance;
use ref_cells::wholes::Whole;
use ref_elements::parts::same_type;
use std::alloc::Global;

/// The kind and number of an object.
pub fn pair_of(key: ObjectKey) -> (u32, u32)
    ensures kind { result.0 ≡ kind_of key }
    ensures number { result.1 ≡ number_of key }
{
    match key {
        ObjectKey::Entity(e) => (0, e),
        ObjectKey::Text(n) => (1, n),
        ObjectKey::Call(n) => (2, n),
        ObjectKey::Library(k) => (3, k),
        ObjectKey::Star(k) => (4, k),
        ObjectKey::Function(k) => (5, k),
        ObjectKey::Varargs(e) => (6, e),
        ObjectKey::Outside => (7, 0),
    }
}

/// Whether two keys name one object.
pub fn same_object(a: ObjectKey, b: ObjectKey) -> bool
    ensures { result ≡ same_object a b }
{
    let left = pair_of(a);
    let right = pair_of(b);
    left.0 == right.0 && left.1 == right.1
}

// Whether an instance is of an object.
fn has_key(memory: &[Instance], key: ObjectKey, i: u32) -> bool
    ensures { result ≡ has_key (slice_get memory.now i) key }
{
    match memory.get(i as usize) {
        Some(inst) => same_object(inst.key, key),
        None => false,
    }
}

/// The one of a frame's instances that is of an object.
pub fn own_instance(memory: &[Instance], key: ObjectKey, own: &[u32]) -> Option<u32>
    ensures { result ≡ own_instance memory.now key own.now }
{
    for i in own {
        if has_key(memory, key, *i) {
            return Some(*i);
        }
    }
    None
}

/// The first instance of an object.
pub fn first_instance(memory: &[Instance], key: ObjectKey) -> Option<u32>
    requires { length memory.now < 2 ^ 32 }
    ensures { result ≡ first_instance key 0 memory.now }
{
    let mut at: u32 = 0;
    for inst in memory {
        if same_object(inst.key, key) {
            return Some(at);
        }
        at += 1;
    }
    None
}

/// The instance of an object: the frame's own, or the one that lives for the whole run.
pub fn instance_of(memory: &[Instance], own: &[u32], key: ObjectKey) -> Option<u32>
    requires { length memory.now < 2 ^ 32 }
    ensures { result ≡ instance_of memory.now own.now key }
{
    match own_instance(memory, key, own) {
        Some(i) => Some(i),
        None => first_instance(memory, key),
    }
}

/// Named, Text, Literal: the object's instance.
#[tactic(auto, unfolding(crate::specs::Places::named_row))]
pub fn named_row(
    alloc: Global,
    memory: &[Instance],
    own: &[u32],
    key: ObjectKey,
) -> Result<Cell, MemFault>
    ensures { Gives (λ c. c) result (named_row memory.now own.now key) }
{
    if memory.len() > 0xffff_ffff {
        return Err(MemFault::OutOfMemory);
    }
    match instance_of(memory, own, key) {
        Some(instance) => Ok(Cell::Pointer {
            instance,
            path: Listing::new(alloc),
            past: false,
        }),
        None => Err(MemFault::Stop(Reason::Mismatch)),
    }
}

/// VarArgs: the first place of what this activation of a variadic function was passed past its parameters.
#[tactic(auto, unfolding(crate::specs::Places::varargs_row))]
pub fn varargs_row(
    alloc: Global,
    memory: &[Instance],
    own: &[u32],
    e: u32,
) -> Result<Cell, MemFault>
    ensures { Gives (λ c. c) result (varargs_row memory.now own.now e) }
{
    if memory.len() > 0xffff_ffff {
        return Err(MemFault::OutOfMemory);
    }
    match instance_of(memory, own, ObjectKey::Varargs(e)) {
        Some(instance) => {
            let mut path = Listing::new(alloc);
            path.push(PathStep::Index(0))?;
            Ok(Cell::Pointer {
                instance,
                path,
                past: false,
            })
        }
        None => Err(MemFault::Stop(Reason::Mismatch)),
    }
}

/// Deref: the pointer as a place.
pub fn deref_row(cell: Cell) -> Result<Cell, MemFault>
    ensures { Gives (λ c. c) result (deref_row cell) }
{
    match cell {
        Cell::Null => Err(MemFault::Stop(Reason::NullUse)),
        Cell::Unset | Cell::Number(_) => Err(MemFault::Stop(Reason::Mismatch)),
        Cell::Pointer { .. } | Cell::Function(_) => Ok(cell),
    }
}

// A place with one step more.
fn stepped(alloc: Global, cell: Cell, step: PathStep) -> Result<Cell, MemFault>
    ensures { Gives (λ c. c) result (stepped cell step) }
{
    match cell {
        Cell::Pointer {
            instance,
            mut path,
            past,
        } => {
            let _ = alloc;
            path.push(step)?;
            Ok(Cell::Pointer {
                instance,
                path,
                past,
            })
        }
        Cell::Unset | Cell::Number(_) | Cell::Null | Cell::Function(_) => Err(MemFault::Stop(
            Reason::Mismatch,
        )),
    }
}

// Whether a type is the one that is found.
fn is_type(types: &TypeTable, ty: TypeId, found: Option<Whole>) -> bool
    requires ty { ty.0 < length types.now.terms }
    requires found { IfSome found (IsOver (length types.now.terms)) }
    ensures { result ≡ is_type (type_of types.now ty.0) (shape_in types.now found) }
{
    match found {
        Some(Whole::One(id)) => same_type(types, id, ty),
        Some(Whole::Many(of, n)) => match types.term(ty) {
            Term::Array {
                of: element,
                length: Some(length),
            } => same_type(types, of, *element) && n == *length,
            _ => false,
        },
        None => false,
    }
}

/// Member `k` of a structure or union, which the place is of.
#[tactic(auto, unfolding(crate::specs::Places::member_row))]
pub fn member_row(
    alloc: Global,
    types: &TypeTable,
    memory: &[Instance],
    place: Cell,
    s: TypeId,
    k: u32,
) -> Result<Cell, MemFault>
    requires memory { AreKnown (length types.now.terms) memory.now }
    requires s { s.0 < length types.now.terms }
    ensures { Gives (λ c. c) result (member_row types.now memory.now place (type_of types.now s.0) k) }
{
    if is_type(types, s, type_there(types, memory, &place)) {
        stepped(alloc, place, PathStep::Member(k))
    } else {
        Err(MemFault::Stop(Reason::Mismatch))
    }
}

// Whether a type that is found is an array.
fn is_array(types: &TypeTable, found: Option<Whole>) -> bool
    requires { IfSome found (IsOver (length types.now.terms)) }
    ensures { result ≡ is_array (shape_in types.now found) }
{
    match found {
        Some(Whole::One(id)) => matches!(types.term(id), Term::Array { .. }),
        Some(Whole::Many(_, _)) => true,
        None => false,
    }
}

/// Decay: a function's place stays, an array's goes to its first element.
#[tactic(auto, unfolding(crate::specs::Places::decay_row))]
pub fn decay_row(
    alloc: Global,
    types: &TypeTable,
    memory: &[Instance],
    place: Cell,
    ty: TypeId,
) -> Result<Cell, MemFault>
    requires memory { AreKnown (length types.now.terms) memory.now }
    requires ty { ty.0 < length types.now.terms }
    ensures { Gives (λ c. c) result (decay_row types.now memory.now place (type_of types.now ty.0)) }
{
    if let Term::Function { .. } = types.term(ty) {
        return Ok(place);
    }
    if is_array(types, type_there(types, memory, &place)) {
        stepped(alloc, place, PathStep::Index(0))
    } else {
        Err(MemFault::Stop(Reason::Mismatch))
    }
}

/// Upcast: from a pointer to a structure to one to its first member.
pub fn upcast_row(
    alloc: Global,
    types: &TypeTable,
    memory: &[Instance],
    cell: Cell,
    ty: TypeId,
) -> Result<Cell, MemFault>
    requires memory { AreKnown (length types.now.terms) memory.now }
    requires ty { ty.0 < length types.now.terms }
    ensures { Gives (λ c. c) result (upcast_row types.now memory.now cell (type_of types.now ty.0)) }
{
    if let Cell::Null = cell {
        return Ok(cell);
    }
    match types.term(ty) {
        Term::Pointer(to) => member_row(alloc, types, memory, cell, *to, 0),
        _ => Err(MemFault::Stop(Reason::Mismatch)),
    }
}
