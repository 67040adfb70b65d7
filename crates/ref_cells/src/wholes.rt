// The types of instances and of their parts.

ghost use Rattle.std.specs.Prelude.{◌≡◌, ℕ, ◌<◌, IfSome, Some, List, length};
ghost use Rattle.c_types.specs.Trees.{Ctype, grow};
ghost use Rattle.std.specs.Option.{option_map};
ghost use Rattle.c_types.specs.Table.{Table, type_of, extent_in, size_below};
ghost use Rattle.c_types.specs.Paths.{part_type, part_below};
ghost use Rattle.ref_cells.specs.Wholes.{is_heap, is_allocated, elements_in, elements_of, typed_whole, whole_of, shape_of};
ghost use Rattle.ref_cells.specs.Wholes.{shape_in, IsOver};
ghost use Rattle.ref_cells.specs.Places.{is_out, IsKnown};

use crate::instance::Instance;
use c_types::key::ObjectKey;
use c_types::table::TypeTable;
use c_types::term::{PathStep, Term, TypeId};
use type_rules::members::part_of;

/// The type of an object or of a part of it: one of the table, or so many elements of one.
#[derive(Clone, Copy)]
pub enum Whole {
    One(TypeId),
    Many(TypeId, u64),
}

/// Whether an object is allocated: its type is that of its elements, of which there are as many as its bytes hold. So it is
/// with what a call allocates, the library's `<FILE>`, and memory from outside.
pub fn is_allocated(key: ObjectKey) -> bool
    ensures { result ≡ is_allocated key }
{
    match key {
        ObjectKey::Call(_) | ObjectKey::Star(_) | ObjectKey::Outside => true,
        ObjectKey::Library(object) => object == 2,
        ObjectKey::Entity(_) | ObjectKey::Text(_) => false,
        ObjectKey::Function(_) | ObjectKey::Varargs(_) => false,
    }
}

/// Whether a call allocated an object, so that `free` may end it.
pub fn is_heap(key: ObjectKey) -> bool
    ensures { result ≡ is_heap key }
{
    match key {
        ObjectKey::Call(_) | ObjectKey::Star(_) => true,
        ObjectKey::Library(_) | ObjectKey::Outside => false,
        ObjectKey::Entity(_) | ObjectKey::Text(_) => false,
        ObjectKey::Function(_) | ObjectKey::Varargs(_) => false,
    }
}

/// How many elements of a type so many bytes hold.
pub fn elements_in(types: &TypeTable, ty: TypeId, bytes: u64) -> u64
    requires { ty.0 < length types.now.terms }
    ensures { result ≡ elements_in bytes (size_below (extent_in types.now (type_of types.now ty.0))) }
{
    match types.size_of(ty) {
        None => 0,
        Some(size) => { if size == 0 { 0 } else { bytes / size } }
    }
}

/// How many elements of a type an object has, in so many bytes: as many as they hold, but one where memory from outside has
/// none, since it was made with its type.
pub fn elements_of(types: &TypeTable, key: ObjectKey, ty: TypeId, bytes: u64) -> u64
    requires { ty.0 < length types.now.terms }
    ensures { result ≡ elements_of key bytes (size_below (extent_in types.now (type_of types.now ty.0))) }
{
    match key {
        ObjectKey::Outside => {
            if bytes == 0 {
                1
            } else {
                elements_in(types, ty, bytes)
            }
        }
        ObjectKey::Call(_) | ObjectKey::Star(_) => elements_in(types, ty, bytes),
        ObjectKey::Library(_) | ObjectKey::Varargs(_) => elements_in(types, ty, bytes),
        ObjectKey::Entity(_) | ObjectKey::Text(_) => elements_in(types, ty, bytes),
        ObjectKey::Function(_) => elements_in(types, ty, bytes),
    }
}

/// The type of an instance, where it has one.
pub fn whole_of(types: &TypeTable, inst: &Instance) -> Option<Whole>
    requires { IsKnown (length types.now.terms) inst.now.ty }
    ensures whole { shape_in types.now result ≡ whole_of types.now inst.now }
    ensures known { IfSome result (IsOver (length types.now.terms)) }
{
    whole_as(types, inst, inst.ty)
}

/// The type of an instance, if its type or that of its elements is that one.
pub fn whole_as(types: &TypeTable, inst: &Instance, ty: Option<TypeId>) -> Option<Whole>
    requires { IsKnown (length types.now.terms) ty }
    ensures whole { shape_in types.now result ≡ typed_whole types.now inst.now ty }
    ensures known { IfSome result (IsOver (length types.now.terms)) }
{
    match ty {
        None => None,
        Some(id) => {
            if is_allocated(inst.key) {
                Some(Whole::Many(id, elements_of(types, inst.key, id, inst.bytes)))
            } else {
                Some(Whole::One(id))
            }
        }
    }
}

// The type of a part, where there is one.
fn part(types: &TypeTable, whole: Whole, step: PathStep) -> Option<TypeId>
    requires { IsOver (length types.now.terms) whole }
    ensures part { option_map (λ id. type_of types.now id.0) result ≡ part_type types.now (shape_of types.now whole) step }
    ensures known { IfSome result (λ id. id.0 < length types.now.terms) }
{
    match whole {
        Whole::One(id) => part_of(types, id, step),
        Whole::Many(id, n) => match step {
            PathStep::Index(i) => { if i < n { Some(id) } else { None } }
            PathStep::Member(_) => None,
        },
    }
}

/// The type of a part, of a type that may not be there.
pub fn part_in(types: &TypeTable, whole: Option<Whole>, step: PathStep) -> Option<TypeId>
    requires { IfSome whole (IsOver (length types.now.terms)) }
    ensures part { option_map (λ id. type_of types.now id.0) result ≡ part_below types.now (shape_in types.now whole) step }
    ensures known { IfSome result (λ id. id.0 < length types.now.terms) }
{
    match whole {
        Some(found) => part(types, found, step),
        None => None,
    }
}

/// A type of the table, where there is one.
pub fn one(part: Option<TypeId>) -> Option<Whole>
    ensures shape { (types : Table) → shape_in types result ≡ option_map (λ id. type_of types id.0) part }
    ensures known { (n : ℕ) → IfSome part (λ id. id.0 < n) → IfSome result (IsOver n) }
{
    match part {
        Some(id) => Some(Whole::One(id)),
        None => None,
    }
}

/// Whether a step is an index that is out of its array.
pub fn is_out(types: &TypeTable, whole: Whole, step: PathStep) -> bool
    requires { IsOver (length types.now.terms) whole }
    ensures { result ≡ is_out (shape_of types.now whole) step }
{
    match step {
        PathStep::Index(i) => match whole {
            Whole::One(id) => is_past(types.term(id), i),
            Whole::Many(_, n) => n <= i,
        },
        PathStep::Member(_) => false,
    }
}

// Whether an index is past an array's end.
fn is_past(term: &Term, i: u64) -> bool
    ensures { (trees : List Ctype) → result ≡ is_out (grow trees term.now) (PathStep.Index i) }
{
    match term {
        Term::Array {
            length: Some(n),
            ..
        } => *n <= i,
        Term::Array { length: None, .. } => false,
        Term::Void | Term::Bool | Term::Floating | Term::VaList => false,
        Term::Integer { .. } | Term::Function { .. } => false,
        Term::Pointer(_) | Term::Structure(_) | Term::Union(_) => false,
    }
}
