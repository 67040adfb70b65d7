// The checks of a read and of a write.

ghost use Rattle.std.specs.Prelude.{◌≡◌, ℕ, Bool, ◌<◌, true, IfOk, IfSome, Some, length};
ghost use Rattle.c_types.specs.Table.{type_of};
ghost use Rattle.c_types.specs.Trees.{IntegerType, PointerTo, VoidType};
ghost use Rattle.type_rules.specs.Kinds.{character};
ghost use Rattle.ref_cells.specs.Answers.{Agrees};
ghost use Rattle.ref_cells.specs.Wholes.{shape_of, shape_in, IsOver};
ghost use Rattle.ref_cells.specs.Places.{walk, type_in, type_at_place, is_alike, reach, IsKnown, AreKnown};

use crate::cells::{Cell, Reason};
use crate::instance::Instance;
use crate::wholes::{Whole, is_out, one, part_in, whole_of};
use c_types::table::TypeTable;
use c_types::term::{PathStep, Term, TypeId};

// The type at the end of a path.
fn walk(types: &TypeTable, whole: Option<Whole>, path: &[PathStep]) -> Result<Whole, Reason>
    requires { IfSome whole (IsOver (length types.now.terms)) }
    ensures shape { Agrees (shape_of types.now) result (walk types.now (shape_in types.now whole) path.now) }
    ensures known { IfOk result (IsOver (length types.now.terms)) }
{
    match whole {
        None => Err(Reason::Mismatch),
        Some(found) => match path {
            [] => Ok(found),
            [step, rest @ ..] => {
                if is_out(types, found, *step) {
                    Err(Reason::OutOfRange)
                } else {
                    walk(types, one(part_in(types, whole, *step)), rest)
                }
            }
        },
    }
}

// The type at a path in an instance.
fn type_in(
    types: &TypeTable,
    inst: &Instance,
    path: &[PathStep],
    past: bool,
) -> Result<Whole, Reason>
    requires { IsKnown (length types.now.terms) inst.now.ty }
    ensures shape { Agrees (shape_of types.now) result (type_in types.now (Some inst.now) path.now past) }
    ensures known { IfOk result (IsOver (length types.now.terms)) }
{
    if !inst.live {
        Err(Reason::DeadUse)
    } else if past {
        Err(Reason::OutOfRange)
    } else {
        walk(types, whole_of(types, inst), path)
    }
}

/// The type at a place.
pub fn type_at_place(types: &TypeTable, memory: &[Instance], place: &Cell) -> Result<Whole, Reason>
    requires { AreKnown (length types.now.terms) memory.now }
    ensures shape { Agrees (shape_of types.now) result (type_at_place types.now memory.now place.now) }
    ensures known { IfOk result (IsOver (length types.now.terms)) }
{
    match place {
        Cell::Null => Err(Reason::NullUse),
        Cell::Pointer {
            instance,
            path,
            past,
        } => match memory.get(*instance as usize) {
            Some(inst) => type_in(types, inst, path.as_slice(), *past),
            None => Err(Reason::Mismatch),
        },
        Cell::Unset | Cell::Number(_) | Cell::Function(_) => Err(Reason::Mismatch),
    }
}

// Whether a type is an integer of a size.
fn is_integer_of(types: &TypeTable, ty: TypeId, size: u8) -> bool
    requires { ty.0 < length types.now.terms }
    ensures { (rank : ℕ) (signed : Bool) → result ≡ is_alike (IntegerType size rank signed) (type_of types.now ty.0) }
{
    match types.term(ty) {
        Term::Bool => size == 1,
        Term::Integer { size: other, .. } => size == *other,
        _ => false,
    }
}

// Whether two types are scalars of one class, or one structure or union.
pub fn is_alike(types: &TypeTable, found: TypeId, ty: TypeId) -> bool
    requires found { found.0 < length types.now.terms }
    requires ty { ty.0 < length types.now.terms }
    ensures { result ≡ is_alike (type_of types.now found.0) (type_of types.now ty.0) }
{
    match types.term(found) {
        Term::Bool => match types.term(ty) {
            Term::Bool => true,
            Term::Integer { size, .. } => *size == 1,
            _ => false,
        },
        Term::Integer { size, .. } => is_integer_of(types, ty, *size),
        Term::Pointer(_) => matches!(types.term(ty), Term::Pointer(_)),
        Term::VaList => matches!(types.term(ty), Term::VaList),
        Term::Structure(tag) => match types.term(ty) {
            Term::Structure(other) => *tag == *other,
            _ => false,
        },
        Term::Union(tag) => match types.term(ty) {
            Term::Union(other) => *tag == *other,
            _ => false,
        },
        _ => false,
    }
}

/// The type at a place, where a read or write of a type may be.
#[tactic(auto, unfolding(crate::specs::Places::reach))]
pub fn reach(
    types: &TypeTable,
    memory: &[Instance],
    place: &Cell,
    ty: TypeId,
) -> Result<TypeId, Reason>
    requires memory { AreKnown (length types.now.terms) memory.now }
    requires ty { ty.0 < length types.now.terms }
    ensures shape { Agrees (λ id. type_of types.now id.0) result (reach types.now memory.now place.now (type_of types.now ty.0)) }
    ensures known { IfOk result (λ id. id.0 < length types.now.terms) }
{
    match type_at_place(types, memory, place)? {
        Whole::One(found) => {
            if is_alike(types, found, ty) {
                Ok(found)
            } else {
                Err(Reason::Mismatch)
            }
        }
        Whole::Many(_, _) => Err(Reason::Mismatch),
    }
}

/// The type at a place, where a read or write of a character may be: one of its class.
#[tactic(auto, unfolding(crate::specs::Places::reach))]
pub fn reach_character(
    types: &TypeTable,
    memory: &[Instance],
    place: &Cell,
) -> Result<TypeId, Reason>
    requires { AreKnown (length types.now.terms) memory.now }
    ensures shape { Agrees (λ id. type_of types.now id.0) result (reach types.now memory.now place.now character) }
    ensures known { IfOk result (λ id. id.0 < length types.now.terms) }
    ensures alike { IfOk result (λ id. is_alike (type_of types.now id.0) character ≡ true) }
{
    match type_at_place(types, memory, place)? {
        Whole::One(found) => {
            if is_byte(types, found) {
                Ok(found)
            } else {
                Err(Reason::Mismatch)
            }
        }
        Whole::Many(_, _) => Err(Reason::Mismatch),
    }
}

// Whether a type is of the class of characters.
fn is_byte(types: &TypeTable, found: TypeId) -> bool
    requires { found.0 < length types.now.terms }
    ensures { result ≡ is_alike (type_of types.now found.0) character }
{
    match types.term(found) {
        Term::Bool => true,
        Term::Integer { size, .. } => *size == 1,
        _ => false,
    }
}

/// The type at a place, where a read or write of a pointer may be.
#[tactic(auto, unfolding(crate::specs::Places::reach))]
pub fn reach_pointer(types: &TypeTable, memory: &[Instance], place: &Cell) -> Result<TypeId, Reason>
    requires { AreKnown (length types.now.terms) memory.now }
    ensures shape { Agrees (λ id. type_of types.now id.0) result
        (reach types.now memory.now place.now (PointerTo VoidType)) }
    ensures known { IfOk result (λ id. id.0 < length types.now.terms) }
{
    match type_at_place(types, memory, place)? {
        Whole::One(found) => {
            if is_pointer(types, found) {
                Ok(found)
            } else {
                Err(Reason::Mismatch)
            }
        }
        Whole::Many(_, _) => Err(Reason::Mismatch),
    }
}

// Whether a type is of the class of pointers.
fn is_pointer(types: &TypeTable, found: TypeId) -> bool
    requires { found.0 < length types.now.terms }
    ensures { result ≡ is_alike (type_of types.now found.0) (PointerTo VoidType) }
{
    matches!(types.term(found), Term::Pointer(_))
}
