// What the table of conversions says of a pointer and a type of pointers, by what they point to (C11 6.3.2.3, 6.5.4).
#![tactic(auto, using(core_nodes::proofs::IntegerTypes::integers))]

ghost use Rattle.std.specs.Prelude.{◌≡◌, ◌<◌, length, Bool};
ghost use Rattle.c_types.specs.Trees.{Ctype};
ghost use Rattle.c_types.specs.Table.{type_of};
ghost use Rattle.core_nodes.specs.passed.c_senses.Conversions as spec;
ghost use Rattle.c_conversions.specs.Targets.{target_seen, IsRowOf, IsRefusal};

use c_types::table::TypeTable;
use c_types::term::{Term, TypeId};
use core_nodes::CheckFault;
use pta_base::Kind;

/// What the table of conversions tells apart of a type to which a pointer points.
#[derive(Clone, Copy, Debug, PartialEq, Eq)]
pub enum Target {
    Void,
    Function,
    /// An integer type or _Bool, with its size.
    Whole(u8),
    Pointer,
    Structure(u32),
    Union(u32),
    Other,
}

/// What the table says of a pointer and a type of pointers.
#[derive(Clone, Copy, Debug, PartialEq, Eq)]
pub enum PointerRow {
    Converts,
    /// A cast to a first member's type, however far down it stands; else it is refused, with this kind.
    Upcasts(Kind),
    Refused(Kind),
}

// The sort of a type to which a pointer points.
pub(crate) fn target_of(types: &TypeTable, ty: TypeId) -> Target
    requires { ty.0 < length types.now.terms }
    ensures { target_seen result ≡ spec.target_of (type_of types.now ty.0) }
{
    match types.term(ty) {
        Term::Void => Target::Void,
        Term::Bool => Target::Whole(1),
        Term::Integer { size, .. } => Target::Whole(*size),
        Term::Floating => Target::Other,
        Term::VaList => Target::Other,
        Term::Pointer(_) => Target::Pointer,
        Term::Array { .. } => Target::Other,
        Term::Function { .. } => Target::Function,
        Term::Structure(tag) => Target::Structure(*tag),
        Term::Union(tag) => Target::Union(*tag),
    }
}

// Whether a type is one of characters.
pub(crate) fn is_character(types: &TypeTable, ty: TypeId) -> bool
    requires { ty.0 < length types.now.terms }
    ensures { result ≡ spec.is_character (type_of types.now ty.0) }
{
    match types.term(ty) {
        Term::Integer { size, .. } => *size == 1,
        _ => false,
    }
}

// A refusal of that kind.
pub(crate) fn refusal(kind: Kind, at: u32) -> CheckFault
    ensures { IsRefusal result kind at }
{
    match kind {
        Kind::Operand => CheckFault::BadOperand(at),
        other => CheckFault::Unsupported(other, at),
    }
}

// A pointer to void, to an object of a type that has no rows of its own, or to a function.
fn from_void(b: Target) -> PointerRow
    ensures { (character : Bool) → IsRowOf spec.ToVoid (target_seen b) character result }
{
    match b {
        Target::Void => PointerRow::Converts,
        Target::Function => PointerRow::Refused(Kind::Operand),
        Target::Whole(_) => PointerRow::Converts,
        Target::Pointer => PointerRow::Converts,
        Target::Structure(_) => PointerRow::Converts,
        Target::Union(_) => PointerRow::Converts,
        Target::Other => PointerRow::Converts,
    }
}

fn from_other(b: Target) -> PointerRow
    ensures { (character : Bool) → IsRowOf spec.ToOther (target_seen b) character result }
{
    match b {
        Target::Void => PointerRow::Converts,
        Target::Function => PointerRow::Refused(Kind::Operand),
        Target::Whole(_) => PointerRow::Refused(Kind::Operand),
        Target::Pointer => PointerRow::Refused(Kind::Operand),
        Target::Structure(_) => PointerRow::Refused(Kind::Operand),
        Target::Union(_) => PointerRow::Refused(Kind::Operand),
        Target::Other => PointerRow::Refused(Kind::Operand),
    }
}

fn from_function(b: Target) -> PointerRow
    ensures { (character : Bool) → IsRowOf spec.ToFunction (target_seen b) character result }
{
    match b {
        Target::Void => PointerRow::Refused(Kind::Operand),
        Target::Function => PointerRow::Converts,
        Target::Whole(_) => PointerRow::Refused(Kind::Operand),
        Target::Pointer => PointerRow::Refused(Kind::Operand),
        Target::Structure(_) => PointerRow::Refused(Kind::Operand),
        Target::Union(_) => PointerRow::Refused(Kind::Operand),
        Target::Other => PointerRow::Refused(Kind::Operand),
    }
}

// A pointer to an integer of that size.
fn from_whole(a: u8, b: Target) -> PointerRow
    ensures { (character : Bool) → IsRowOf (spec.ToWhole a) (target_seen b) character result }
{
    match b {
        Target::Void => PointerRow::Converts,
        Target::Function => PointerRow::Refused(Kind::Operand),
        Target::Whole(size) => {
            if a == size {
                PointerRow::Converts
            } else {
                PointerRow::Refused(Kind::IntegerSizeCast)
            }
        }
        Target::Pointer => PointerRow::Refused(Kind::Operand),
        Target::Structure(_) => PointerRow::Refused(Kind::Operand),
        Target::Union(_) => PointerRow::Refused(Kind::Operand),
        Target::Other => PointerRow::Refused(Kind::Operand),
    }
}

fn from_pointer(b: Target) -> PointerRow
    ensures { (character : Bool) → IsRowOf spec.ToPointer (target_seen b) character result }
{
    match b {
        Target::Void => PointerRow::Converts,
        Target::Function => PointerRow::Refused(Kind::Operand),
        Target::Whole(_) => PointerRow::Refused(Kind::Operand),
        Target::Pointer => PointerRow::Converts,
        Target::Structure(_) => PointerRow::Refused(Kind::Operand),
        Target::Union(_) => PointerRow::Refused(Kind::Operand),
        Target::Other => PointerRow::Refused(Kind::Operand),
    }
}

// The kind of a refusal to see a structure as a number.
fn whole_kind(character: bool) -> Kind
    ensures { (to : Ctype) → spec.is_character to ≡ character → spec.character_kind to ≡ result }
{
    if character {
        Kind::CharacterCast
    } else {
        Kind::Operand
    }
}

fn from_structure(a: u32, b: Target, character: bool) -> PointerRow
    ensures { IsRowOf (spec.ToStructure a) (target_seen b) character result }
{
    match b {
        Target::Void => PointerRow::Converts,
        Target::Function => PointerRow::Refused(Kind::Operand),
        Target::Whole(_) => PointerRow::Upcasts(whole_kind(character)),
        Target::Pointer => PointerRow::Upcasts(Kind::Operand),
        Target::Structure(_) => PointerRow::Upcasts(Kind::StructureCast),
        Target::Union(_) => PointerRow::Upcasts(Kind::StructureCast),
        Target::Other => PointerRow::Upcasts(Kind::Operand),
    }
}

fn from_union(a: u32, b: Target) -> PointerRow
    ensures { (character : Bool) → IsRowOf (spec.ToUnion a) (target_seen b) character result }
{
    match b {
        Target::Void => PointerRow::Converts,
        Target::Function => PointerRow::Refused(Kind::Operand),
        Target::Whole(_) => PointerRow::Refused(Kind::Operand),
        Target::Pointer => PointerRow::Refused(Kind::Operand),
        Target::Structure(_) => PointerRow::Refused(Kind::StructureCast),
        Target::Union(_) => PointerRow::Refused(Kind::StructureCast),
        Target::Other => PointerRow::Refused(Kind::Operand),
    }
}

// What the table says of a pointer to a type of the first sort and of the type of pointers to one of the second, a type of
// characters or not.
pub(crate) fn pointer_row(a: Target, b: Target, character: bool) -> PointerRow
    ensures { IsRowOf (target_seen a) (target_seen b) character result }
{
    match a {
        Target::Void => from_void(b),
        Target::Function => from_function(b),
        Target::Whole(size) => from_whole(size, b),
        Target::Pointer => from_pointer(b),
        Target::Structure(tag) => from_structure(tag, b, character),
        Target::Union(tag) => from_union(tag, b),
        Target::Other => from_other(b),
    }
}
