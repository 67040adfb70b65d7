// Whether instances are of a program's objects, and their cells in the rows of their locations.

ghost use Rattle.std.specs.Prelude.{◌≡◌, ◌↔◌, ◌<◌, Some, IsTrue, IsSome, IfSome, length};
ghost use Rattle.std.specs.Option.{option_map};
ghost use Rattle.c_types.specs.Table.{type_of, extent_in};
ghost use Rattle.c_types.specs.Trees.{ArrayOf};
ghost use Rattle.obj_space.specs.Parts.{size_number};
ghost use Rattle.obj_space.specs.View.{first_from};
ghost use Rattle.ref_cells.specs.Places.{IsKnown, AreKnown};
ghost use Rattle.ref_cells.specs.Wholes.{IsOver, shape_of, shape_in};
ghost use Rattle.row_covers.specs.Objects.{is_class_of, IsScalarOf, IsArrayOf, FitsContent, MayWait, ShapeBy, KindBy};
ghost use Rattle.row_covers.specs.Objects.{OwnBy, InstanceBy, KnownBy, MemoryBy, element_in, is_further, rows_of};
ghost use Rattle.row_covers.specs.Scene.{IsScene, sets_over};

use crate::cells::{NodeRows, are_covered};
use crate::scene::Scene;
use crate::values::has_row;
use c_types::key::ObjectKey;
use c_types::table::TypeTable;
use c_types::term::{Class, Term, TypeId};
use obj_space::Content;
use ref_cells::cells::{Cell, Path};
use ref_cells::instance::Instance;
use ref_cells::wholes::{Whole, is_allocated, whole_of};

// The type of the elements of an array of known length.
fn element(types: &TypeTable, whole: Whole) -> Option<TypeId>
    requires { IsOver (length types.now.terms) whole }
    ensures value { option_map (λ of. type_of types.now of.0) result ≡ element_in (shape_of types.now whole) }
    ensures known { IfSome result (λ of. of.0 < length types.now.terms) }
{
    match whole {
        Whole::One(id) => match types.term(id) {
            Term::Array {
                of,
                length: Some(_),
            } => Some(*of),
            _ => None,
        },
        Whole::Many(id, _) => Some(id),
    }
}

// The number of an integer type by its size.
fn size_number(size: u8) -> u32
    ensures { result ≡ size_number size }
{
    match size {
        1 => 0,
        2 => 1,
        4 => 2,
        _ => 3,
    }
}

// Whether a class is that of the scalars of that number.
fn is_class_of(class: Class, number: u32) -> bool
    ensures { result ≡ is_class_of number class }
{
    match class {
        Class::Integer(size) => number == size_number(size),
        Class::Pointer => number == 4,
        Class::Structure | Class::Union | Class::Array | Class::Function => false,
        Class::Floating | Class::VaList | Class::Void => false,
    }
}

// Whether a type is a scalar of that number.
fn is_scalar_of(types: &TypeTable, id: TypeId, number: u32) -> bool
    requires { id.0 < length types.now.terms }
    ensures { IsTrue result ↔ IsScalarOf number (type_of types.now id.0) }
{
    is_class_of(types.class_of(id), number)
}

// Whether a type is complete.
fn is_complete(types: &TypeTable, id: TypeId) -> bool
    ensures complete { IsTrue result ↔ IsSome (extent_in types.now (type_of types.now id.0)) }
    ensures known { IsTrue result → id.0 < length types.now.terms }
{
    if id.0 >= types.type_count() {
        return false;
    }
    types.align_of(id).is_some()
}

// Whether a whole is complete.
fn is_whole_complete(types: &TypeTable, whole: Whole) -> bool
    requires { IsOver (length types.now.terms) whole }
    ensures { IsTrue result ↔ IsSome (extent_in types.now (shape_of types.now whole)) }
{
    match whole {
        Whole::One(id) => is_complete(types, id),
        Whole::Many(id, _) => is_complete(types, id),
    }
}

// Whether so many elements of a type are of another type.
fn are_of(types: &TypeTable, own: TypeId, n: u64, id: TypeId) -> bool
    requires own { own.0 < length types.now.terms }
    requires id { id.0 < length types.now.terms }
    ensures { IsTrue result ↔ (ArrayOf (type_of types.now own.0) (Some n) ≡ type_of types.now id.0) }
{
    match types.term(id) {
        Term::Array {
            of,
            length: Some(m),
        } => n == *m && types.same(own, *of),
        _ => false,
    }
}

// Whether a whole is of a type of the table.
fn is_of(types: &TypeTable, whole: Whole, id: TypeId) -> bool
    requires whole { IsOver (length types.now.terms) whole }
    requires id { id.0 < length types.now.terms }
    ensures { IsTrue result ↔ (shape_of types.now whole ≡ type_of types.now id.0) }
{
    match whole {
        Whole::One(own) => types.same(own, id),
        Whole::Many(own, n) => are_of(types, own, n, id),
    }
}

// Whether a whole is an array of known length of elements of a type.
fn is_array_of(types: &TypeTable, whole: Whole, id: TypeId) -> bool
    requires whole { IsOver (length types.now.terms) whole }
    requires id { id.0 < length types.now.terms }
    ensures { IsTrue result ↔ IsArrayOf (λ of. of ≡ type_of types.now id.0) (element_in (shape_of types.now whole)) }
{
    match element(types, whole) {
        Some(of) => types.same(of, id),
        None => false,
    }
}

// Whether a whole is an array of known length of scalars of that number.
fn are_scalars(types: &TypeTable, whole: Whole, number: u32) -> bool
    requires { IsOver (length types.now.terms) whole }
    ensures { IsTrue result ↔ IsArrayOf (IsScalarOf number) (element_in (shape_of types.now whole)) }
{
    match element(types, whole) {
        Some(of) => is_scalar_of(types, of, number),
        None => false,
    }
}

// Whether a whole is one scalar of that number.
fn is_one_scalar(types: &TypeTable, whole: Whole, number: u32) -> bool
    requires { IsOver (length types.now.terms) whole }
    ensures { IsTrue result ↔ IsScalarOf number (shape_of types.now whole) }
{
    match whole {
        Whole::One(id) => is_scalar_of(types, id, number),
        Whole::Many(_, _) => false,
    }
}

// Whether a whole is what an object of that content is.
fn fits_content(types: &TypeTable, content: Content, whole: Whole) -> bool
    requires { IsOver (length types.now.terms) whole }
    ensures { IsTrue result ↔ FitsContent types.now content (shape_of types.now whole) }
{
    match content {
        Content::Function => false,
        Content::Blob => is_whole_complete(types, whole),
        Content::Scalar(number) => is_one_scalar(types, whole, number),
        Content::Scalars(number) => are_scalars(types, whole, number),
        Content::Typed(id) => is_complete(types, id) && is_of(types, whole, id),
        Content::Elements(id) => is_complete(types, id) && is_array_of(types, whole, id),
    }
}

// Whether an object of that content may be without a type.
fn may_wait(types: &TypeTable, content: Content) -> bool
    ensures { IsTrue result ↔ MayWait types.now content }
{
    match content {
        Content::Blob => true,
        Content::Elements(id) => is_complete(types, id),
        Content::Function | Content::Scalar(_) => false,
        Content::Scalars(_) | Content::Typed(_) => false,
    }
}

// Whether an instance has the type of its object, or may be without one.
fn has_shape(types: &TypeTable, content: Content, whole: Option<Whole>) -> bool
    requires { IfSome whole (IsOver (length types.now.terms)) }
    ensures { IsTrue result ↔ ShapeBy types.now content (shape_in types.now whole) }
{
    match whole {
        Some(found) => fits_content(types, content, found),
        None => may_wait(types, content),
    }
}

// The rows of the nodes of an object.
fn object_rows(content: Content, first: u32) -> NodeRows
    ensures { result ≡ rows_of content first }
{
    match content {
        Content::Blob => NodeRows::Blob(first),
        _ => NodeRows::Object(first),
    }
}

// Whether an object is that of what a variadic function is passed past its parameters.
fn is_further(key: ObjectKey) -> bool
    ensures { result ≡ is_further key }
{
    match key {
        ObjectKey::Varargs(_) => true,
        ObjectKey::Entity(_) | ObjectKey::Text(_) | ObjectKey::Call(_) => false,
        ObjectKey::Library(_) | ObjectKey::Star(_) | ObjectKey::Function(_) => false,
        ObjectKey::Outside => false,
    }
}

// Whether an object is a blob.
fn is_blob(content: Content) -> bool
    ensures { IsTrue result ↔ (content ≡ Content.Blob) }
{
    matches!(content, Content::Blob)
}

// Whether an instance has a type, or may be without one.
fn is_kind(further: bool, ty: Option<TypeId>, key: ObjectKey, content: Content) -> bool
    ensures { IsTrue result ↔ KindBy further ty key content }
{
    if further {
        ty.is_none() && is_blob(content)
    } else {
        ty.is_some() || is_allocated(key)
    }
}

// Whether the cells of an instance of the object that begins there are in the rows of their locations.
fn are_own_covered(
    scene: &Scene<'_>,
    memory: &[Instance],
    further: bool,
    content: Content,
    first: u32,
    whole: Option<Whole>,
    cells: &[(Path, Cell)],
) -> bool
    requires scene { IsScene scene.now }
    requires known { AreKnown (length scene.now.trees.types.now.terms) memory.now }
    requires whole { IfSome whole (IsOver (length scene.now.trees.types.now.terms)) }
    ensures { let g = sets_over scene.now in IsTrue result ↔ OwnBy g memory.now further content first (shape_in g.table whole) cells.now }
{
    if further {
        has_row(scene, memory, Some(u64::from(first)), cells)
    } else {
        are_covered(scene, memory, object_rows(content, first), whole, cells)
    }
}

/// Whether an instance is of an object of the program, has its type, or none yet, and its cells are in the rows of their
/// locations; what a variadic function is passed past its parameters has no type, and one row. One that has ended is
/// looked at as any other.
pub fn is_instance_covered(scene: &Scene<'_>, memory: &[Instance], inst: &Instance) -> bool
    requires scene { IsScene scene.now }
    requires known { AreKnown (length scene.now.trees.types.now.terms) memory.now }
    requires inst { IsKnown (length scene.now.trees.types.now.terms) inst.now.ty }
    ensures { let g = sets_over scene.now in IsTrue result ↔ InstanceBy g memory.now inst.now (first_from 0 g.space inst.now.key) }
{
    let Some(first) = scene.space.first(inst.key) else {
        return false;
    };
    let content = scene.space.location(first).content;
    let whole = whole_of(scene.trees.types, inst);
    let further = is_further(inst.key);
    has_shape(scene.trees.types, content, whole)
        && is_kind(further, inst.ty, inst.key, content)
        && are_own_covered(
            scene,
            memory,
            further,
            content,
            first,
            whole,
            inst.cells.as_slice(),
        )
}

// Whether an instance's type is one of the table, or none.
fn is_known(types: &TypeTable, ty: Option<TypeId>) -> bool
    ensures { IsTrue result ↔ IsKnown (length types.now.terms) ty }
{
    match ty {
        Some(id) => id.0 < types.type_count(),
        None => true,
    }
}

// Whether an instance of a type of the table is covered.
fn is_known_covered(scene: &Scene<'_>, memory: &[Instance], inst: &Instance) -> bool
    requires scene { IsScene scene.now }
    requires known { AreKnown (length scene.now.trees.types.now.terms) memory.now }
    ensures { IsTrue result ↔ KnownBy (sets_over scene.now) memory.now inst.now }
{
    is_known(scene.trees.types, inst.ty) && is_instance_covered(scene, memory, inst)
}

/// Whether each instance is covered.
#[tactic(auto, unfolding(crate::specs::Objects::MemoryBy))]
pub fn is_memory_covered(scene: &Scene<'_>, memory: &[Instance]) -> bool
    requires scene { IsScene scene.now }
    requires known { AreKnown (length scene.now.trees.types.now.terms) memory.now }
    ensures { IsTrue result ↔ MemoryBy (sets_over scene.now) memory.now }
{
    memory
        .iter()
        .all(|inst| is_known_covered(scene, memory, inst))
}
