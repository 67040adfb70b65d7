// Which types have a size and a number of nodes.

ghost use Rattle.std.specs.Prelude.{◌≡◌, ℕ, ◌<◌, ◌↔◌, IsTrue, length};
ghost use Rattle.c_types.specs.Trees.{NoTypes, FunctionFrom};
ghost use Rattle.c_types.specs.declared.term.Form.TheVariants.{Fixed};
ghost use Rattle.c_types.specs.Table.{type_of};
ghost use Rattle.type_rules.specs.Sizes.{IsObject, PointsToObject, HasSize, with_one, IsOpenIn, TagHasSize, TagsHaveSizes};
ghost use Rattle.type_rules.specs.Sizes.{ResultHasSize, HasSignature};

use crate::kinds::{is_aggregate, is_void};
use c_types::table::TypeTable;
use c_types::term::{Form, Term, TypeId};

/// Whether a type is a complete object type (C11 6.2.5), however large.
pub fn is_object(types: &TypeTable, id: TypeId) -> bool
    requires { id.0 < length types.now.terms }
    ensures { IsTrue result ↔ IsObject types.now (type_of types.now id.0) }
{
    types.sub_node(id, 0).is_some()
}

/// Whether a type is a pointer to a complete object type.
pub fn points_to_object(types: &TypeTable, id: TypeId) -> bool
    requires { id.0 < length types.now.terms }
    ensures { IsTrue result ↔ PointsToObject types.now (type_of types.now id.0) }
{
    match types.term(id) {
        Term::Pointer(to) => is_object(types, *to),
        _ => false,
    }
}

/// Whether a type has a size below 2^63 and at most 2^24 nodes.
pub fn has_size(types: &TypeTable, id: TypeId) -> bool
    requires { id.0 < length types.now.terms }
    ensures { IsTrue result ↔ HasSize types.now (type_of types.now id.0) }
{
    types.size_of(id).is_some() && types.nodes(id).is_some()
}

/// Whether a type has a size and nodes, where an array without a length counts as one of one element (C11 6.9.2p5).
pub fn has_size_with_one(types: &TypeTable, id: TypeId) -> bool
    requires { id.0 < length types.now.terms }
    ensures { IsTrue result ↔ HasSize types.now (with_one (type_of types.now id.0)) }
{
    match types.term(id) {
        Term::Array { of, length: None } => has_size(types, *of),
        _ => has_size(types, id),
    }
}

/// Whether a type is void, or a structure or union without a member list.
pub fn is_open(types: &TypeTable, id: TypeId) -> bool
    requires { id.0 < length types.now.terms }
    ensures { IsTrue result ↔ IsOpenIn types.now (type_of types.now id.0) }
{
    match types.term(id) {
        Term::Void => true,
        Term::Structure(tag) | Term::Union(tag) => types.members(*tag).is_none(),
        _ => false,
    }
}

// Whether a type has a size, if it is a complete structure or union.
fn tag_has_size(types: &TypeTable, id: TypeId) -> bool
    requires { id.0 < length types.now.terms }
    ensures { IsTrue result ↔ TagHasSize types.now id.0 }
{
    !is_aggregate(types, id) || !is_object(types, id) || has_size(types, id)
}

/// Whether each complete structure and union of a table has a size and nodes.
pub fn tags_have_sizes(types: &TypeTable) -> bool
    ensures { IsTrue result ↔ TagsHaveSizes types.now }
{
    for id in 0..types.type_count() {
        if !tag_has_size(types, TypeId(id)) {
            return false;
        }
    }
    true
}

/// Whether what a function gives is void, or has a size and nodes.
pub fn result_has_size(types: &TypeTable, id: TypeId) -> bool
    requires { id.0 < length types.now.terms }
    ensures { IsTrue result ↔ ResultHasSize types.now (type_of types.now id.0) }
{
    match types.term(id) {
        Term::Function { result: given, .. } => is_void(types, *given) || has_size(types, *given),
        _ => true,
    }
}

// Whether a type is a function without parameters, with the list `(void)`, that gives that type.
fn is_signature(types: &TypeTable, id: TypeId, given: TypeId) -> bool
    requires id { id.0 < length types.now.terms }
    requires given { given.0 < length types.now.terms }
    ensures { IsTrue result ↔ (type_of types.now id.0 ≡ FunctionFrom (type_of types.now given.0) NoTypes Fixed) }
{
    match types.term(id) {
        Term::Function {
            result: other,
            parameters,
            form,
        } => match parameters.as_slice() {
            [] => *form == Form::Fixed && types.same(*other, given),
            [_, ..] => false,
        },
        _ => false,
    }
}

// Whether the table has the function type with the list `(void)` that gives that type.
fn signature_in(types: &TypeTable, given: TypeId) -> bool
    requires { given.0 < length types.now.terms }
    ensures { IsTrue result
        ↔ ((id : ℕ) × (id < length types.now.terms)
        × (type_of types.now id ≡ FunctionFrom (type_of types.now given.0) NoTypes Fixed)) }
{
    for id in 0..types.type_count() {
        if is_signature(types, TypeId(id), given) {
            return true;
        }
    }
    false
}

/// Whether a type that is a function without parameters has its type with the list `(void)` in the table.
pub fn has_signature(types: &TypeTable, id: TypeId) -> bool
    requires { id.0 < length types.now.terms }
    ensures { IsTrue result ↔ HasSignature types.now (type_of types.now id.0) }
{
    match types.term(id) {
        Term::Function {
            result: given,
            parameters,
            ..
        } => match parameters.as_slice() {
            [] => signature_in(types, *given),
            [_, ..] => true,
        },
        _ => true,
    }
}
