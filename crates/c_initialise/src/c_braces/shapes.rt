//! Which types an initialiser can fill.

ghost use Rattle.std.specs.Prelude.{◌≡◌, ◌<◌, ℕ, length, is_some};
ghost use Rattle.c_types.specs.Table.{type_of, members_in};
ghost use Rattle.c_inits.specs.Made.{shape_of};
ghost use Rattle.c_inits.specs.Tables.{fillable, shape_in};

use c_types::table::TypeTable;
use c_types::term::{Term, TypeId};

/// Whether a tag is complete.
fn has_members(types: &TypeTable, tag: u32) -> bool
    requires { tag < types.now.tags }
    ensures { result ≡ is_some (members_in types.now tag) }
{
    match types.members(tag) {
        Some(_) => true,
        None => false,
    }
}

/// Whether a type is complete (C11 6.2.5p1): no void, no function, and no array without a length; of an array its elements are, and a
/// structure or union has its members.
fn is_complete(types: &TypeTable, id: TypeId) -> bool
    requires { id.0 < length types.now.terms }
    ensures { result ≡ is_some (shape_of (fillable types.now) (type_of types.now id.0)) }
{
    let _count = types.type_count();
    let mut here = id;
    'inward: loop {
        match types.term(here) {
            Term::Array {
                of,
                length: Some(_),
            } => here = *of,
            Term::Structure(tag) => return has_members(types, *tag),
            Term::Union(tag) => return has_members(types, *tag),
            Term::Void | Term::Array { .. } | Term::Function { .. } => return false,
            Term::Bool | Term::Floating | Term::VaList => return true,
            Term::Integer { .. } | Term::Pointer(_) => return true,
        }
    }
}

/// Whether an object of a type can be initialised (C11 6.7.9p3): the type is complete, or an array without a length whose elements
/// are.
pub fn has_shape(types: &TypeTable, id: TypeId) -> bool
    requires { id.0 < length types.now.terms }
    ensures { (limit : ℕ) → result ≡ is_some (shape_in types.now limit id.0) }
{
    match types.term(id) {
        Term::Array { of, length: None } => is_complete(types, *of),
        _ => is_complete(types, id),
    }
}
