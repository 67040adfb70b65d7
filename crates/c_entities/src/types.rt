// The types that declarations of one name give together (C11 6.2.7).
ghost use Rattle.std.specs.Prelude.{◌≡◌, ◌<◌, length, All, IfOk, IfSome};
ghost use Rattle.c_types.specs.Table.{type_of};
ghost use Rattle.core_nodes.specs.passed.c_senses.Entities as spec;
ghost use Rattle.core_nodes.specs.Standing.{IsReady, Builds, TypeMade};
ghost use Rattle.c_entities.specs.Types.{type_in, types_in, is_unspecified};

use c_types::table::TypeTable;
use c_types::term::{Form, Term, TypeId};
use core_nodes::CheckFault;
use core_nodes::sorts::same_types;
use core_nodes::trees::add_type;
use core_tree::node::Unit;

// Whether a function's type says nothing of its parameters.
fn is_unspecified(form: Form) -> bool
    ensures { result ≡ is_unspecified form }
{
    match form {
        Form::Unspecified => true,
        Form::Fixed | Form::Variadic => false,
    }
}

/// Whether two types agree at their top (C11 6.2.7p3): the same type; functions of one result, of which one has no list; or
/// arrays of one element, of which one has no length.
pub fn agree(types: &TypeTable, a: TypeId, b: TypeId) -> bool
    requires left { a.0 < length types.now.terms }
    requires right { b.0 < length types.now.terms }
    ensures { result ≡ spec.agree (type_of types.now a.0) (type_of types.now b.0) }
{
    match types.term(a) {
        Term::Function { result, form, .. } => match types.term(b) {
            Term::Function {
                result: other,
                form: second,
                ..
            } => {
                if is_unspecified(*form) || is_unspecified(*second) {
                    same_types(types, *result, *other)
                } else {
                    same_types(types, a, b)
                }
            }
            _ => same_types(types, a, b),
        },
        Term::Array { of, length } => match types.term(b) {
            Term::Array {
                of: other,
                length: second,
            } => {
                if length.is_none() || second.is_none() {
                    same_types(types, *of, *other)
                } else {
                    same_types(types, a, b)
                }
            }
            _ => same_types(types, a, b),
        },
        _ => same_types(types, a, b),
    }
}

/// Of two types that agree the one with the list or the length (C11 6.2.7p3), else the second.
fn fuller(types: &TypeTable, a: TypeId, b: TypeId) -> TypeId
    requires left { a.0 < length types.now.terms }
    requires right { b.0 < length types.now.terms }
    ensures gives { type_of types.now result.0 ≡ spec.fuller (type_of types.now a.0) (type_of types.now b.0) }
    ensures within { result.0 < length types.now.terms }
{
    match types.term(a) {
        Term::Function { form, .. } => match types.term(b) {
            Term::Function { form: second, .. } => {
                if is_unspecified(*second) && !is_unspecified(*form) {
                    a
                } else {
                    b
                }
            }
            _ => b,
        },
        Term::Array { length, .. } => match types.term(b) {
            Term::Array { length: second, .. } => {
                if second.is_none() && length.is_some() {
                    a
                } else {
                    b
                }
            }
            _ => b,
        },
        _ => b,
    }
}

/// The type that two declarations of a name give together (C11 6.2.7p4); where they don't agree, the second one's.
pub fn together(types: &TypeTable, a: TypeId, b: TypeId) -> TypeId
    requires left { a.0 < length types.now.terms }
    requires right { b.0 < length types.now.terms }
    ensures gives { type_of types.now result.0 ≡ spec.together (type_of types.now a.0) (type_of types.now b.0) }
    ensures within { result.0 < length types.now.terms }
{
    if agree(types, a, b) {
        fuller(types, a, b)
    } else {
        b
    }
}

/// The type that declarations give together, in their order, behind one that is known, if one is.
pub fn all_together(types: &TypeTable, before: Option<TypeId>, list: &[TypeId]) -> Option<TypeId>
    requires before { IfSome before (λ t. t.0 < length types.now.terms) }
    requires list { All (λ t. t.0 < length types.now.terms) list.now }
    ensures gives { type_in types.now result ≡ spec.all_together (type_in types.now before) (types_in types.now list.now) }
    ensures within { IfSome result (λ t. t.0 < length types.now.terms) }
{
    let mut so_far = before;
    for ty in list {
        so_far = match so_far {
            Some(known) => Some(together(types, known, *ty)),
            None => Some(*ty),
        };
    }
    so_far
}

/// A type, where an array without a length gets the one that its initialiser gives (C11 6.7.9p22).
pub fn with_length(unit: &mut Unit, count: Option<u64>, ty: TypeId) -> Result<TypeId, CheckFault>
    requires ready { IsReady unit.old }
    requires ty { ty.0 < length unit.old.types.terms }
    ensures ready { IsReady unit.new }
    ensures builds { Builds unit.old unit.new }
    ensures made { TypeMade unit.new result (spec.with_length count (type_of unit.old.types ty.0)) }
    ensures within { IfOk result (λ id. id.0 < length unit.new.types.terms) }
{
    let Some(count) = count else {
        return Ok(ty);
    };
    match unit.types.term(ty) {
        Term::Array { of, length: None } => {
            let of = *of;
            add_type(
                unit,
                Term::Array {
                    of,
                    length: Some(count),
                },
            )
        }
        _ => Ok(ty),
    }
}
