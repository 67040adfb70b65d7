// What a function's type says of its calls (C11 6.5.2.2).
#![tactic(auto, using(crate::proofs::Parameters::signatures))]

ghost use Rattle.std.specs.Prelude.{◌≡◌, ◌<◌, length, slice_get, IfSome};
ghost use Rattle.c_types.specs.Table.{type_of};
ghost use Rattle.c_senses.specs.World.{World};
ghost use Rattle.c_senses.specs.Objects as spec;
ghost use Rattle.core_nodes.specs.Standing.{Knows};
ghost use Rattle.c_conversions.specs.Targets.{type_seen};
ghost use Rattle.value_rows.specs.Calls.{result_in, parameters_in, form_in, types_after, first_type, PointsTo};

use c_types::table::TypeTable;
use c_types::term::{Form, Term, TypeId};
use core_nodes::sorts::has_size;
use core_tree::node::Unit;

// The type of what a function returns; another type is its own.
pub(crate) fn result_type(types: &TypeTable, function: TypeId) -> TypeId
    requires { function.0 < length types.now.terms }
    ensures ty { type_of types.now result.0 ≡ result_in (type_of types.now function.0) }
    ensures within { result.0 < length types.now.terms }
{
    match types.term(function) {
        Term::Function { result, .. } => *result,
        _ => function,
    }
}

// Parameter k of some, from 0.
fn one_of(parameters: &[TypeId], k: usize) -> Option<TypeId>
    ensures { result ≡ slice_get parameters.now k }
{
    parameters.get(k).copied()
}

// The type of parameter k of a function, from 0, if it has so many.
pub(crate) fn parameter_type(types: &TypeTable, function: TypeId, k: usize) -> Option<TypeId>
    requires { function.0 < length types.now.terms }
    ensures ty { type_seen types.now result ≡ first_type (types_after k (parameters_in (type_of types.now function.0))) }
    ensures within { IfSome result (λ t. t.0 < length types.now.terms) }
{
    match types.term(function) {
        Term::Function { parameters, .. } => one_of(parameters.as_slice(), k),
        _ => None,
    }
}

// Whether a list of so many parameters takes so many arguments.
fn list_takes(form: Form, parameters: usize, arguments: usize) -> bool
    ensures { result ≡ spec.takes_so_many form parameters arguments }
{
    match form {
        Form::Fixed => parameters == arguments,
        Form::Variadic => parameters <= arguments,
        Form::Unspecified => true,
    }
}

// Whether a function takes so many arguments.
pub(crate) fn takes_so_many(types: &TypeTable, function: TypeId, arguments: usize) -> bool
    requires { function.0 < length types.now.terms }
    ensures { result ≡ spec.takes_so_many (form_in (type_of types.now function.0))
        (spec.count_of (parameters_in (type_of types.now function.0))) arguments }
{
    match types.term(function) {
        Term::Function {
            parameters,
            form,
            ..
        } => list_takes(*form, parameters.as_slice().len(), arguments),
        _ => true,
    }
}

// Whether a call may give a value of that type: void, or a complete type.
pub(crate) fn is_returned(unit: &Unit, ty: TypeId) -> bool
    requires { ty.0 < length unit.now.types.terms }
    ensures { (w : World) → Knows w unit.now → result ≡ spec.is_returned w (type_of unit.now.types ty.0) }
{
    match unit.types.term(ty) {
        Term::Void => true,
        _ => has_size(unit, ty),
    }
}

// The function to which a pointer of that type points, if it points to one.
pub(crate) fn called_function(types: &TypeTable, pointer: TypeId) -> Option<TypeId>
    requires { pointer.0 < length types.now.terms }
    ensures points { PointsTo (type_of types.now pointer.0) types.now result }
    ensures within { IfSome result (λ f. f.0 < length types.now.terms) }
{
    match types.term(pointer) {
        Term::Pointer(to) => match types.term(*to) {
            Term::Function { .. } => Some(*to),
            _ => None,
        },
        _ => None,
    }
}
