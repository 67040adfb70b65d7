// Types of a table by what they are made of.
ghost use Rattle.std.specs.Prelude.{◌≡◌, ◌<◌, true, length, All, Some, IfOk, IfSome, IsOkUnless};
ghost use Rattle.core_tree.specs.declared.node.Unit.{Unit as UnitSpec};
ghost use Rattle.c_types.specs.Table.{type_of};
ghost use Rattle.core_nodes.specs.passed.c_senses.Declarators as spec;
ghost use Rattle.core_nodes.specs.Standing.{IsReady, Builds};
ghost use Rattle.core_nodes.specs.declared.fault.CheckFault.TheVariants.{OutOfMemory};
ghost use Rattle.c_results.specs.Standing.{derivation_seen, derivations_seen, IsWithin};
ghost use Rattle.c_entities.specs.remembered_names.Steps.{type_by};

use crate::remembered_names::same::same_ids;
use crate::remembered_names::steps::TypeSteps;
use c_declarators::derived;
use c_results::{Derivation, Results, declarator_at};
use c_types::table::TypeTable;
use c_types::term::{Term, TypeId};
use core_nodes::CheckFault;
use core_tree::node::Unit;
use std::alloc::Global;

// The type of which a step makes another one.
fn before_step(types: &TypeTable, step: &Derivation, ty: TypeId) -> Option<TypeId>
    requires { ty.0 < length types.now.terms }
    ensures made { IfSome result (λ of.
        type_of types.now ty.0 ≡ spec.derived_once (derivation_seen types.now step.now) (type_of types.now of.0)) }
    ensures within { IfSome result (λ of. of.0 < length types.now.terms) }
{
    match step {
        Derivation::Pointing => match types.term(ty) {
            Term::Pointer(to) => Some(*to),
            _ => None,
        },
        Derivation::Elements(length) => match types.term(ty) {
            Term::Array { of, length: there } if *there == *length => Some(*of),
            _ => None,
        },
        Derivation::Returning { parameters, form } => match types.term(ty) {
            Term::Function {
                result,
                parameters: others,
                form: there,
            } if *there == *form && same_ids(others.as_slice(), parameters.as_slice()) => Some(
                *result,
            ),
            _ => None,
        },
    }
}

// Whether steps make one type of another one.
fn is_made_of(types: &TypeTable, steps: &[Derivation], base: TypeId, ty: TypeId) -> bool
    requires { ty.0 < length types.now.terms }
    ensures { result ≡ true →
        spec.derived (derivations_seen types.now steps.now) (type_of types.now base.0) ≡ type_of types.now ty.0 }
{
    let count = steps.len();
    let mut at = ty;
    for i in 0..count {
        let Some(of) = before_step(types, &steps[count - 1 - i], at) else {
            return false;
        };
        at = of;
    }
    at.0 == base.0
}

/// Whether a type is for sure the one that the steps of a declaration make. It reads the type's own terms alone.
pub fn is_type_of(types: &TypeTable, results: &Results, steps: TypeSteps, ty: TypeId) -> bool
    requires { ty.0 < length types.now.terms }
    ensures { result ≡ true → (u : UnitSpec) → u.types ≡ types.now →
        type_by u results.now steps.base steps.declarator ≡ Some (type_of types.now ty.0) }
{
    let Some(declarator) = steps.declarator else {
        return ty.0 == steps.base.0;
    };
    match declarator_at(results, declarator) {
        Some((_, list)) => is_made_of(types, list, steps.base, ty),
        None => false,
    }
}

/// The type that the steps of a declaration make; None where its declarator hasn't been made. Only memory may want.
pub fn type_made(
    alloc: Global,
    unit: &mut Unit,
    results: &Results,
    steps: TypeSteps,
) -> Result<Option<TypeId>, CheckFault>
    requires ready { IsReady unit.old }
    requires results { All (IsWithin unit.old) results.now }
    requires base { steps.base.0 < length unit.old.types.terms }
    ensures ready { IsReady unit.new }
    ensures builds { Builds unit.old unit.new }
    ensures made { IfOk result (λ found. IfSome found (λ ty.
        type_by unit.new results.now steps.base steps.declarator ≡ Some (type_of unit.new.types ty.0))) }
    ensures within { IfOk result (λ found. IfSome found (λ ty. ty.0 < length unit.new.types.terms)) }
    ensures memory { IsOkUnless result OutOfMemory }
{
    let Some(declarator) = steps.declarator else {
        return Ok(Some(steps.base));
    };
    let Some((_, list)) = declarator_at(results, declarator) else {
        return Ok(None);
    };
    match derived(alloc, unit, list, steps.base) {
        Ok(ty) => Ok(Some(ty)),
        Err(_) => Err(CheckFault::OutOfMemory),
    }
}
