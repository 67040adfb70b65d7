// The type that a declaration gives its name.
ghost use Rattle.std.specs.Prelude.{◌≡◌, ◌<◌, length, All, IfOk, IfSome, IsOkUnless};
ghost use Rattle.core_tree.specs.declared.node.Unit.{Unit as UnitSpec};
ghost use Rattle.core_nodes.specs.passed.c_senses.Sense.{sense_in};
ghost use Rattle.core_nodes.specs.passed.c_senses.Entities as spec;
ghost use Rattle.core_nodes.specs.passed.c_senses.Declarators.{outermost_of};
ghost use Rattle.core_nodes.specs.Standing.{IsReady, Builds};
ghost use Rattle.c_results.specs.Standing.{sense_made, senses_made, IsWithin, TypeSeen};
ghost use Rattle.tree_reads.specs.Sources.{source_read};
ghost use Rattle.c_entities.specs.Types.{type_in};
ghost use Rattle.c_entities.specs.Words.{length_in};

use crate::declaring::{declaration_of, is_parameter};
use crate::initialisers::initialiser_for;
use crate::types::with_length;
use c_declarators::{derived, specs_of};
use c_results::{Made, Results, declarator_at, made_at, parameter_at, specified_at};
use c_types::term::TypeId;
use core_nodes::CheckFault;
use core_tree::node::Unit;
use std::alloc::Global;
use tree_reads::{Above, Syntax, nearest_above};

// The number of elements that an initialiser gives an array, if that is what has been made.
fn length_made(made: &Made) -> Option<u64>
    ensures { (u : UnitSpec) → result ≡ length_in (sense_made u made.now) }
{
    match made {
        Made::Initial { length, .. } => *length,
        Made::Nothing | Made::Node(_) | Made::Typed(_) | Made::Specifiers { .. } => None,
        Made::Declarator { .. } | Made::Derived(_) | Made::Parameter { .. } => None,
        Made::Members(_) | Made::Value(_) | Made::Run(_) => None,
    }
}

/// The number of elements that the initialiser of a name gives an array without a length (C11 6.7.9p22); None where it has no
/// initialiser, where that gives none, or where it isn't made yet.
pub fn length_given(syntax: &Syntax, results: &Results, leaf: u32) -> Option<u64>
    requires { leaf < length syntax.now.tree.now.nodes.items }
    ensures { (u : UnitSpec) →
        let s = source_read syntax.now in
        let sense = sense_in (senses_made u results.now) in
        result ≡ spec.length_given_by s sense (spec.initialiser_for s sense leaf) }
{
    match initialiser_for(syntax, leaf) {
        Some(initialiser) => match made_at(results, initialiser) {
            Some(made) => length_made(made),
            None => None,
        },
        None => None,
    }
}

// The adjusted type of a parameter by the leaf of its name.
fn parameter_type(syntax: &Syntax, results: &Results, leaf: u32) -> Option<TypeId>
    requires { leaf < length syntax.now.tree.now.nodes.items }
    ensures seen { (u : UnitSpec) →
        let s = source_read syntax.now in
        let sense = sense_in (senses_made u results.now) in
        type_in u.types result ≡ spec.parameter_type s sense (spec.declaration_of s sense leaf) }
    ensures within { (u : UnitSpec) → All (IsWithin u) results.now → IfSome result (λ t. t.0 < length u.types.terms) }
{
    match declaration_of(syntax, leaf) {
        Some(declaration) => match parameter_at(results, declaration) {
            Some((_, ty)) => Some(ty),
            None => None,
        },
        None => None,
    }
}

// The type that specifiers and a declarator make, without what an initialiser adds.
fn derived_type(
    alloc: Global,
    unit: &mut Unit,
    syntax: &Syntax,
    results: &Results,
    leaf: u32,
) -> Result<Option<TypeId>, CheckFault>
    requires ready { IsReady unit.old }
    requires results { All (IsWithin unit.old) results.now }
    requires leaf { leaf < length syntax.now.tree.now.nodes.items }
    ensures ready { IsReady unit.new }
    ensures builds { Builds unit.old unit.new }
    ensures made { let s = source_read syntax.now in
        let sense = sense_in (senses_made unit.old results.now) in
        IfOk result (λ t.
        type_in unit.new.types t ≡ spec.derived_type s sense (spec.specified_of s sense leaf) (outermost_of s leaf)) }
    ensures within { IfOk result (λ t. IfSome t (λ id. id.0 < length unit.new.types.terms)) }
    ensures memory { IsOkUnless result CheckFault.OutOfMemory }
{
    let Some(declarator) = nearest_above(syntax, Above::Outermost, leaf) else {
        return Ok(None);
    };
    let Some(specifiers) = specs_of(syntax, declarator) else {
        return Ok(None);
    };
    let Some(base) = specified_at(results, specifiers) else {
        return Ok(None);
    };
    let Some((_, steps)) = declarator_at(results, declarator) else {
        return Ok(None);
    };
    let Ok(ty) = derived(alloc, unit, steps, base) else {
        return Err(CheckFault::OutOfMemory);
    };
    Ok(Some(ty))
}

/// The type that its own declaration gives a name (C11 6.7.6): of a parameter the adjusted one (6.7.6.3p7, p8); an initialiser
/// that is made gives an array its length (6.7.9p22). None where the declaration isn't made. Only memory may want.
pub fn own_type(
    alloc: Global,
    unit: &mut Unit,
    syntax: &Syntax,
    results: &Results,
    leaf: u32,
) -> Result<Option<TypeId>, CheckFault>
    requires ready { IsReady unit.old }
    requires results { All (IsWithin unit.old) results.now }
    requires leaf { leaf < length syntax.now.tree.now.nodes.items }
    ensures ready { IsReady unit.new }
    ensures builds { Builds unit.old unit.new }
    ensures made { let sense = sense_in (senses_made unit.old results.now) in
        IfOk result (λ t. type_in unit.new.types t ≡ spec.own_type (source_read syntax.now) sense leaf) }
    ensures within { IfOk result (λ t. IfSome t (λ id. id.0 < length unit.new.types.terms)) }
    ensures memory { IsOkUnless result CheckFault.OutOfMemory }
{
    if is_parameter(syntax, leaf) {
        return Ok(parameter_type(syntax, results, leaf));
    }
    let count = length_given(syntax, results, leaf);
    match derived_type(alloc, unit, syntax, results, leaf) {
        Ok(Some(ty)) => match with_length(unit, count, ty) {
            Ok(whole) => Ok(Some(whole)),
            Err(_) => Err(CheckFault::OutOfMemory),
        },
        Ok(None) => Ok(None),
        Err(_) => Err(CheckFault::OutOfMemory),
    }
}
