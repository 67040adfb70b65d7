// The function around a node.
ghost use Rattle.std.specs.Prelude.{◌≡◌, ◌<◌, ℕ, List, length, All, IfOk, IfSome, IsOkUnless};
ghost use Rattle.std.specs.Option.{option_copied, option_map};
ghost use Rattle.core_tree.specs.declared.node.Unit.{Unit as UnitSpec};
ghost use Rattle.c_types.specs.Table.{type_of};
ghost use Rattle.c_grammar.specs.Productions.{p_declarator};
ghost use Rattle.c_senses.specs.Tree.{Source, spelling_at};
ghost use Rattle.c_senses.specs.Sense.{Sense, sense_in};
ghost use Rattle.c_senses.specs.World.{World};
ghost use Rattle.c_senses.specs.Entities as spec;
ghost use Rattle.c_senses.specs.Statements.{returned_type};
ghost use Rattle.core_nodes.specs.Standing.{IsReady, Builds};
ghost use Rattle.c_results.specs.Standing.{derivation_seen, derivations_seen, senses_made, IsWithin, TypeSeen};
ghost use Rattle.tree_reads.specs.Sources.{source_read, source_in};
ghost use Rattle.name_places.specs.Named.{IsNamedIn};

use crate::levels::{Level, nearest};
use crate::names::{declarator_of, declared_name};
use c_entities::own_type;
use c_grammar::productions::DECLARATOR;
use c_results::{Derivation, Results};
use c_types::table::TypeTable;
use c_types::term::{Form, Term, TypeId};
use core_nodes::CheckFault;
use core_tree::node::Unit;
use std::alloc::Global;
use tree_reads::{Syntax, child_of, spelling_of};

// The name of what an external declaration defines.
fn defined_name(syntax: &Syntax, results: &Results, definition: u32) -> Option<u32>
    ensures name { (u : UnitSpec) →
        result ≡ spec.defined_name (source_read syntax.now) (sense_in (senses_made u results.now)) definition }
    ensures within { (count : ℕ) → All (IsNamedIn count) results.now → IfSome result (λ leaf. leaf < count) }
{
    match child_of(syntax, DECLARATOR, definition) {
        Some(declarator) => declared_name(results, declarator),
        None => None,
    }
}

/// The function in whose definition a node stands, by the leaf of its name (C11 6.9.1); None outside of functions. It takes as
/// long as the nesting around the node is deep.
pub fn function_around(syntax: &Syntax, results: &Results, node: u32) -> Option<u32>
    requires { node < length syntax.now.tree.now.nodes.items }
    ensures name { (u : UnitSpec) →
        result ≡ spec.function_around (source_read syntax.now) (sense_in (senses_made u results.now)) node }
    ensures within { (count : ℕ) → All (IsNamedIn count) results.now → IfSome result (λ leaf. leaf < count) }
{
    match nearest(syntax, Level::Definition, node) {
        Some(definition) => defined_name(syntax, results, definition),
        None => None,
    }
}

// Whether a step is that of a function that takes arguments past its parameters.
fn takes_further(step: &Derivation) -> bool
    ensures { (u : UnitSpec) → result ≡ spec.takes_further (derivation_seen u.types step.now) }
{
    match step {
        Derivation::Returning {
            form: Form::Variadic,
            ..
        } => true,
        _ => false,
    }
}

// Whether a declarator with those steps declares a function that takes arguments past its parameters.
fn ends_further(steps: &[Derivation]) -> bool
    ensures { (u : UnitSpec) → result ≡ spec.ends_further (derivations_seen u.types steps.now) }
{
    match steps.last() {
        Some(step) => takes_further(step),
        None => false,
    }
}

// Whether what an external declaration defines takes arguments past its parameters.
fn is_variadic_definition(syntax: &Syntax, results: &Results, definition: u32) -> bool
    ensures { (u : UnitSpec) →
        result ≡ spec.is_variadic_definition (source_read syntax.now) (sense_in (senses_made u results.now)) definition }
{
    let Some(node) = child_of(syntax, DECLARATOR, definition) else {
        return false;
    };
    match declarator_of(results, node) {
        Some((_, steps)) => ends_further(steps),
        None => false,
    }
}

/// Whether the function in whose definition a node stands takes arguments past its parameters (C11 6.9.1, 7.16); false outside of
/// functions. It takes as long as the nesting around the node is deep.
pub fn is_in_variadic(syntax: &Syntax, results: &Results, node: u32) -> bool
    requires { node < length syntax.now.tree.now.nodes.items }
    ensures { (u : UnitSpec) →
        result ≡ spec.is_in_variadic (source_read syntax.now) (sense_in (senses_made u results.now)) node }
{
    match nearest(syntax, Level::Definition, node) {
        Some(definition) => is_variadic_definition(syntax, results, definition),
        None => false,
    }
}

/// How the function around a node is named (C11 6.4.2.2): what `__func__` stands for there.
pub fn own_name<'a>(syntax: &Syntax<'a>, results: &Results, node: u32) -> Option<&'a [u8]>
    requires { node < length syntax.now.tree.now.nodes.items }
    ensures { (u : UnitSpec) →
        let s = source_read syntax.now in
        option_copied result ≡ option_map (spelling_at s) (spec.function_around s (sense_in (senses_made u results.now)) node) }
{
    match function_around(syntax, results, node) {
        Some(leaf) => Some(spelling_of(syntax, leaf)),
        None => None,
    }
}

/// What a function's type says that it returns (C11 6.7.6.3); another type is its own answer.
pub fn result_of(types: &TypeTable, ty: TypeId) -> TypeId
    requires { ty.0 < length types.now.terms }
    ensures result { (w : World) (s : Source) (sense : ℕ → Sense) →
        type_of types.now result.0 ≡ spec.result_of w s sense (type_of types.now ty.0) }
    ensures within { result.0 < length types.now.terms }
{
    match types.term(ty) {
        Term::Function { result, .. } => *result,
        _ => ty,
    }
}

/// The type that the function around a node returns (C11 6.8.6.4), which a return is asked for; None outside of functions. Only
/// memory may want.
pub fn returned_type(
    alloc: Global,
    unit: &mut Unit,
    syntax: &Syntax,
    results: &Results,
    node: u32,
) -> Result<Option<TypeId>, CheckFault>
    requires ready { IsReady unit.old }
    requires results { All (IsWithin unit.old) results.now }
    requires names { All (IsNamedIn (length syntax.now.tree.now.nodes.items)) results.now }
    requires node { node < length syntax.now.tree.now.nodes.items }
    ensures ready { IsReady unit.new }
    ensures builds { Builds unit.old unit.new }
    ensures made { (w : World) (uses : List (ℕ × ℕ)) →
        IfOk result (λ t.
        TypeSeen unit.new t (returned_type w (source_in syntax.now uses) (sense_in (senses_made unit.old results.now)) node)) }
    ensures within { IfOk result (λ t. IfSome t (λ id. id.0 < length unit.new.types.terms)) }
    ensures memory { IsOkUnless result CheckFault.OutOfMemory }
{
    let Some(leaf) = function_around(syntax, results, node) else {
        return Ok(None);
    };
    match own_type(alloc, unit, syntax, results, leaf) {
        Ok(Some(ty)) => Ok(Some(result_of(&unit.types, ty))),
        Ok(None) => Ok(None),
        Err(_) => Err(CheckFault::OutOfMemory),
    }
}
