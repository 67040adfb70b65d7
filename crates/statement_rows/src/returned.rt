// The type that the function around a node returns (C11 6.8.6.4, 6.9.1).
ghost use Rattle.std.specs.Prelude.{◌≡◌, ◌<◌, ℕ, List, length, All, IfOk, IfSome, IsOkUnless};
ghost use Rattle.c_types.specs.Table.{type_of};
ghost use Rattle.c_senses.specs.World.{World};
ghost use Rattle.c_senses.specs.Tree as tree;
ghost use Rattle.c_senses.specs.Tree.{Source};
ghost use Rattle.c_senses.specs.Entities as entities;
ghost use Rattle.c_senses.specs.Sense.{Sense, sense_in};
ghost use Rattle.c_senses.specs.Statements as spec;
ghost use Rattle.parsed_tree_laws.specs.sense_laws.Senses.{ChildrenFirst};
ghost use Rattle.core_tree.specs.declared.node.Unit.{Unit as UnitSpec};
ghost use Rattle.core_nodes.specs.Standing.{IsReady, Builds};
ghost use Rattle.c_results.specs.Standing.{senses_made, IsWithin, TypeSeen};
ghost use Rattle.tree_reads.specs.Sources.{source_read, source_in};
ghost use Rattle.statement_rows.specs.Parts.{is_definition};

use crate::objects::name_at;
use c_entities::own_type;
use c_grammar::productions::{BLOCK, DECLARATOR, EXTERNAL};
use c_results::Results;
use c_types::table::TypeTable;
use c_types::term::{Term, TypeId};
use core_nodes::CheckFault;
use core_tree::node::Unit;
use std::alloc::Global;
use tree_reads::{Syntax, child_of, is_a};

// Whether a node is a function definition.
fn is_definition(syntax: &Syntax, node: u32) -> bool
    ensures { result ≡ is_definition (source_read syntax.now) node }
{
    is_a(syntax, EXTERNAL, node) && child_of(syntax, BLOCK, node).is_some()
}

// The function definition around a node.
fn definition_around(syntax: &Syntax, node: u32) -> Option<u32>
    requires { node < length syntax.now.tree.now.nodes.items }
    ensures nearest { result ≡ tree.nearest_above (source_read syntax.now) (is_definition (source_read syntax.now)) node }
    ensures within { IfSome result (λ p. p < length syntax.now.tree.now.nodes.items) }
{
    let mut next = syntax.parent_of(node);
    for _step in 0..syntax.tree.nodes.len() {
        let Some(parent) = next else {
            return None;
        };
        if is_definition(syntax, parent) {
            return Some(parent);
        }
        next = syntax.parent_of(parent);
    }
    None
}

// The function in whose definition a node stands, by the leaf of its name.
fn function_around(syntax: &Syntax, results: &Results, node: u32) -> Option<u32>
    requires { node < length syntax.now.tree.now.nodes.items }
    ensures { (u : UnitSpec) →
        result ≡ entities.function_around (source_read syntax.now) (sense_in (senses_made u results.now)) node }
{
    let definition = definition_around(syntax, node)?;
    let declarator = child_of(syntax, DECLARATOR, definition)?;
    name_at(results, declarator)
}

// The type that a function of a type returns; a type that is no function's is its own.
fn result_of(types: &TypeTable, ty: TypeId) -> TypeId
    requires { ty.0 < length types.now.terms }
    ensures result { (w : World) (s : Source) (sense : ℕ → Sense) →
        type_of types.now result.0 ≡ entities.result_of w s sense (type_of types.now ty.0) }
    ensures within { result.0 < length types.now.terms }
{
    match types.term(ty) {
        Term::Function { result, .. } => *result,
        _ => ty,
    }
}

/// The type that the function around a node returns (C11 6.8.6.4, 6.9.1), by what has been made for its declarator; None where
/// the node stands in no function. Only memory may want.
pub fn returned_type(
    alloc: Global,
    unit: &mut Unit,
    syntax: &Syntax,
    results: &Results,
    at: u32,
) -> Result<Option<TypeId>, CheckFault>
    requires ready { IsReady unit.old }
    requires results { All (IsWithin unit.old) results.now }
    requires ordered { ChildrenFirst (source_read syntax.now) }
    requires at { at < length syntax.now.tree.now.nodes.items }
    ensures ready { IsReady unit.new }
    ensures builds { Builds unit.old unit.new }
    ensures seen { (w : World) (uses : List (ℕ × ℕ)) →
        let sense = sense_in (senses_made unit.old results.now) in
        IfOk result (λ t. TypeSeen unit.new t (spec.returned_type w (source_in syntax.now uses) sense at)) }
    ensures within { IfOk result (λ t. IfSome t (λ id. id.0 < length unit.new.types.terms)) }
    ensures memory { IsOkUnless result CheckFault.OutOfMemory }
{
    let Some(leaf) = function_around(syntax, results, at) else {
        return Ok(None);
    };
    if leaf as usize >= syntax.tree.nodes.len() {
        return Ok(None);
    }
    match own_type(alloc, unit, syntax, results, leaf) {
        Ok(Some(ty)) => Ok(Some(result_of(&unit.types, ty))),
        Ok(None) => Ok(None),
        Err(_) => Err(CheckFault::OutOfMemory),
    }
}
