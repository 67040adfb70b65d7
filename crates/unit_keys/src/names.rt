// The names that are declared with a specifier.
#![tactic(auto)]

ghost use Rattle.std.specs.Prelude.{◌≡◌, ◌<◌, ◌++◌, ℕ, List, map, length, IfOk, IfSome, OnOk};
ghost use Rattle.core_tree.specs.declared.node.Unit.{Unit as UnitSpec};
ghost use Rattle.c_senses.specs.Tree.{children_at, spelling_at};
ghost use Rattle.c_senses.specs.Keys as keys;
ghost use Rattle.c_senses.specs.Sense.{Sense, sense_in};
ghost use Rattle.c_results.specs.Standing.{sense_made, senses_made};
ghost use Rattle.tree_reads.specs.Sources.{source_in};
ghost use Rattle.unit_keys.specs.Free.{name_in, leaf_in};

use c_grammar::productions::{DECLARATOR, EXTERNAL, REST, SPECS};
use c_results::{Made, Results, made_at};
use std::alloc::{AllocError, Global};
use tree_reads::{Syntax, child_of, children_of, is_a};

// The name of a declarator, if that is what has been made.
fn name_of(made: &Made) -> Option<u32>
    ensures { (u : UnitSpec) → result ≡ name_in (sense_made u made.now) }
{
    match made {
        Made::Declarator { name, .. } => *name,
        Made::Nothing | Made::Node(_) | Made::Typed(_) | Made::Specifiers { .. } => None,
        Made::Derived(_) | Made::Parameter { .. } | Made::Members(_) | Made::Value(_) => None,
        Made::Run(_) | Made::Initial { .. } => None,
    }
}

// The name of a declarator that has been made for a node.
fn name_at(results: &Results, node: u32) -> Option<u32>
    ensures { (u : UnitSpec) → result ≡ name_in (sense_in (senses_made u results.now) node) }
{
    match made_at(results, node) {
        Some(made) => name_of(made),
        None => None,
    }
}

// The leaf that a declarator declares.
fn leaf_at(syntax: &Syntax, results: &Results, node: u32) -> Option<u32>
    ensures { (u : UnitSpec) (uses : List (ℕ × ℕ)) →
        result ≡ leaf_in (source_in syntax.now uses) (sense_in (senses_made u results.now)) node }
{
    if is_a(syntax, DECLARATOR, node) {
        name_at(results, node)
    } else {
        None
    }
}

/// The declaration whose specifiers have a node as one of a type's words.
pub fn declaration_with(syntax: &Syntax, node: u32) -> Option<u32>
    requires { node < length syntax.now.tree.now.nodes.items }
    ensures with { (uses : List (ℕ × ℕ)) (sense : ℕ → Sense) → result ≡ keys.declaration_with (source_in syntax.now uses) sense node }
    ensures within { IfSome result (λ p. p < length syntax.now.tree.now.nodes.items) }
{
    let ty = syntax.parent_of(node)?;
    let specs = syntax.parent_of(ty)?;
    if is_a(syntax, SPECS, specs) {
        syntax.parent_of(specs)
    } else {
        None
    }
}

// The leaves of the declarators among some nodes, behind others.
fn add_leaves(
    leaves: &mut Vec<u32>,
    syntax: &Syntax,
    results: &Results,
    nodes: &[u32],
) -> Result<(), AllocError>
    ensures { OnOk result ((u : UnitSpec) (uses : List (ℕ × ℕ)) →
        let s = source_in syntax.now uses in
        map (spelling_at s) leaves.new.items
        ≡ map (spelling_at s) leaves.old.items ++ keys.names_among s (sense_in (senses_made u results.now)) nodes.now) }
{
    for node in nodes {
        if let Some(leaf) = leaf_at(syntax, results, *node) {
            leaves.push(leaf)?;
        }
    }
    Ok(())
}

// The leaves of the names that an external declaration declares, in order.
fn leaves_in(
    alloc: Global,
    syntax: &Syntax,
    results: &Results,
    declaration: u32,
) -> Result<Vec<u32>, AllocError>
    ensures { IfOk result (λ leaves. (u : UnitSpec) (uses : List (ℕ × ℕ)) →
        let s = source_in syntax.now uses in
        let sense = sense_in (senses_made u results.now) in
        map (spelling_at s) leaves.items
        ≡ keys.names_among s sense (children_at s declaration) ++ keys.names_in_rest s sense (children_at s declaration)) }
{
    let mut leaves = Vec::new(alloc);
    let children = children_of(syntax, declaration);
    add_leaves(&mut leaves, syntax, results, children)?;
    let rest: &[u32] = match child_of(syntax, REST, declaration) {
        Some(rest) => children_of(syntax, rest),
        None => &[],
    };
    add_leaves(&mut leaves, syntax, results, rest)?;
    Ok(leaves)
}

/// The leaves of the names that are declared at file scope with a specifier, in order.
pub fn leaves_with(
    alloc: Global,
    syntax: &Syntax,
    results: &Results,
    node: u32,
) -> Result<Vec<u32>, AllocError>
    requires { node < length syntax.now.tree.now.nodes.items }
    ensures { IfOk result (λ leaves. (u : UnitSpec) (uses : List (ℕ × ℕ)) →
        let s = source_in syntax.now uses in
        map (spelling_at s) leaves.items ≡ keys.names_with s (sense_in (senses_made u results.now)) node) }
{
    let Some(declaration) = declaration_with(syntax, node) else {
        return Ok(Vec::new(alloc));
    };
    if !is_a(syntax, EXTERNAL, declaration) {
        return Ok(Vec::new(alloc));
    }
    let leaves = leaves_in(alloc, syntax, results, declaration)?;
    Ok(leaves)
}
