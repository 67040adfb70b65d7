// The bodies of what names declare (C11 6.7.9, 6.9.1).
ghost use Rattle.std.specs.Prelude.{◌≡◌, ◌<◌, ℕ, List, All, length, IfSome};
ghost use Rattle.std.specs.Option.{option_map};
ghost use Rattle.core_tree.specs.declared.node.Unit.{Unit as UnitSpec};
ghost use Rattle.core_nodes.specs.Standing.{core_at};
ghost use Rattle.c_senses.specs.Sense.{Sense, sense_in};
ghost use Rattle.c_senses.specs.Tree.{Source};
ghost use Rattle.c_senses.specs.Right as right;
ghost use Rattle.c_results.specs.Standing.{sense_made, senses_made, IsWithin};
ghost use Rattle.tree_reads.specs.Sources.{source_in};
ghost use Rattle.unit_names.specs.Bodies.{core_of, place_of_body};

use c_entities::{declaration_of, initialiser_for, is_defined};
use c_grammar::productions::BLOCK;
use c_results::{Made, Results, made_at};
use tree_reads::{Syntax, child_of};

// The core node of a block or of an initialiser, if that is what has been made.
fn core_node(made: &Made) -> Option<u32>
    ensures seen { (u : UnitSpec) → option_map (core_at u) result ≡ core_of (sense_made u made.now) }
    ensures within { (u : UnitSpec) → IsWithin u made.now → IfSome result (λ i. i < length u.nodes.items) }
{
    match made {
        Made::Node(node) => Some(*node),
        Made::Initial { node, .. } => Some(*node),
        Made::Nothing | Made::Typed(_) | Made::Specifiers { .. } | Made::Declarator { .. } => None,
        Made::Derived(_) | Made::Parameter { .. } | Made::Members(_) | Made::Value(_) => None,
        Made::Run(_) => None,
    }
}

// The core node that has been made for a block or an initialiser.
fn core_node_at(results: &Results, node: u32) -> Option<u32>
    ensures seen { (u : UnitSpec) → option_map (core_at u) result ≡ core_of (sense_in (senses_made u results.now) node) }
    ensures within { (u : UnitSpec) → All (IsWithin u) results.now → IfSome result (λ i. i < length u.nodes.items) }
{
    match made_at(results, node) {
        Some(made) => core_node(made),
        None => None,
    }
}

// The block of the definition in which a name is declared.
fn block_for(syntax: &Syntax, leaf: u32) -> Option<u32>
    requires { leaf < length syntax.now.tree.now.nodes.items }
    ensures { (uses : List (ℕ × ℕ)) (senses : List Sense) →
        result ≡ right.block_for (source_in syntax.now uses) senses leaf }
{
    match declaration_of(syntax, leaf) {
        Some(declaration) => child_of(syntax, BLOCK, declaration),
        None => None,
    }
}

// The node that makes the body of what a leaf declares: the block of a function's definition, else the initialiser.
fn place_of_body(syntax: &Syntax, leaf: u32) -> Option<u32>
    requires { leaf < length syntax.now.tree.now.nodes.items }
    ensures { (uses : List (ℕ × ℕ)) (senses : List Sense) →
        result ≡ place_of_body (source_in syntax.now uses) senses leaf }
{
    if is_defined(syntax, leaf) {
        block_for(syntax, leaf)
    } else {
        initialiser_for(syntax, leaf)
    }
}

/// The body of what the declaration of a leaf declares, by its core node: of a function its block (C11 6.9.1), of an object its
/// initialiser (6.7.9); None where it has none, or where none is made.
pub(crate) fn body_at(syntax: &Syntax, results: &Results, leaf: u32) -> Option<u32>
    requires { leaf < length syntax.now.tree.now.nodes.items }
    ensures seen { (u : UnitSpec) (uses : List (ℕ × ℕ)) →
        option_map (core_at u) result ≡ right.body_at (source_in syntax.now uses) (senses_made u results.now) leaf }
    ensures within { (u : UnitSpec) → All (IsWithin u) results.now → IfSome result (λ i. i < length u.nodes.items) }
{
    match place_of_body(syntax, leaf) {
        Some(node) => core_node_at(results, node),
        None => None,
    }
}
