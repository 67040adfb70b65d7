// The structure around a node in its members.
#![tactic(auto)]

ghost use Rattle.std.specs.Prelude.{◌≡◌, ◌<◌, ℕ, List, length, option_and_then, IfSome};
ghost use Rattle.core_tree.specs.declared.node.Unit.{Unit as UnitSpec};
ghost use Rattle.c_senses.specs.Tree as tree;
ghost use Rattle.c_senses.specs.Keys as keys;
ghost use Rattle.c_senses.specs.Sense.{Sense, sense_in};
ghost use Rattle.c_results.specs.Standing.{senses_made};
ghost use Rattle.tree_reads.specs.Sources.{source_in};
ghost use Rattle.unit_keys.specs.Placed.{ArePositions};

use crate::{declaration_with, parts_of};
use c_grammar::productions::MEMBER;
use c_results::Results;
use tree_reads::leaf_maps::LeafMap;
use tree_reads::{Syntax, is_a};

/// The declaration of members that has a node as a word of its specifiers.
pub fn member_around(syntax: &Syntax, node: u32) -> Option<u32>
    requires { node < length syntax.now.tree.now.nodes.items }
    ensures around { (uses : List (ℕ × ℕ)) (sense : ℕ → Sense) → result ≡ keys.member_around (source_in syntax.now uses) sense node }
    ensures within { IfSome result (λ p. p < length syntax.now.tree.now.nodes.items) }
{
    match declaration_with(syntax, node) {
        Some(declaration) => if is_a(syntax, MEMBER, declaration) {
            Some(declaration)
        } else {
            None
        },
        None => None,
    }
}

// The list of members that has a node in the specifiers of one.
fn list_around(syntax: &Syntax, node: u32) -> Option<u32>
    requires { node < length syntax.now.tree.now.nodes.items }
    ensures around { (uses : List (ℕ × ℕ)) (sense : ℕ → Sense) → result ≡ keys.list_around (source_in syntax.now uses) sense node }
    ensures within { IfSome result (λ p. p < length syntax.now.tree.now.nodes.items) }
{
    match member_around(syntax, node) {
        Some(member) => syntax.parent_of(member),
        None => None,
    }
}

/// The structure in whose members a node is a word of the specifiers.
pub fn structure_around(syntax: &Syntax, node: u32) -> Option<u32>
    requires { node < length syntax.now.tree.now.nodes.items }
    ensures around { (uses : List (ℕ × ℕ)) (sense : ℕ → Sense) →
        let s = source_in syntax.now uses in
        result ≡ option_and_then (tree.parent_of s) (keys.list_around s sense node) }
    ensures within { IfSome result (λ p. p < length syntax.now.tree.now.nodes.items) }
{
    match list_around(syntax, node) {
        Some(list) => syntax.parent_of(list),
        None => None,
    }
}

/// Whether a node is a word of the specifiers of a declaration that declares members.
pub fn has_members(syntax: &Syntax, results: &Results, node: u32) -> bool
    requires { node < length syntax.now.tree.now.nodes.items }
    ensures { (u : UnitSpec) (uses : List (ℕ × ℕ)) →
        result ≡ keys.has_members (source_in syntax.now uses) (sense_in (senses_made u results.now)) node }
{
    match member_around(syntax, node) {
        Some(member) => 0 < parts_of(results, member),
        None => false,
    }
}

/// The position of the first member of the declaration in whose specifiers a node is a word, by the positions of all such declarations.
pub fn position_in(syntax: &Syntax, positions: &LeafMap, node: u32) -> u32
    requires { node < length syntax.now.tree.now.nodes.items }
    ensures { (uses : List (ℕ × ℕ)) (sense : ℕ → Sense) →
        let s = source_in syntax.now uses in
        ArePositions s sense positions.now (length s.nodes) → result ≡ keys.position_in s sense node }
{
    match member_around(syntax, node) {
        Some(member) => positions.get(member).unwrap_or(0),
        None => 0,
    }
}
