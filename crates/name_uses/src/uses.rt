// What may be named and called at a node (C11 6.6, 6.7.9p4).
ghost use Rattle.std.specs.Prelude.{◌≡◌, ◌<◌, ◌&&◌, ℕ, List, All, Some, length, not};
ghost use Rattle.core_tree.specs.declared.node.Unit.{Unit as UnitSpec};
ghost use Rattle.c_senses.specs.Sense.{sense_in};
ghost use Rattle.c_senses.specs.Entities as entities;
ghost use Rattle.c_senses.specs.Entities.{is_in_static as in_static};
ghost use Rattle.c_senses.specs.World.{World};
ghost use Rattle.c_results.specs.Standing.{senses_made};
ghost use Rattle.tree_reads.specs.Sources.{source_in};
ghost use Rattle.c_meanings.specs.Known.{AreChained, AreNamed};
ghost use Rattle.c_grammar.specs.Productions.{p_parameter};
ghost use Rattle.c_senses.specs.Tree.{is_a as is_production};
ghost use Rattle.name_places.specs.Named.{IsNamedIn};
ghost use Rattle.name_uses.specs.Around.{may_name_at};

use c_entities::declaration_of;
use c_grammar::productions::PARAMETER;
use c_meanings::{Names, entity_of, is_automatic, storage_of};
use c_results::Results;
use name_places::{closes_list, function_around, is_in_static, is_in_variadic};
use tree_reads::{Syntax, is_a};

/// Whether a function may be called at a node: not in the initialiser of an object that lasts for the whole run, but for operands there
/// that aren't evaluated (C11 6.6p3, 6.7.9p4). It takes as long as the nesting around the node is deep.
pub fn may_call(syntax: &Syntax, results: &Results, node: u32) -> bool
    requires results { All (IsNamedIn (length syntax.now.tree.now.nodes.items)) results.now }
    requires node { node < length syntax.now.tree.now.nodes.items }
    ensures { (u : UnitSpec) (uses : List (ℕ × ℕ)) →
        result ≡ not (in_static (source_in syntax.now uses) (sense_in (senses_made u results.now)) node) }
{
    !is_in_static(syntax, results, node)
}

/// Whether the object or function that a leaf declares may be named at a node: an automatic object may not in the initialiser of an object
/// that lasts for the whole run, but for operands there that aren't evaluated (C11 6.6p9, 6.7.9p4). It takes as long as the nesting around
/// the node is deep.
pub fn may_name(names: &Names, syntax: &Syntax, results: &Results, node: u32, entity: u32) -> bool
    requires names { AreChained syntax.now names.now }
    requires results { All (IsNamedIn (length syntax.now.tree.now.nodes.items)) results.now }
    requires node { node < length syntax.now.tree.now.nodes.items }
    requires entity { entity < length syntax.now.tree.now.nodes.items }
    ensures { (u : UnitSpec) (uses : List (ℕ × ℕ)) →
        result ≡ may_name_at (source_in syntax.now uses) (sense_in (senses_made u results.now)) node entity }
{
    if !is_in_static(syntax, results, node) {
        return true;
    }
    !is_automatic(storage_of(names, syntax, results, entity))
}

// The same where a declaration or a parameter declares the leaf.
fn further_by(
    names: &Names,
    syntax: &Syntax,
    results: &Results,
    leaf: u32,
    parameter: u32,
) -> Option<u32>
    requires names { AreNamed syntax.now results.now names.now }
    requires results { All (IsNamedIn (length syntax.now.tree.now.nodes.items)) results.now }
    requires leaf { leaf < length syntax.now.tree.now.nodes.items }
    requires parameter { parameter < length syntax.now.tree.now.nodes.items }
    ensures { (u : UnitSpec) (w : World) (uses : List (ℕ × ℕ)) →
        result
        ≡ entities.further_by w (source_in syntax.now uses) (sense_in (senses_made u results.now)) leaf (Some parameter) }
{
    if !is_further(syntax, results, leaf, parameter) {
        return None;
    }
    match function_around(syntax, results, leaf) {
        Some(function) => Some(entity_of(names, syntax, results, function)),
        None => None,
    }
}

// The same for the declaration that a leaf stands in, where the function around the leaf is variadic.
fn is_further(syntax: &Syntax, results: &Results, leaf: u32, parameter: u32) -> bool
    requires leaf { leaf < length syntax.now.tree.now.nodes.items }
    requires parameter { parameter < length syntax.now.tree.now.nodes.items }
    ensures { (u : UnitSpec) (w : World) (uses : List (ℕ × ℕ)) →
        let s = source_in syntax.now uses in
        let sense = sense_in (senses_made u results.now) in
        result
        ≡ ((is_production s p_parameter parameter && entities.closes_list w s sense parameter) && entities.is_in_variadic s sense leaf) }
{
    is_last_of(syntax, results, parameter) && is_in_variadic(syntax, results, leaf)
}

// Whether a declaration is the last parameter in the list of a function that is defined.
fn is_last_of(syntax: &Syntax, results: &Results, parameter: u32) -> bool
    requires { parameter < length syntax.now.tree.now.nodes.items }
    ensures { (u : UnitSpec) (w : World) (uses : List (ℕ × ℕ)) →
        let s = source_in syntax.now uses in
        result
        ≡ (is_production s p_parameter parameter && entities.closes_list w s (sense_in (senses_made u results.now)) parameter) }
{
    is_a(syntax, PARAMETER, parameter) && closes_list(syntax, results, parameter)
}

/// The entity of the variadic function whose definition has its last parameter declared at a leaf (C11 7.16.1.4p4). It takes as long as the
/// nesting around the leaf is deep.
pub fn further_of(names: &Names, syntax: &Syntax, results: &Results, leaf: u32) -> Option<u32>
    requires names { AreNamed syntax.now results.now names.now }
    requires results { All (IsNamedIn (length syntax.now.tree.now.nodes.items)) results.now }
    ensures { (u : UnitSpec) (w : World) (uses : List (ℕ × ℕ)) →
        result ≡ entities.further_of w (source_in syntax.now uses) (sense_in (senses_made u results.now)) leaf }
{
    if leaf as usize >= syntax.tree.nodes.len() {
        return None;
    }
    match declaration_of(syntax, leaf) {
        Some(parameter) => further_by(names, syntax, results, leaf, parameter),
        None => None,
    }
}
