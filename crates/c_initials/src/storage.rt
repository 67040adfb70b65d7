// Which entities have their places for the whole run (C11 6.2.4).
ghost use Rattle.std.specs.Prelude.{◌≡◌, ◌<◌, ℕ, length, get_or, false, IfSome};
ghost use Rattle.core_tree.specs.declared.node.Unit.{Unit as UnitSpec};
ghost use Rattle.c_grammar.specs.Productions.{p_block};
ghost use Rattle.c_senses.specs.Tree as tree;
ghost use Rattle.c_senses.specs.World.{World};
ghost use Rattle.c_senses.specs.Sense.{Sense, sense_in};
ghost use Rattle.c_senses.specs.Entities as entities;
ghost use Rattle.c_senses.specs.Initialised as spec;
ghost use Rattle.c_results.specs.Standing.{senses_made};
ghost use Rattle.tree_reads.specs.Sources.{source_read};
ghost use Rattle.c_initials.specs.Scope.{AreFunctions};

use c_entities::{has_storage, is_at_file, is_parameter};
use c_grammar::productions::BLOCK;
use c_results::Results;
use tree_reads::{Syntax, is_a, is_name};

const WORD_EXTERN: u8 = 11;

const WORD_STATIC: u8 = 25;

/// What the values of an initialiser are read from: the tree, what was made for its nodes, and by leaf which names are declared as
/// functions.
#[derive(Clone, Copy, Drop)]
pub struct Scope<'a> {
    pub syntax: &'a Syntax<'a>,
    pub results: &'a Results,
    pub functions: &'a [bool],
}

// The nearest block above a node.
fn block_above(syntax: &Syntax, node: u32) -> Option<u32>
    requires { node < length syntax.now.tree.now.nodes.items }
    ensures { let s = source_read syntax.now in result ≡ tree.nearest_above s (tree.is_a s p_block) node }
{
    let mut next = syntax.parent_of(node);
    for _step in 0..syntax.tree.nodes.len() {
        let Some(parent) = next else {
            return None;
        };
        if is_a(syntax, BLOCK, parent) {
            return Some(parent);
        }
        next = syntax.parent_of(parent);
    }
    None
}

/// Whether a node stands in the body of a function.
pub fn is_in_body(syntax: &Syntax, node: u32) -> bool
    requires { node < length syntax.now.tree.now.nodes.items }
    ensures { (w : World) (sense : ℕ → Sense) → result ≡ spec.is_in_body w (source_read syntax.now) sense node }
{
    block_above(syntax, node).is_some()
}

/// Whether an object has its place for the whole run, by the leaf of its name: it is declared at file scope, or with `static` or `extern`
/// (C11 6.2.4p3).
pub fn is_static_object(syntax: &Syntax, results: &Results, leaf: u32) -> bool
    requires { leaf < length syntax.now.tree.now.nodes.items }
    ensures { (u : UnitSpec) →
        result ≡ entities.is_static_object (source_read syntax.now) (sense_in (senses_made u results.now)) leaf }
{
    is_at_file(syntax, leaf)
        || (has_storage(syntax, results, WORD_STATIC, leaf)
            || has_storage(syntax, results, WORD_EXTERN, leaf))
}

// Whether a name is declared as a function.
fn is_function(functions: &[bool], leaf: u32) -> bool
    ensures { result ≡ get_or functions.now leaf false }
{
    match functions.get(leaf as usize) {
        Some(function) => *function,
        None => false,
    }
}

// Whether a name has automatic storage.
fn is_automatic_name(scope: &Scope, leaf: u32) -> bool
    requires { leaf < length scope.now.syntax.now.tree.now.nodes.items }
    ensures { (u : UnitSpec) →
        let s = source_read scope.now.syntax.now in
        let sense = sense_in (senses_made u scope.now.results.now) in
        AreFunctions s sense scope.now.functions.now →
        result ≡ entities.is_automatic_storage s sense (entities.storage_of s sense leaf) }
{
    if is_parameter(scope.syntax, leaf) {
        return true;
    }
    if is_function(scope.functions, leaf) {
        return false;
    }
    !is_static_object(scope.syntax, scope.results, leaf)
}

/// Whether an entity has automatic storage: that of a name, by its leaf, or that of a compound literal in a function's body, by its
/// parenthesis (C11 6.5.2.5p5). None where the leaf is no node of the tree.
pub fn is_automatic(scope: &Scope, entity: u32) -> Option<bool>
    ensures { (u : UnitSpec) (w : World) →
        let s = source_read scope.now.syntax.now in
        let sense = sense_in (senses_made u scope.now.results.now) in
        AreFunctions s sense scope.now.functions.now →
        IfSome result (λ automatic. automatic ≡ spec.is_automatic w s sense entity) }
{
    if entity as usize >= scope.syntax.tree.nodes.len() {
        return None;
    }
    if is_name(scope.syntax, entity) {
        Some(is_automatic_name(scope, entity))
    } else {
        Some(is_in_body(scope.syntax, entity))
    }
}
