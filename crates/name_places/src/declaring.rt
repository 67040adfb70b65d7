// What a name declares, by where it stands.
ghost use Rattle.std.specs.Prelude.{◌≡◌, ◌<◌, ◌||◌, ◌&&◌, ℕ, List, length};
ghost use Rattle.core_tree.specs.declared.node.Unit.{Unit as UnitSpec};
ghost use Rattle.c_senses.specs.World.{World, same_length};
ghost use Rattle.c_senses.specs.Sense.{Sense, sense_in};
ghost use Rattle.c_senses.specs.Entities as spec;
ghost use Rattle.c_senses.specs.Right as right;
ghost use Rattle.c_results.specs.Standing.{senses_made};
ghost use Rattle.tree_reads.specs.Sources.{source_read, source_in};
ghost use Rattle.std.specs.Prelude.{Some};

use crate::lists::is_defined_list;
use crate::names::declared_name;
use c_entities::declaration_of;
use c_grammar::productions::{DECLARATION, EXTERNAL, PARAMETER, STATEMENT};
use c_results::Results;
use tree_reads::{Above, Syntax, is_a, is_name, nearest_above};

/// Whether a name is declared in the head of a `for` (C11 6.8.5p3).
pub fn is_in_for(syntax: &Syntax, leaf: u32) -> bool
    requires { leaf < length syntax.now.tree.now.nodes.items }
    ensures { (w : World) (sense : ℕ → Sense) → result ≡ spec.is_in_for w (source_read syntax.now) sense leaf }
{
    let Some(declaration) = declaration_of(syntax, leaf) else {
        return false;
    };
    match syntax.parent_of(declaration) {
        Some(parent) => is_a(syntax, STATEMENT, parent),
        None => false,
    }
}

// Whether a name is the leaf.
fn is_that(name: Option<u32>, leaf: u32) -> bool
    ensures { result ≡ same_length name (Some leaf) }
{
    match name {
        Some(other) => other == leaf,
        None => false,
    }
}

/// Whether a leaf is the name that a declarator declares.
pub fn is_declaring(syntax: &Syntax, results: &Results, leaf: u32) -> bool
    requires { leaf < length syntax.now.tree.now.nodes.items }
    ensures { (u : UnitSpec) (uses : List (ℕ × ℕ)) →
        result ≡ right.is_declaring (source_in syntax.now uses) (senses_made u results.now) leaf }
{
    if !is_name(syntax, leaf) {
        return false;
    }
    match nearest_above(syntax, Above::Outermost, leaf) {
        Some(declarator) => is_that(declared_name(results, declarator), leaf),
        None => false,
    }
}

/// Whether the declaration of a name is that of a parameter of a function that is defined (C11 6.9.1p6).
pub fn is_defined_parameter(syntax: &Syntax, results: &Results, leaf: u32) -> bool
    requires { leaf < length syntax.now.tree.now.nodes.items }
    ensures { (u : UnitSpec) (uses : List (ℕ × ℕ)) →
        result ≡ right.is_defined_parameter (source_in syntax.now uses) (senses_made u results.now) leaf }
{
    let Some(declaration) = declaration_of(syntax, leaf) else {
        return false;
    };
    match syntax.parent_of(declaration) {
        Some(suffix) => is_defined_list(syntax, results, suffix),
        None => false,
    }
}

// Whether what stands there declares more than a member or a parameter of no function: by whether it is an external declaration, a
// declaration, or a parameter, and whether that is one of a function that is defined.
fn is_kept(external: bool, plain: bool, parameter: bool, defined: bool) -> bool
    ensures { result ≡ (external || (plain || (parameter && defined))) }
{
    external || plain || parameter && defined
}

/// Whether a name stands in a declaration of objects, functions or types, or as a parameter of a function that is defined: not
/// as a member, in a type name, or as a parameter of a function that is only declared.
pub fn stands_in_declaration(syntax: &Syntax, results: &Results, leaf: u32) -> bool
    requires { leaf < length syntax.now.tree.now.nodes.items }
    ensures { (u : UnitSpec) (uses : List (ℕ × ℕ)) →
        result ≡ right.stands_in_declaration (source_in syntax.now uses) (senses_made u results.now) leaf }
{
    let Some(declaration) = declaration_of(syntax, leaf) else {
        return false;
    };
    let external = is_a(syntax, EXTERNAL, declaration);
    let plain = is_a(syntax, DECLARATION, declaration);
    let parameter = is_a(syntax, PARAMETER, declaration);
    let defined = is_defined_parameter(syntax, results, leaf);
    is_kept(external, plain, parameter, defined)
}
