// The declaration in which a name is declared.
ghost use Rattle.std.specs.Prelude.{◌≡◌, ◌<◌, ◌&&◌, ℕ, length, is_some, IfSome};
ghost use Rattle.c_grammar.specs.Productions.{p_external, p_block};
ghost use Rattle.core_nodes.specs.passed.c_senses.Tree.{is_a, child_of};
ghost use Rattle.core_nodes.specs.passed.c_senses.Sense.{Sense};
ghost use Rattle.core_nodes.specs.passed.c_senses.Entities as spec;
ghost use Rattle.tree_reads.specs.Sources.{source_read};

use c_declarators::declaration_around;
use c_grammar::productions::{BLOCK, EXTERNAL, PARAMETER};
use tree_reads::{Above, Syntax, child_of, is_a, nearest_above};

/// The declaration, external declaration or parameter that declares a name, by the leaf of the name (C11 6.7, 6.9); None
/// where the name stands in no declarator.
pub fn declaration_of(syntax: &Syntax, leaf: u32) -> Option<u32>
    requires { leaf < length syntax.now.tree.now.nodes.items }
    ensures declaration { (sense : ℕ → Sense) → result ≡ spec.declaration_of (source_read syntax.now) sense leaf }
    ensures within { IfSome result (λ p. p < length syntax.now.tree.now.nodes.items) }
{
    let declarator = nearest_above(syntax, Above::Outermost, leaf)?;
    let around = syntax.parent_of(declarator)?;
    declaration_around(syntax, around)
}

/// Whether a name is declared at file scope, by an external declaration (C11 6.9).
pub fn is_at_file(syntax: &Syntax, leaf: u32) -> bool
    requires { leaf < length syntax.now.tree.now.nodes.items }
    ensures { (sense : ℕ → Sense) → result ≡ spec.is_at_file (source_read syntax.now) sense leaf }
{
    match declaration_of(syntax, leaf) {
        Some(declaration) => is_a(syntax, EXTERNAL, declaration),
        None => false,
    }
}

/// Whether a name is that of a parameter (C11 6.7.6.3).
pub fn is_parameter(syntax: &Syntax, leaf: u32) -> bool
    requires { leaf < length syntax.now.tree.now.nodes.items }
    ensures { (sense : ℕ → Sense) → result ≡ spec.is_parameter (source_read syntax.now) sense leaf }
{
    match declaration_of(syntax, leaf) {
        Some(declaration) => is_a(syntax, PARAMETER, declaration),
        None => false,
    }
}

// Whether a declaration is a function definition.
fn is_definition(syntax: &Syntax, declaration: u32) -> bool
    ensures { let s = source_read syntax.now in
        result ≡ (is_a s p_external declaration && is_some (child_of s p_block declaration)) }
{
    is_a(syntax, EXTERNAL, declaration) && child_of(syntax, BLOCK, declaration).is_some()
}

/// Whether a name is that of a function which is defined there (C11 6.9.1).
pub fn is_defined(syntax: &Syntax, leaf: u32) -> bool
    requires { leaf < length syntax.now.tree.now.nodes.items }
    ensures { (sense : ℕ → Sense) → result ≡ spec.is_defined (source_read syntax.now) sense leaf }
{
    match declaration_of(syntax, leaf) {
        Some(declaration) => is_definition(syntax, declaration),
        None => false,
    }
}
