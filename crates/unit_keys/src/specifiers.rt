// Which nodes are specifiers that may declare a tag.
#![tactic(auto)]

ghost use Rattle.std.specs.Prelude.{◌≡◌, ℕ, List};
ghost use Rattle.tree_reads.specs.Sources.{source_in};
ghost use Rattle.unit_keys.specs.Specifiers as spec;

use c_grammar::productions::{ENUM, STRUCT};
use tree_reads::{Syntax, is_a};

/// Whether a node is the specifier of a structure, a union or an enumeration: one that may declare a tag (C11 6.7.2.1, 6.7.2.2).
pub fn is_specifier(syntax: &Syntax, node: u32) -> bool
    ensures { (uses : List (ℕ × ℕ)) → result ≡ spec.is_specifier (source_in syntax.now uses) node }
{
    is_a(syntax, STRUCT, node) || is_a(syntax, ENUM, node)
}
