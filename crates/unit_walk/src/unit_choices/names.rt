// What is found of a unit's names before its first node.
ghost use Rattle.std.specs.Prelude.{◌≡◌, ◌<◌, ◌↔◌, ℕ, List, length, true, All, IsTrue, IfOk, IsOkUnless};
ghost use Rattle.c_scope.specs.Resolves.{IsBound};
ghost use Rattle.c_senses.specs.Tree.{is_name, spelling_at};
ghost use Rattle.tree_reads.specs.Sources.{source_in, source_read};
ghost use Rattle.c_statements.specs.Labels.{IsAscii};
ghost use Rattle.statement_rows.specs.Kinds.{AreKinds};
ghost use Rattle.statement_rows.specs.Told.{AreSpelled};

use c_scope::{Bound, Declared};
use core_nodes::CheckFault;
use pta_base::Kind;
use statement_rows::NameKinds;
use std::alloc::Global;
use tree_reads::{Syntax, is_name, spelling_of};

// Whether each of some bytes is below 128.
fn is_ascii(bytes: &[u8]) -> bool
    ensures { IsTrue result ↔ IsAscii bytes.now }
{
    for byte in bytes {
        if *byte >= 128 {
            return false;
        }
    }
    true
}

// Whether a node is no name, or one that is spelled in ASCII.
fn is_ascii_name(syntax: &Syntax, node: u32) -> bool
    ensures { IsTrue result ↔ (is_name (source_read syntax.now) node ≡ true → IsAscii (spelling_at (source_read syntax.now) node)) }
{
    if is_name(syntax, node) {
        is_ascii(spelling_of(syntax, node))
    } else {
        true
    }
}

/// Whether each name of a tree is spelled in ASCII (C11 6.4.2.1), as those are that a lexer without extended characters finds.
pub fn names_are_ascii(syntax: &Syntax) -> bool
    ensures { (uses : List (ℕ × ℕ)) → IsTrue result ↔ AreSpelled (source_in syntax.now uses) }
{
    for node in 0..syntax.tree.nodes.len() {
        if !is_ascii_name(syntax, node as u32) {
            return false;
        }
    }
    true
}

// Whether the nodes of some declarations are below a number.
fn are_below(declared: &[Declared], count: usize) -> bool
    ensures { IsTrue result ↔ All (λ d. d.node < count) declared.now }
{
    for one in declared {
        if one.node as usize >= count {
            return false;
        }
    }
    true
}

/// What name resolution says of the declared names of a unit's tree, by leaf (C11 6.2.3, 6.7): which are typedef names, and which declare
/// functions. It is `NotBuilt` at node 0 only where a declaration stands at no node of the tree; beside that only memory may want.
pub fn name_kinds(alloc: Global, syntax: &Syntax, bound: &Bound) -> Result<NameKinds, CheckFault>
    requires { IsBound syntax.now.tokens.now syntax.now.tree.now bound.now }
    ensures kinds { (uses : List (ℕ × ℕ)) → IfOk result (AreKinds (source_in syntax.now uses)) }
    ensures built { All (λ d. d.node < length syntax.now.tree.now.nodes.items) bound.now.names.items →
        IsOkUnless result CheckFault.OutOfMemory }
{
    let declared = bound.names.as_slice();
    let count = syntax.tree.nodes.len();
    if !are_below(declared, count) {
        return Err(CheckFault::Unsupported(Kind::NotBuilt, 0));
    }
    Ok(NameKinds::of(alloc, declared, count)?)
}
