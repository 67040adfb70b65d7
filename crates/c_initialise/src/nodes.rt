//! The children of a node that stand before it. In a tree that was parsed each child does.

ghost use Rattle.std.specs.Prelude.{◌≡◌, slice_get};
ghost use Rattle.c_initialise.specs.Nodes.{children_of, is_before, first_such};

use tree_reads::{Syntax, children_of, is_a};

/// Whether a node stands before another and is of a production.
pub(crate) fn is_child(syntax: &Syntax, production: u32, parent: u32, node: u32) -> bool
    ensures { result ≡ is_before syntax.now.tree.now.nodes.items production parent node }
{
    node < parent && is_a(syntax, production, node)
}

/// The first child of a node that stands before it and is of a production.
pub(crate) fn child_before(syntax: &Syntax, production: u32, parent: u32) -> Option<u32>
    ensures { let nodes = syntax.now.tree.now.nodes.items in
        result ≡ first_such (is_before nodes production parent) (children_of (slice_get nodes parent)) }
{
    for child in children_of(syntax, parent) {
        if is_child(syntax, production, parent, *child) {
            return Some(*child);
        }
    }
    None
}
