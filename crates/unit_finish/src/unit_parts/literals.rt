// Compound literals among nodes.
#![tactic(auto)]

ghost use Rattle.std.specs.Prelude.{◌≡◌, IfOk};
ghost use Rattle.unit_finish.specs.unit_parts.Renamed.{literals_in};

use c_types::term::TypeId;
use core_tree::node::{Node, NodeKind};
use std::alloc::{AllocError, Global};

/// A compound literal: the leaf of its parenthesis, its type, and the node of its initialiser.
#[derive(Clone, Copy, Debug, PartialEq, Eq)]
pub struct LiteralAt {
    pub leaf: u32,
    pub ty: TypeId,
    pub body: Option<u32>,
}

/// The compound literals among nodes, in order.
pub fn literals_in(alloc: Global, nodes: &[Node]) -> Result<Vec<LiteralAt>, AllocError>
    ensures { IfOk result (λ list. list.items ≡ literals_in nodes.now) }
{
    let mut list = Vec::new(alloc);
    for node in nodes {
        if let NodeKind::Literal(leaf) = &node.kind {
            list.push(LiteralAt {
                leaf: *leaf,
                ty: node.ty,
                body: node.children.as_slice().first().copied(),
            })?;
        }
    }
    Ok(list)
}
