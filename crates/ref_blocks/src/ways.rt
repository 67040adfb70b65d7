// The nodes above a node, and the parts of statements.

ghost use Rattle.std.specs.Prelude.{◌≡◌, ◌<◌, length};
ghost use Rattle.ref_blocks.specs.Ways.{kind_at, is_block, is_label, is_loop, is_switch, last_child, is_body};
ghost use Rattle.ref_blocks.specs.Around.{is_block_statement, opens_part};

use core_tree::{Node, NodeKind};

/// A node and the child on a way down from it.
#[derive(Clone, Copy, Debug, PartialEq, Eq)]
pub struct Link {
    pub node: u32,
    pub child: u32,
}

/// Which statement is sought among those around a node.
#[derive(Clone, Copy, Debug, PartialEq, Eq)]
pub enum Sought {
    LoopAlone,
    SwitchAlone,
    LoopOrSwitch,
}

/// Whether a statement is a block.
pub fn is_block(kind: &NodeKind) -> bool
    ensures { result ≡ is_block kind.now }
{
    match kind {
        NodeKind::Block(_) | NodeKind::If | NodeKind::While | NodeKind::DoWhile => true,
        NodeKind::For { .. } | NodeKind::Switch => true,
        _ => false,
    }
}

/// Whether a node is a block.
pub fn is_block_at(nodes: &[Node], n: u32) -> bool
    requires { n < length nodes.now }
    ensures { result ≡ is_block (kind_at nodes.now n) }
{
    is_block(&nodes[n as usize].kind)
}

/// Whether a statement is a label, which is done as the statement behind it.
pub fn is_label(kind: &NodeKind) -> bool
    ensures { result ≡ is_label kind.now }
{
    matches!(
        kind,
        NodeKind::Case(_) | NodeKind::Default | NodeKind::Label(_)
    )
}

/// Whether a statement is a loop.
pub fn is_loop(kind: &NodeKind) -> bool
    ensures { result ≡ is_loop kind.now }
{
    matches!(
        kind,
        NodeKind::While | NodeKind::DoWhile | NodeKind::For { .. }
    )
}

/// Whether a statement is a switch.
pub fn is_switch(kind: &NodeKind) -> bool
    ensures { result ≡ is_switch kind.now }
{
    matches!(kind, NodeKind::Switch)
}

// The last of these.
fn last_child(children: &[u32]) -> u32
    ensures { result ≡ last_child children.now }
{
    match children.last() {
        Some(c) => *c,
        None => 0,
    }
}

/// Whether a child of a statement is a branch of an If, or the body of another one.
pub fn is_body(kind: &NodeKind, children: &[u32], n: u32) -> bool
    ensures { result ≡ is_body kind.now children.now n }
{
    match kind {
        NodeKind::If => match children {
            [_, branches @ ..] => branches.contains(&n),
            [] => false,
        },
        NodeKind::While | NodeKind::Switch => match children {
            [_, s] => *s == n,
            _ => false,
        },
        NodeKind::DoWhile => match children {
            [s, _] => *s == n,
            _ => false,
        },
        NodeKind::For { .. } => last_child(children) == n,
        _ => false,
    }
}

// Whether a statement is a Block.
fn is_block_statement(kind: &NodeKind) -> bool
    ensures { result ≡ is_block_statement kind.now }
{
    matches!(kind, NodeKind::Block(_))
}

/// Whether a child that is a branch or a body, and no Block, is a block of its own.
pub fn opens_part(nodes: &[Node], link: Link) -> bool
    requires node { link.node < length nodes.now }
    requires child { link.child < length nodes.now }
    ensures { result ≡ opens_part nodes.now link }
{
    let node = &nodes[link.node as usize];
    let child = &nodes[link.child as usize];
    is_body(&node.kind, node.children.as_slice(), link.child) && !is_block_statement(&child.kind)
}
