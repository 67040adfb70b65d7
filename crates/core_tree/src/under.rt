// Which nodes stand under which, and which lists have a number once.

ghost use Rattle.std.specs.Prelude.{◌≡◌, ◌≢◌, ℕ, ◌<◌, ◌↔◌, Some, None, IsTrue, IfSome, IsNone, length, slice_get};
ghost use Rattle.core_tree.specs.Seen.{core_of};
ghost use Rattle.core_tree.specs.Range.{InRange, ChildOnce, IsChild, Under, Has, OncePlaced, OnlyHolder, HoldsOnce};
ghost use Rattle.core_tree.specs.Range.{OnceHeld, listed_by, listed_in};
ghost use Rattle.core_tree.specs.Groups.{group_of};

use crate::node::{Node, NodeKind};
use crate::trees::Trees;

/// Whether a list has a number.
pub fn has(list: &[u32], n: usize) -> bool
    ensures { IsTrue result ↔ Has list.now n }
{
    list.iter().any(|x| *x as usize == n)
}

// Whether a list has a number in no place but that one.
fn only_place(list: &[u32], n: usize, i: usize) -> bool
    ensures { IsTrue result ↔ ((j : ℕ) → slice_get list.now j ≡ Some n → i ≡ j) }
{
    list.iter()
        .enumerate()
        .all(|(j, x)| *x as usize != n || i == j)
}

// Whether a list has a number in one place at most.
fn once_placed(list: &[u32], n: usize) -> bool
    ensures { IsTrue result ↔ OncePlaced list.now n }
{
    list.iter()
        .enumerate()
        .all(|(i, x)| *x as usize != n || only_place(list, n, i))
}

/// What the lists of nodes are lists of.
#[derive(Clone, Copy, Debug, PartialEq, Eq)]
pub enum Group {
    Children,
    Entities,
}

/// The entities that a node lists.
pub fn listed_by(kind: &NodeKind) -> &[u32]
    ensures { result.now ≡ listed_by kind.now }
{
    match kind {
        NodeKind::Block(entities) => entities.as_slice(),
        NodeKind::For { entities, .. } => entities.as_slice(),
        _ => &[],
    }
}

// The list of a node.
fn list_of(group: Group, node: &Node) -> &[u32]
    ensures { result.now ≡ group_of group node.now }
{
    match group {
        Group::Children => node.children.as_slice(),
        Group::Entities => listed_by(&node.kind),
    }
}

// Whether no list of another node has a number.
fn only_holder(trees: &Trees<'_>, group: Group, n: usize, a: usize) -> bool
    ensures { IsTrue result ↔ OnlyHolder (core_of trees.now) (group_of group) n a }
{
    trees
        .nodes
        .iter()
        .enumerate()
        .all(|(b, other)| !has(list_of(group, other), n) || a == b)
}

// Whether the list of a node, if it has a number, has it once, and no other list has it.
fn holds_once(trees: &Trees<'_>, group: Group, n: usize, a: usize, node: &Node) -> bool
    ensures { IsTrue result ↔ HoldsOnce (core_of trees.now) (group_of group) n a node.now }
{
    let list = list_of(group, node);
    !has(list, n) || (once_placed(list, n) && only_holder(trees, group, n, a))
}

/// Whether one list of a node at most has a number, and once.
pub fn once_held(trees: &Trees<'_>, group: Group, n: usize) -> bool
    ensures { IsTrue result ↔ OnceHeld (core_of trees.now) (group_of group) n }
{
    trees
        .nodes
        .iter()
        .enumerate()
        .all(|(a, node)| holds_once(trees, group, n, a, node))
}

// A node of which that one is a child, if there is one.
fn parent_of(trees: &Trees<'_>, node: usize) -> Option<usize>
    ensures found { IfSome result (λ p. IsChild (core_of trees.now) p node) }
    ensures none { IsNone result → (p : ℕ) → IsChild (core_of trees.now) p node → ⊥ }
{
    for p in 0..trees.nodes.len() {
        if has(trees.nodes[p].children.as_slice(), node) {
            return Some(p);
        }
    }
    None
}

/// Whether a node stands under another one, or is that one.
pub fn is_under(trees: &Trees<'_>, top: usize, node: usize) -> bool
    requires range { InRange (core_of trees.now) }
    requires once { ChildOnce (core_of trees.now) }
    ensures { IsTrue result ↔ Under (core_of trees.now) top node }
{
    let mut at = node;
    while at != top {
        match parent_of(trees, at) {
            Some(p) => at = p,
            None => return false,
        }
    }
    true
}
