// The parts of a For, and what is left to a statement of which one child is being done.

ghost use Rattle.std.specs.Prelude.{◌≡◌};
ghost use Rattle.ref_blocks.specs.Loops.{one_if, first_of, condition_of, after_of, body_of, behind, left_behind, either, left_next};

use core_tree::NodeKind;

/// The parts of a For: its first statements, its condition, what it does after each turn, and its body.
#[derive(Clone, Copy)]
pub struct Loop<'a> {
    pub first: &'a [u32],
    pub condition: &'a [u32],
    pub after: &'a [u32],
    pub body: &'a [u32],
}

// How many children that is.
fn one_if(there: bool) -> usize
    ensures { result ≡ one_if there }
{
    if there { 1 } else { 0 }
}

/// The parts of a For by its children: whether it has a condition, and whether it does something after each turn.
pub fn loop_of(condition: bool, after: bool, children: &[u32]) -> Loop<'_>
    ensures first { result.first.now ≡ first_of condition after children.now }
    ensures held { result.condition.now ≡ condition_of condition after children.now }
    ensures turned { result.after.now ≡ after_of after children.now }
    ensures body { result.body.now ≡ body_of children.now }
{
    let body_at = children.len().saturating_sub(1);
    let after_at = body_at.saturating_sub(one_if(after));
    let condition_at = after_at.saturating_sub(one_if(condition));
    Loop {
        first: &children[..condition_at],
        condition: &children[condition_at..after_at],
        after: &children[after_at..body_at],
        body: &children[body_at..],
    }
}

// The children after one of them.
fn behind(children: &[u32], n: u32) -> &[u32]
    ensures { result.now ≡ behind n children.now }
{
    let mut i = 0usize;
    for c in children {
        i += 1;
        if *c == n {
            return &children[i..];
        }
    }
    &[]
}

/// What is left to a statement of which a child is being done by a jump.
pub fn left_behind<'a>(kind: &NodeKind, children: &'a [u32], n: u32) -> &'a [u32]
    ensures { result.now ≡ left_behind kind.now children.now n }
{
    match kind {
        NodeKind::Block(_) => behind(children, n),
        NodeKind::DoWhile => match children {
            [_, _] => &children[1..],
            _ => &[],
        },
        NodeKind::For {
            condition,
            after,
            ..
        } => loop_of(*condition, *after, children).after,
        _ => &[],
    }
}

// The first list, or the second one where that is empty.
fn either<'a>(first: &'a [u32], second: &'a [u32]) -> &'a [u32]
    ensures { result.now ≡ either first.now second.now }
{
    match first {
        [] => second,
        [_, ..] => first,
    }
}

/// What is left to a loop that goes on with its next turn.
pub fn left_next<'a>(kind: &NodeKind, children: &'a [u32]) -> &'a [u32]
    ensures { result.now ≡ left_next kind.now children.now }
{
    match kind {
        NodeKind::While => match children {
            [_, _] => &children[..1],
            _ => &[],
        },
        NodeKind::DoWhile => match children {
            [_, _] => &children[1..],
            _ => &[],
        },
        NodeKind::For {
            condition,
            after,
            ..
        } => {
            let parts = loop_of(*condition, *after, children);
            either(parts.after, parts.condition)
        }
        _ => &[],
    }
}
