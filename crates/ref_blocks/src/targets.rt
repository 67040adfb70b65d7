// Which nodes are the targets of jumps.

ghost use Rattle.std.specs.Prelude.{◌≡◌};
ghost use Rattle.core_tree.specs.Seen.{core_of};
ghost use Rattle.ref_blocks.specs.Plans.{IsPlan};
ghost use Rattle.ref_blocks.specs.Jumps.{is_some_number, is_case, case_of, switch_target, is_label_named, label_target};
ghost use Rattle.ref_blocks.specs.Marks.{is_case_at, is_label_at};

use crate::plan::Plan;
use crate::ways::Sought;
use core_tree::NodeKind;
use core_tree::trees::Trees;

// Whether a node's number is there, and is that one.
fn is_some_number(n: u32, found: Option<u32>) -> bool
    ensures { result ≡ is_some_number n found }
{
    match found {
        Some(m) => m == n,
        None => false,
    }
}

// Whether a kind is the case of a number, or `default` where there is none.
fn is_case(kind: &NodeKind, x: Option<i128>) -> bool
    ensures { result ≡ is_case x kind.now }
{
    match kind {
        NodeKind::Case(y) => match x {
            Some(x) => y.get() == x,
            None => false,
        },
        NodeKind::Default => x.is_none(),
        _ => false,
    }
}

// Whether a node is a case of that number, or the `default`, of a switch.
fn is_case_of(trees: &Trees<'_>, plan: &Plan, s: u32, x: Option<i128>, n: u32) -> bool
    requires { IsPlan (core_of trees.now) plan.now }
    ensures { result ≡ is_case_at trees.now.nodes.now s x n }
{
    match trees.nodes.get(n as usize) {
        Some(node) => {
            is_case(&node.kind, x) && is_some_number(s, plan.nearest(trees, n, Sought::SwitchAlone))
        }
        None => false,
    }
}

// The case of a switch with that number, or its `default`.
fn case_of(trees: &Trees<'_>, plan: &Plan, s: u32, x: Option<i128>) -> Option<u32>
    requires { IsPlan (core_of trees.now) plan.now }
    ensures { result ≡ case_of trees.now.nodes.now s x }
{
    let marks = plan.marks_of(trees, s);
    for n in marks {
        if is_case_of(trees, plan, s, x, *n) {
            return Some(*n);
        }
    }
    None
}

/// Where a switch goes for a number (C11 6.8.4.2p5): to the case of that number, else to the `default`, if there is one.
pub fn switch_target(trees: &Trees<'_>, plan: &Plan, s: u32, x: i128) -> Option<u32>
    requires { IsPlan (core_of trees.now) plan.now }
    ensures { result ≡ switch_target trees.now.nodes.now s x }
{
    match case_of(trees, plan, s, Some(x)) {
        Some(n) => Some(n),
        None => case_of(trees, plan, s, None),
    }
}

// Whether a kind is the label of that name.
fn is_label_named(kind: &NodeKind, name: &str) -> bool
    ensures { result ≡ is_label_named name.now kind.now }
{
    match kind {
        NodeKind::Label(other) => other.as_str() == name,
        _ => false,
    }
}

// Whether a node is the label of that name under a topmost node.
fn is_label_under(trees: &Trees<'_>, plan: &Plan, root: u32, name: &str, t: u32) -> bool
    requires { IsPlan (core_of trees.now) plan.now }
    ensures { result ≡ is_label_at trees.now.nodes.now root name.now t }
{
    match trees.nodes.get(t as usize) {
        Some(node) => is_label_named(&node.kind, name) && plan.root_of(trees, t) == root,
        None => false,
    }
}

/// The label of that name in the body in which a node stands (C11 6.8.6.1p1).
pub fn label_target(trees: &Trees<'_>, plan: &Plan, n: u32, name: &str) -> Option<u32>
    requires { IsPlan (core_of trees.now) plan.now }
    ensures { result ≡ label_target trees.now.nodes.now n name.now }
{
    let root = plan.root_of(trees, n);
    let marks = plan.marks_of(trees, root);
    for t in marks {
        if is_label_under(trees, plan, root, name, *t) {
            return Some(*t);
        }
    }
    None
}
