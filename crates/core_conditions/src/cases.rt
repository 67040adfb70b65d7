// The cases of a switch differ, and one at most is `default` (C11 6.8.4.2p3).

ghost use Rattle.std.specs.Prelude.{◌≡◌, ℕ, ◌↔◌, IsTrue};
ghost use Rattle.core_tree.specs.Seen.{core_of};
ghost use Rattle.core_tree.specs.Valid.{InRange, ChildOnce, IsInnermost, Innermost, IsCaseOf, DiffersIn, DiffersInAll};
ghost use Rattle.core_tree.specs.Valid.{IsCase, OnlyCase, CaseDiffers};

use core_tree::node::NodeKind;
use core_tree::trees::Trees;
use core_tree::under::is_under;

// Whether a switch that stands under another one, and above a case, is that one.
fn is_innermost(trees: &Trees<'_>, s: usize, case: usize, n: usize, kind: &NodeKind) -> bool
    requires range { InRange (core_of trees.now) }
    requires once { ChildOnce (core_of trees.now) }
    ensures { IsTrue result ↔ IsInnermost (core_of trees.now) s case n kind.now }
{
    !matches!(kind, NodeKind::Switch)
        || !is_under(trees, s, n)
        || !is_under(trees, n, case)
        || n == s
}

// Whether no switch stands between a switch and a case.
fn innermost(trees: &Trees<'_>, s: usize, case: usize) -> bool
    requires range { InRange (core_of trees.now) }
    requires once { ChildOnce (core_of trees.now) }
    ensures { IsTrue result ↔ Innermost (core_of trees.now) s case }
{
    trees
        .nodes
        .iter()
        .enumerate()
        .all(|(n, node)| is_innermost(trees, s, case, n, &node.kind))
}

// Whether a case stands in a switch, and in no switch within it.
fn is_case_of(trees: &Trees<'_>, s: usize, case: usize) -> bool
    requires range { InRange (core_of trees.now) }
    requires once { ChildOnce (core_of trees.now) }
    ensures { IsTrue result ↔ IsCaseOf (core_of trees.now) s case }
{
    is_under(trees, s, case) && innermost(trees, s, case)
}

// Whether a kind is the case of a number, or `default` where there is none.
fn is_case(x: Option<i128>, kind: &NodeKind) -> bool
    ensures { IsTrue result ↔ IsCase x kind.now }
{
    match (x, kind) {
        (Some(number), NodeKind::Case(y)) => y.get() == number,
        (None, NodeKind::Default) => true,
        _ => false,
    }
}

// Whether no other case of a switch has that number.
fn only_case(trees: &Trees<'_>, s: usize, a: usize, x: Option<i128>) -> bool
    requires range { InRange (core_of trees.now) }
    requires once { ChildOnce (core_of trees.now) }
    ensures { IsTrue result ↔ OnlyCase (core_of trees.now) s a x }
{
    trees.nodes.iter().enumerate().all(|(b, other)| !is_case(x, &other.kind)
        || !is_case_of(trees, s, b)
        || a == b)
}

// Whether a case differs from the others of a switch, if it stands in it.
#[tactic(auto, unfolding(core_tree::specs::Valid::DiffersIn))]
fn differs_in(trees: &Trees<'_>, s: usize, kind: &NodeKind, a: usize, x: Option<i128>) -> bool
    requires range { InRange (core_of trees.now) }
    requires once { ChildOnce (core_of trees.now) }
    ensures { IsTrue result ↔ DiffersIn (core_of trees.now) a x s kind.now }
{
    !matches!(kind, NodeKind::Switch) || !is_case_of(trees, s, a) || only_case(trees, s, a, x)
}

/// Whether a node, if it is a case, differs from the others of its switch.
pub fn case_differs(trees: &Trees<'_>, a: usize, kind: &NodeKind) -> bool
    requires range { InRange (core_of trees.now) }
    requires once { ChildOnce (core_of trees.now) }
    ensures { IsTrue result ↔ CaseDiffers (core_of trees.now) a kind.now }
{
    match kind {
        NodeKind::Case(x) => differs_in_each(trees, a, Some(x.get())),
        NodeKind::Default => differs_in_each(trees, a, None),
        _ => true,
    }
}

// Whether a case differs from the others of each switch in which it stands.
fn differs_in_each(trees: &Trees<'_>, a: usize, x: Option<i128>) -> bool
    requires range { InRange (core_of trees.now) }
    requires once { ChildOnce (core_of trees.now) }
    ensures { IsTrue result
        ↔ DiffersInAll (core_of trees.now) a x }
{
    trees
        .nodes
        .iter()
        .enumerate()
        .all(|(s, node)| differs_in(trees, s, &node.kind, a, x))
}
