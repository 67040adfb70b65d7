// The rows of statements: how each stands over its children (C11 6.8).

ghost use Rattle.std.specs.Prelude.{◌≡◌, ℕ, ◌<◌, ◌↔◌, IsTrue, All, List, Some, length, reverse, slice_get};
ghost use Rattle.c_types.specs.Table.{type_of};
ghost use Rattle.c_types.specs.Paths.{type_at_path};
ghost use Rattle.core_tree.specs.Seen.{core_of};
ghost use Rattle.core_tree.specs.Typed.{sort_at, type_at, ValueNode};
ghost use Rattle.core_tree.specs.Rows.{ExpressionRow, BlockRow, IfRow, WhileRow, DoWhileRow, ForRow, ForAfter};
ghost use Rattle.core_tree.specs.Rows.{ForCondition, ForFirst, SwitchRow, LabelledRow, ReturnRow, InitialValues};
ghost use Rattle.core_tree.specs.Rows.{IsFirstStatement, IsOneExpression};
ghost use Rattle.core_tree.specs.Range.{InRange};

use crate::kinds::{is_any_value, is_condition, is_numeral, is_statement, is_value_kind};
use crate::node::NodeKind;
use crate::trees::Trees;
use crate::under::has;
use c_types::term::{PathStep, TypeId};
use pta_base::Listing;
use type_rules::members::at_path;

/// Whether an expression statement stands over one value (C11 6.8.3).
pub fn expression_row(trees: &Trees<'_>, children: &[u32]) -> bool
    requires { All (λ c. c < length trees.now.nodes.now) children.now }
    ensures { IsTrue result ↔ ExpressionRow (core_of trees.now) children.now }
{
    match children {
        [v] => is_any_value(trees, *v),
        _ => false,
    }
}

/// Whether each child is a statement, as in a block (C11 6.8.2).
pub fn block_row(trees: &Trees<'_>, children: &[u32]) -> bool
    requires { All (λ c. c < length trees.now.nodes.now) children.now }
    ensures { IsTrue result ↔ BlockRow (core_of trees.now) children.now }
{
    children.iter().all(|s| is_statement(trees, *s))
}

/// Whether an If stands over a condition and one or two statements (C11 6.8.4.1).
pub fn if_row(trees: &Trees<'_>, children: &[u32]) -> bool
    requires range { InRange (core_of trees.now) }
    requires children { All (λ c. c < length trees.now.nodes.now) children.now }
    ensures { IsTrue result ↔ IfRow (core_of trees.now) children.now }
{
    match children {
        [c, s] => is_condition(trees, *c) && is_statement(trees, *s),
        [c, s, o] => {
            is_condition(trees, *c) && is_statement(trees, *s) && is_statement(trees, *o)
        },
        _ => false,
    }
}

/// Whether a While stands over a condition and a statement (C11 6.8.5.1).
pub fn while_row(trees: &Trees<'_>, children: &[u32]) -> bool
    requires range { InRange (core_of trees.now) }
    requires children { All (λ c. c < length trees.now.nodes.now) children.now }
    ensures { IsTrue result ↔ WhileRow (core_of trees.now) children.now }
{
    match children {
        [c, s] => is_condition(trees, *c) && is_statement(trees, *s),
        _ => false,
    }
}

/// Whether a DoWhile stands over a statement and a condition (C11 6.8.5.2).
pub fn do_while_row(trees: &Trees<'_>, children: &[u32]) -> bool
    requires range { InRange (core_of trees.now) }
    requires children { All (λ c. c < length trees.now.nodes.now) children.now }
    ensures { IsTrue result ↔ DoWhileRow (core_of trees.now) children.now }
{
    match children {
        [s, c] => is_condition(trees, *c) && is_statement(trees, *s),
        _ => false,
    }
}

/// Whether a For stands over its first statements, its condition, what comes after a turn, and its body (C11 6.8.5.3).
pub fn for_row(
    trees: &Trees<'_>,
    entities: &[u32],
    condition: bool,
    after: bool,
    children: &[u32],
) -> bool
    requires range { InRange (core_of trees.now) }
    requires children { All (λ c. c < length trees.now.nodes.now) children.now }
    ensures { IsTrue result ↔ ForRow (core_of trees.now) entities.now condition after children.now }
{
    match children {
        [rest @ .., body] => {
            is_statement(trees, *body) && for_after(trees, entities, condition, after, rest)
        }
        [] => false,
    }
}

// Whether these are the first statements of a For, its condition, and what comes after a turn.
fn for_after(
    trees: &Trees<'_>,
    entities: &[u32],
    condition: bool,
    after: bool,
    children: &[u32],
) -> bool
    requires range { InRange (core_of trees.now) }
    requires children { All (λ c. c < length trees.now.nodes.now) children.now }
    ensures { IsTrue result ↔ ForAfter (core_of trees.now) entities.now condition after (reverse children.now) }
{
    if !after {
        return for_condition(trees, entities, condition, children);
    }
    match children {
        [rest @ .., v] => {
            is_any_value(trees, *v) && for_condition(trees, entities, condition, rest)
        }
        [] => false,
    }
}

// Whether these are the first statements of a For and its condition.
fn for_condition(trees: &Trees<'_>, entities: &[u32], condition: bool, children: &[u32]) -> bool
    requires range { InRange (core_of trees.now) }
    requires children { All (λ c. c < length trees.now.nodes.now) children.now }
    ensures { IsTrue result ↔ ForCondition (core_of trees.now) entities.now condition (reverse children.now) }
{
    if !condition {
        return for_first(trees, entities, children);
    }
    match children {
        [first @ .., c] => is_condition(trees, *c) && for_first(trees, entities, first),
        [] => false,
    }
}

// Whether these are the first statements of a For.
fn for_first(trees: &Trees<'_>, entities: &[u32], first: &[u32]) -> bool
    requires { All (λ c. c < length trees.now.nodes.now) first.now }
    ensures { IsTrue result ↔ ForFirst (core_of trees.now) entities.now first.now }
{
    first
        .iter()
        .all(|s| is_first_statement(trees, entities, *s))
        || is_one_expression(trees, first)
}

// Whether a node initialises one of those entities.
fn is_first_statement(trees: &Trees<'_>, entities: &[u32], node: u32) -> bool
    requires { node < length trees.now.nodes.now }
    ensures { IsTrue result ↔ IsFirstStatement entities.now (slice_get trees.now.nodes.now node) }
{
    match &trees.nodes[node as usize].kind {
        NodeKind::Initialise { entity, .. } => has(entities, *entity as usize),
        _ => false,
    }
}

// Whether this is one expression.
fn is_one_expression(trees: &Trees<'_>, first: &[u32]) -> bool
    requires { All (λ c. c < length trees.now.nodes.now) first.now }
    ensures { IsTrue result ↔ IsOneExpression (core_of trees.now) first.now }
{
    match first {
        [s] => matches!(trees.nodes[*s as usize].kind, NodeKind::Expression),
        _ => false,
    }
}

/// Whether a Switch stands over an integer and a statement (C11 6.8.4.2).
pub fn switch_row(trees: &Trees<'_>, children: &[u32]) -> bool
    requires range { InRange (core_of trees.now) }
    requires children { All (λ c. c < length trees.now.nodes.now) children.now }
    ensures { IsTrue result ↔ SwitchRow (core_of trees.now) children.now }
{
    match children {
        [c, s] => is_numeral(trees, *c) && is_statement(trees, *s),
        _ => false,
    }
}

/// Whether a label stands over a statement (C11 6.8.1).
pub fn labelled_row(trees: &Trees<'_>, children: &[u32]) -> bool
    requires { All (λ c. c < length trees.now.nodes.now) children.now }
    ensures { IsTrue result ↔ LabelledRow (core_of trees.now) children.now }
{
    match children {
        [s] => is_statement(trees, *s),
        _ => false,
    }
}

/// Whether a Return stands over a value or nothing (C11 6.8.6.4).
pub fn return_row(trees: &Trees<'_>, children: &[u32]) -> bool
    requires { All (λ c. c < length trees.now.nodes.now) children.now }
    ensures { IsTrue result ↔ ReturnRow (core_of trees.now) children.now }
{
    match children {
        [] => true,
        [v] => is_any_value(trees, *v),
        _ => false,
    }
}

/// Whether there is a value for each path, of the type at that path (C11 6.7.9).
pub fn initial_values(
    trees: &Trees<'_>,
    ty: TypeId,
    paths: &[Listing<PathStep>],
    values: &[u32],
) -> bool
    requires range { InRange (core_of trees.now) }
    requires ty { ty.0 < length trees.now.types.now.terms }
    requires values { All (λ c. c < length trees.now.nodes.now) values.now }
    ensures { IsTrue result
        ↔ InitialValues (core_of trees.now) (Some (type_of trees.now.types.now ty.0)) paths.now values.now }
{
    let mut rest = values;
    for path in paths {
        match rest {
            [v, more @ ..] => {
                if !is_value_at(trees, ty, path.as_slice(), *v) {
                    return false;
                }
                rest = more;
            }
            [] => return false,
        }
    }
    rest.is_empty()
}

// Whether a node is a value of the type at the end of a path.
fn is_value_at(trees: &Trees<'_>, ty: TypeId, path: &[PathStep], node: u32) -> bool
    requires range { InRange (core_of trees.now) }
    requires ty { ty.0 < length trees.now.types.now.terms }
    requires node { node < length trees.now.nodes.now }
    ensures { IsTrue result
        ↔ (sort_at (core_of trees.now) node ≡ ValueNode)
        × (type_at_path trees.now.types.now (Some (type_of trees.now.types.now ty.0)) path.now
        ≡ Some (type_at (core_of trees.now) node)) }
{
    let there = &trees.nodes[node as usize];
    match at_path(trees.types, ty, path) {
        Some(part) => is_value_kind(&there.kind) && trees.types.same(part, there.ty),
        None => false,
    }
}
