// Which nodes are places, values and statements, and of which types.

ghost use Rattle.std.specs.Prelude.{◌≡◌, ℕ, ◌<◌, ◌↔◌, IsTrue, length};
ghost use Rattle.c_types.specs.Table.{type_of};
ghost use Rattle.core_tree.specs.Seen.{core_of};
ghost use Rattle.core_tree.specs.Typed.{sort_of, sort_at, PlaceNode, ValueNode, StatementNode, IsPlace, IsValue, IsStatement};
ghost use Rattle.core_tree.specs.Rows.{IsNumeral, IsCondition, IsListPlace, InitialisesEntity};
ghost use Rattle.core_tree.specs.Range.{InRange};

use crate::node::NodeKind;
use crate::trees::Trees;
use c_types::term::TypeId;
use type_rules::kinds::{is_integer, is_list, is_scalar};

/// Whether a kind is a place (C11 6.3.2.1p1).
pub fn is_place_kind(kind: &NodeKind) -> bool
    ensures { IsTrue result ↔ (sort_of kind.now ≡ PlaceNode) }
{
    match kind {
        NodeKind::Named(_) | NodeKind::Text(_) | NodeKind::Literal(_) => true,
        NodeKind::FunctionName(_) | NodeKind::Deref | NodeKind::Member(_) => true,
        _ => false,
    }
}

/// Whether a kind is a value.
pub fn is_value_kind(kind: &NodeKind) -> bool
    ensures { IsTrue result ↔ (sort_of kind.now ≡ ValueNode) }
{
    match kind {
        NodeKind::Number(_)
        | NodeKind::NullValue
        | NodeKind::Fetch
        | NodeKind::AddressOf
        | NodeKind::Decay => true,
        NodeKind::PointerAdd { .. } | NodeKind::Convert | NodeKind::Upcast | NodeKind::Assign =>
            true,
        NodeKind::Update { .. } | NodeKind::Choose | NodeKind::Sequence | NodeKind::CallNode =>
            true,
        NodeKind::MemberOfValue(_) | NodeKind::Arith(_) => true,
        NodeKind::VarArgs(_) | NodeKind::NextArg => true,
        _ => false,
    }
}

/// Whether a node is a statement.
pub fn is_statement(trees: &Trees<'_>, node: u32) -> bool
    requires { node < length trees.now.nodes.now }
    ensures { IsTrue result ↔ IsStatement (core_of trees.now) node }
{
    let kind = &trees.nodes[node as usize].kind;
    !is_place_kind(kind) && !is_value_kind(kind)
}

/// Whether a node is a place of that type.
pub fn is_place(trees: &Trees<'_>, node: u32, ty: TypeId) -> bool
    requires range { InRange (core_of trees.now) }
    requires node { node < length trees.now.nodes.now }
    requires ty { ty.0 < length trees.now.types.now.terms }
    ensures { IsTrue result ↔ IsPlace (core_of trees.now) node (type_of trees.now.types.now ty.0) }
{
    let there = &trees.nodes[node as usize];
    is_place_kind(&there.kind) && trees.types.same(there.ty, ty)
}

/// Whether a node is a place of a variadic list.
pub fn is_list_place(trees: &Trees<'_>, node: u32) -> bool
    requires range { InRange (core_of trees.now) }
    requires node { node < length trees.now.nodes.now }
    ensures { IsTrue result ↔ IsListPlace (core_of trees.now) node }
{
    let there = &trees.nodes[node as usize];
    is_place_kind(&there.kind) && is_list(trees.types, there.ty)
}

/// Whether a node is a value.
pub fn is_any_value(trees: &Trees<'_>, node: u32) -> bool
    requires { node < length trees.now.nodes.now }
    ensures { IsTrue result ↔ (sort_at (core_of trees.now) node ≡ ValueNode) }
{
    is_value_kind(&trees.nodes[node as usize].kind)
}

/// Whether a node is a value of that type.
pub fn is_value(trees: &Trees<'_>, node: u32, ty: TypeId) -> bool
    requires range { InRange (core_of trees.now) }
    requires node { node < length trees.now.nodes.now }
    requires ty { ty.0 < length trees.now.types.now.terms }
    ensures { IsTrue result ↔ IsValue (core_of trees.now) node (type_of trees.now.types.now ty.0) }
{
    let there = &trees.nodes[node as usize];
    is_value_kind(&there.kind) && trees.types.same(there.ty, ty)
}

/// Whether a node is a value of integer type.
pub fn is_numeral(trees: &Trees<'_>, node: u32) -> bool
    requires range { InRange (core_of trees.now) }
    requires node { node < length trees.now.nodes.now }
    ensures { IsTrue result ↔ IsNumeral (core_of trees.now) node }
{
    let there = &trees.nodes[node as usize];
    is_value_kind(&there.kind) && is_integer(trees.types, there.ty)
}

/// Whether a node is a value of scalar type, as a condition is.
pub fn is_condition(trees: &Trees<'_>, node: u32) -> bool
    requires range { InRange (core_of trees.now) }
    requires node { node < length trees.now.nodes.now }
    ensures { IsTrue result ↔ IsCondition (core_of trees.now) node }
{
    let there = &trees.nodes[node as usize];
    is_value_kind(&there.kind) && is_scalar(trees.types, there.ty)
}

/// Whether a kind is the initialiser of that entity.
pub fn initialises(kind: &NodeKind, entity: usize) -> bool
    ensures { IsTrue result ↔ InitialisesEntity kind.now entity }
{
    match kind {
        NodeKind::Initialise { entity: other, .. } => *other as usize == entity,
        _ => false,
    }
}
