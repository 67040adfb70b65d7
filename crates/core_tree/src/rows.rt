// Whether a node stands in the row of its kind.

ghost use Rattle.std.specs.Prelude.{◌≡◌, ◌≢◌, ℕ, ◌<◌, ◌↔◌, Some, IsTrue, IfSome, All, length};
ghost use Rattle.c_types.specs.Table.{type_of};
ghost use Rattle.core_tree.specs.Seen.{core_of};
ghost use Rattle.core_tree.specs.Typed.{sort_of, PlaceNode, ValueNode, StatementNode};
ghost use Rattle.core_tree.specs.Rows.{RowOf};
ghost use Rattle.core_tree.specs.Range.{InRange, named_by};

use crate::calls::call_row;
pub use crate::kinds::{is_any_value, is_place, is_place_kind, is_value, is_value_kind};
use crate::node::{Node, NodeKind};
use crate::places::{deref_row, function_name_row, literal_row, member_row, named_row, text_row};
use crate::statements::{
    block_row, do_while_row, expression_row, for_row, if_row, initial_values, labelled_row,
    return_row, switch_row, while_row,
};
use crate::trees::Trees;
use crate::values::{
    address_row, arith_row, assign_row, choose_row, convert_row, decay_row, fetch_row,
    member_of_value_row, next_arg_row, null_row, number_row, pointer_add_row, sequence_row,
    upcast_row, update_row, var_args_row,
};
pub use type_rules::kinds::{is_integer, is_stored, is_void, points_to};
pub use type_rules::numbers::holds;

/// Whether a node stands in the row of its kind.
pub fn in_row(trees: &Trees<'_>, node: &Node) -> bool
    requires range { InRange (core_of trees.now) }
    requires ty { node.now.ty.0 < length trees.now.types.now.terms }
    requires children { All (λ c. c < length trees.now.nodes.now) node.now.children }
    requires entity { IfSome (named_by node.now.kind) (λ e. e < length trees.now.entities.now) }
    ensures { IsTrue result
        ↔ RowOf (core_of trees.now) node.now.kind (type_of trees.now.types.now node.now.ty.0) node.now.children }
{
    if is_place_kind(&node.kind) {
        place_row(trees, node)
    } else if is_value_kind(&node.kind) {
        value_row(trees, node)
    } else {
        statement_row(trees, node)
    }
}

// Whether a place stands in its row.
fn place_row(trees: &Trees<'_>, node: &Node) -> bool
    requires range { InRange (core_of trees.now) }
    requires ty { node.now.ty.0 < length trees.now.types.now.terms }
    requires children { All (λ c. c < length trees.now.nodes.now) node.now.children }
    requires entity { IfSome (named_by node.now.kind) (λ e. e < length trees.now.entities.now) }
    requires sort { sort_of node.now.kind ≡ PlaceNode }
    ensures { IsTrue result
        ↔ RowOf (core_of trees.now) node.now.kind (type_of trees.now.types.now node.now.ty.0) node.now.children }
{
    let children = node.children.as_slice();
    match &node.kind {
        NodeKind::Named(e) => named_row(trees, *e, node.ty, children),
        NodeKind::Text(bytes) => text_row(trees, bytes.as_slice(), node.ty, children),
        NodeKind::Literal(e) => literal_row(trees, *e, node.ty, children),
        NodeKind::FunctionName(e) => function_name_row(trees, *e, node.ty, children),
        NodeKind::Deref => deref_row(trees, node.ty, children),
        NodeKind::Member(k) => member_row(trees, *k, node.ty, children),
        _ => false,
    }
}

// Whether a value stands in its row.
fn value_row(trees: &Trees<'_>, node: &Node) -> bool
    requires range { InRange (core_of trees.now) }
    requires ty { node.now.ty.0 < length trees.now.types.now.terms }
    requires children { All (λ c. c < length trees.now.nodes.now) node.now.children }
    requires entity { IfSome (named_by node.now.kind) (λ e. e < length trees.now.entities.now) }
    requires sort { sort_of node.now.kind ≡ ValueNode }
    ensures { IsTrue result
        ↔ RowOf (core_of trees.now) node.now.kind (type_of trees.now.types.now node.now.ty.0) node.now.children }
{
    let children = node.children.as_slice();
    match &node.kind {
        NodeKind::Number(n) => number_row(trees, n.get(), node.ty, children),
        NodeKind::NullValue => null_row(trees, node.ty, children),
        NodeKind::Fetch => fetch_row(trees, node.ty, children),
        NodeKind::AddressOf => address_row(trees, node.ty, children),
        NodeKind::Decay => decay_row(trees, node.ty, children),
        NodeKind::PointerAdd { .. } => pointer_add_row(trees, node.ty, children),
        NodeKind::Convert => convert_row(trees, node.ty, children),
        NodeKind::Upcast => upcast_row(trees, node.ty, children),
        NodeKind::Assign => assign_row(trees, node.ty, children),
        NodeKind::Update { op, .. } => update_row(trees, *op, node.ty, children),
        NodeKind::Choose => choose_row(trees, node.ty, children),
        NodeKind::Sequence => sequence_row(trees, node.ty, children),
        NodeKind::CallNode => call_row(trees, node.ty, children),
        NodeKind::MemberOfValue(k) => member_of_value_row(trees, *k, node.ty, children),
        NodeKind::Arith(op) => arith_row(trees, *op, node.ty, children),
        NodeKind::VarArgs(e) => var_args_row(trees, *e, node.ty, children),
        NodeKind::NextArg => next_arg_row(trees, node.ty, children),
        _ => false,
    }
}

// Whether a statement stands in its row.
fn statement_row(trees: &Trees<'_>, node: &Node) -> bool
    requires range { InRange (core_of trees.now) }
    requires children { All (λ c. c < length trees.now.nodes.now) node.now.children }
    requires entity { IfSome (named_by node.now.kind) (λ e. e < length trees.now.entities.now) }
    requires place { sort_of node.now.kind ≢ PlaceNode }
    requires value { sort_of node.now.kind ≢ ValueNode }
    ensures { IsTrue result
        ↔ RowOf (core_of trees.now) node.now.kind (type_of trees.now.types.now node.now.ty.0) node.now.children }
{
    let children = node.children.as_slice();
    match &node.kind {
        NodeKind::Expression => expression_row(trees, children),
        NodeKind::Block(_) => block_row(trees, children),
        NodeKind::If => if_row(trees, children),
        NodeKind::While => while_row(trees, children),
        NodeKind::DoWhile => do_while_row(trees, children),
        NodeKind::For {
            entities,
            condition,
            after,
        } => for_row(trees, entities.as_slice(), *condition, *after, children),
        NodeKind::Switch => switch_row(trees, children),
        NodeKind::Case(_) | NodeKind::Default | NodeKind::Label(_) => labelled_row(trees, children),
        NodeKind::Goto(_) | NodeKind::Break | NodeKind::Continue | NodeKind::Skip =>
            children.is_empty(),
        NodeKind::Return => return_row(trees, children),
        NodeKind::Initialise { entity, paths } => {
            let ty = trees.entities[*entity as usize].ty;
            initial_values(trees, ty, paths.as_slice(), children)
        }
        _ => false,
    }
}
