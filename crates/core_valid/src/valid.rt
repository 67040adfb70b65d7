// Whether a unit or a program is valid.

ghost use Rattle.std.specs.Prelude.{◌≡◌, ℕ, ◌<◌, ◌↔◌, IsTrue, IfSome, All, length};
ghost use Rattle.c_types.specs.Table.{type_of};
ghost use Rattle.core_tree.specs.Seen.{core_of};
ghost use Rattle.core_tree.specs.Range.{EachNode, EachEntity, node_at, entity_at, named_by, listed_by, InRange, ChildOnce, OnceHeld};
ghost use Rattle.core_tree.specs.Groups.{group_of};
ghost use Rattle.core_tree.specs.declared.under.Group.TheVariants.{Children};
ghost use Rattle.core_tree.specs.Valid.{ValueSized, EntitySized, ResultSized, Sized};
ghost use Rattle.core_valid.specs.Each.{NodeInRange, EntityInRange, NodeStands, NodeHolds, NodeRightIn, EntityRight};
ghost use Rattle.core_valid.specs.Each.{EntityRightIn, NodesRight, EntitiesRight, Checked};

use core_conditions::bodies::{fits_functions, is_in_owner, may_stand};
use core_conditions::cases::case_differs;
use core_conditions::entities::{has_body, is_listed, is_literal, is_owned, is_used, lists_right};
use core_conditions::fixed::holds_fixed;
use core_tree::kinds::is_value_kind;
use core_tree::node::{Entity, Linkage, Node, NodeKind, Storage};
use core_tree::rows::in_row;
use core_tree::trees::Trees;
use core_tree::under::{Group, listed_by, once_held};
use type_rules::kinds::{is_aggregate, is_function, lacks_length};
use type_rules::sizes::{has_size, has_size_with_one, is_open, result_has_size, tags_have_sizes};

// Whether the entity that a kind names, if it names one, is in range.
fn names_in_range(trees: &Trees<'_>, kind: &NodeKind) -> bool
    ensures { IsTrue result ↔ IfSome (named_by kind.now) (λ e. e < length trees.now.entities.now) }
{
    match kind {
        NodeKind::Named(e) | NodeKind::FunctionName(e) => (*e as usize) < trees.entities.len(),
        NodeKind::Literal(e) | NodeKind::VarArgs(e) => (*e as usize) < trees.entities.len(),
        NodeKind::Initialise { entity, .. } => (*entity as usize) < trees.entities.len(),
        _ => true,
    }
}

// Whether each number of a list is below a bound.
fn all_below(list: &[u32], bound: usize) -> bool
    ensures { IsTrue result ↔ All (λ x. x < bound) list.now }
{
    list.iter().all(|x| (*x as usize) < bound)
}

// Whether what a node names is in range, and its children come first.
fn node_in_range(trees: &Trees<'_>, n: usize, node: &Node) -> bool
    ensures { IsTrue result ↔ NodeInRange (core_of trees.now) n node.now }
{
    node.ty.0 < trees.types.type_count()
        && all_below(node.children.as_slice(), n)
        && names_in_range(trees, &node.kind)
        && all_below(listed_by(&node.kind), trees.entities.len())
}

// Whether a number, if there is one, is below a bound.
fn option_below(number: Option<u32>, bound: usize) -> bool
    ensures { IsTrue result ↔ IfSome number (λ x. x < bound) }
{
    match number {
        Some(x) => (x as usize) < bound,
        None => true,
    }
}

// Whether what an entity names is in range.
fn entity_in_range(trees: &Trees<'_>, entity: &Entity) -> bool
    ensures { IsTrue result ↔ EntityInRange (core_of trees.now) entity.now }
{
    entity.ty.0 < trees.types.type_count()
        && option_below(entity.owner, trees.entities.len())
        && option_below(entity.body, trees.nodes.len())
}

// Whether what nodes name is in range.
fn nodes_in_range(trees: &Trees<'_>) -> bool
    ensures { IsTrue result ↔ EachNode (core_of trees.now) (λ n node. NodeInRange (core_of trees.now) n node) }
{
    trees
        .nodes
        .iter()
        .enumerate()
        .all(|(n, node)| node_in_range(trees, n, node))
}

// Whether what entities name is in range.
fn entities_in_range(trees: &Trees<'_>) -> bool
    ensures { IsTrue result ↔ EachEntity (core_of trees.now) (λ e entity. EntityInRange (core_of trees.now) entity) }
{
    trees
        .entities
        .iter()
        .all(|entity| entity_in_range(trees, entity))
}

// Whether all that is named is in range.
fn in_range(trees: &Trees<'_>) -> bool
    ensures { IsTrue result ↔ InRange (core_of trees.now) }
{
    nodes_in_range(trees) && entities_in_range(trees)
}

// Whether the number of each node stands once at most among the children of nodes.
fn each_once_held(trees: &Trees<'_>) -> bool
    ensures { IsTrue result ↔ EachNode (core_of trees.now) (λ c node. OnceHeld (core_of trees.now) (group_of Children) c) }
{
    trees
        .nodes
        .iter()
        .enumerate()
        .all(|(c, _)| once_held(trees, Group::Children, c))
}

// Whether each node is a child at most once.
fn child_once(trees: &Trees<'_>) -> bool
    requires { InRange (core_of trees.now) }
    ensures { IsTrue result ↔ ChildOnce (core_of trees.now) }
{
    each_once_held(trees)
}

// Whether a node stands where it may.
fn node_stands(trees: &Trees<'_>, n: usize, node: &Node) -> bool
    requires range { InRange (core_of trees.now) }
    requires once { ChildOnce (core_of trees.now) }
    requires ty { node.now.ty.0 < length trees.now.types.now.terms }
    requires children { All (λ c. c < length trees.now.nodes.now) node.now.children }
    requires entity { IfSome (named_by node.now.kind) (λ e. e < length trees.now.entities.now) }
    requires list { All (λ e. e < length trees.now.entities.now) (listed_by node.now.kind) }
    ensures { IsTrue result ↔ NodeStands (core_of trees.now) n node.now }
{
    in_row(trees, node)
        && is_in_owner(trees, n, &node.kind)
        && is_literal(trees, n, &node.kind)
        && lists_right(trees, n, &node.kind)
        && may_stand(trees, n, &node.kind)
}

// Whether a value of structure or union type has a size.
fn value_sized(trees: &Trees<'_>, node: &Node) -> bool
    requires { node.now.ty.0 < length trees.now.types.now.terms }
    ensures { IsTrue result ↔ ValueSized (core_of trees.now) node.now }
{
    !is_value_kind(&node.kind)
        || !is_aggregate(trees.types, node.ty)
        || has_size(trees.types, node.ty)
}

// Whether a node holds what it may.
fn node_holds(trees: &Trees<'_>, n: usize, node: &Node) -> bool
    requires range { InRange (core_of trees.now) }
    requires once { ChildOnce (core_of trees.now) }
    requires types { All (λ entity. entity.ty.0 < length trees.now.types.now.terms) trees.now.entities.now }
    requires ty { node.now.ty.0 < length trees.now.types.now.terms }
    requires children { All (λ c. c < length trees.now.nodes.now) node.now.children }
    requires entity { IfSome (named_by node.now.kind) (λ e. e < length trees.now.entities.now) }
    ensures { IsTrue result ↔ NodeHolds (core_of trees.now) n node.now }
{
    holds_fixed(trees, node)
        && fits_functions(trees, n, node)
        && case_differs(trees, n, &node.kind)
        && value_sized(trees, node)
}

// Whether a node stands where it may and holds what it may.
fn node_right(trees: &Trees<'_>, n: usize) -> bool
    requires range { InRange (core_of trees.now) }
    requires once { ChildOnce (core_of trees.now) }
    requires types { All (λ entity. entity.ty.0 < length trees.now.types.now.terms) trees.now.entities.now }
    requires node { n < length trees.now.nodes.now }
    ensures { IsTrue result ↔ NodeRightIn (core_of trees.now) n (node_at (core_of trees.now) n) }
{
    let node = &trees.nodes[n];
    node_stands(trees, n, node) && node_holds(trees, n, node)
}

// Whether each node stands where it may and holds what it may.
fn nodes_right(trees: &Trees<'_>) -> bool
    requires range { InRange (core_of trees.now) }
    requires once { ChildOnce (core_of trees.now) }
    requires types { All (λ entity. entity.ty.0 < length trees.now.types.now.terms) trees.now.entities.now }
    ensures { IsTrue result ↔ NodesRight (core_of trees.now) }
{
    for n in 0..trees.nodes.len() {
        if !node_right(trees, n) {
            return false;
        }
    }
    true
}

// Whether an entity is a function, or an object of a type that it may have.
fn entity_sized(trees: &Trees<'_>, entity: &Entity) -> bool
    requires { entity.now.ty.0 < length trees.now.types.now.terms }
    ensures { IsTrue result ↔ EntitySized (core_of trees.now) entity.now }
{
    is_function(trees.types, entity.ty) || object_sized(trees, entity)
}

// Whether an object has a type that it may have (C11 6.7p7, 6.9.2).
fn object_sized(trees: &Trees<'_>, entity: &Entity) -> bool
    requires { entity.now.ty.0 < length trees.now.types.now.terms }
    ensures { IsTrue result ↔ Sized (core_of trees.now) entity.now }
{
    (has_size_with_one(trees.types, entity.ty)
        || (matches!(entity.storage, Storage::Declared) && is_open(trees.types, entity.ty)))
        && (!lacks_length(trees.types, entity.ty) || matches!(entity.linkage, Linkage::External))
}

// Whether what a function with a body gives is void or has a size.
fn result_sized(trees: &Trees<'_>, entity: &Entity) -> bool
    requires { entity.now.ty.0 < length trees.now.types.now.terms }
    ensures { IsTrue result ↔ ResultSized (core_of trees.now) entity.now }
{
    !matches!(entity.storage, Storage::FunctionBody) || result_has_size(trees.types, entity.ty)
}

// Whether an entity is what it may be.
fn entity_right(trees: &Trees<'_>, e: usize) -> bool
    requires range { InRange (core_of trees.now) }
    requires once { ChildOnce (core_of trees.now) }
    requires entity { e < length trees.now.entities.now }
    ensures { IsTrue result ↔ EntityRightIn (core_of trees.now) e (entity_at (core_of trees.now) e) }
{
    let entity = &trees.entities[e];
    is_owned(trees, entity)
        && has_body(trees, e, entity)
        && is_listed(trees, e, entity)
        && is_used(trees, e, entity.used)
        && entity_sized(trees, entity)
        && result_sized(trees, entity)
}

// Whether each entity is what it may be.
fn entities_right(trees: &Trees<'_>) -> bool
    requires range { InRange (core_of trees.now) }
    requires once { ChildOnce (core_of trees.now) }
    ensures { IsTrue result ↔ EntitiesRight (core_of trees.now) }
{
    for e in 0..trees.entities.len() {
        if !entity_right(trees, e) {
            return false;
        }
    }
    true
}

/// Whether all holds that is asked of units and programs alike.
pub fn checked(trees: &Trees<'_>) -> bool
    ensures { IsTrue result ↔ Checked (core_of trees.now) }
{
    in_range(trees)
        && child_once(trees)
        && tags_have_sizes(trees.types)
        && nodes_right(trees)
        && entities_right(trees)
}
