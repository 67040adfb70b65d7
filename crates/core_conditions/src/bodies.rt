// What stands in the bodies of functions.

ghost use Rattle.std.specs.Prelude.{◌≡◌, ℕ, ◌<◌, ◌↔◌, IsTrue, IfSome, All, length};
ghost use Rattle.core_tree.specs.Seen.{core_of};
ghost use Rattle.core_tree.specs.Valid.{InRange, ChildOnce, IsLocal, UnderBody, InBody, IsAround, InSomeBody};
ghost use Rattle.core_tree.specs.Valid.{InOwnersBody, IsInOwner, InOwnerIn, entity_at, IsLoop, IsSwitch, Encloses, Within};
ghost use Rattle.core_tree.specs.Valid.{MayStand, Under, named_by, IsLabel, IsLabelOf, OnlyLabel, LabelOnce, ReturnsRight};
ghost use Rattle.core_tree.specs.Valid.{FitsBody, FitsFunction, FitsFunctions};

use core_tree::node::{Entity, Node, NodeKind, Storage};
use core_tree::trees::Trees;
use core_tree::under::is_under;
use pta_base::Text;
use type_rules::conversions::is_result_of;
use type_rules::kinds::is_function;

/// Whether an object is automatic or a parameter.
pub fn is_local(storage: Storage) -> bool
    ensures { IsTrue result ↔ IsLocal storage }
{
    matches!(storage, Storage::Automatic | Storage::Parameter)
}

// Whether a node stands in that body, if there is one.
fn under_body(trees: &Trees<'_>, body: Option<u32>, n: usize) -> bool
    requires range { InRange (core_of trees.now) }
    requires once { ChildOnce (core_of trees.now) }
    ensures { IsTrue result ↔ UnderBody (core_of trees.now) body n }
{
    match body {
        Some(b) => is_under(trees, b as usize, n),
        None => false,
    }
}

/// Whether a node stands in the body of a function.
pub fn in_body(trees: &Trees<'_>, f: u32, n: usize) -> bool
    requires range { InRange (core_of trees.now) }
    requires once { ChildOnce (core_of trees.now) }
    requires entity { f < length trees.now.entities.now }
    ensures { IsTrue result ↔ InBody (core_of trees.now) f n }
{
    let entity = &trees.entities[f as usize];
    is_function(trees.types, entity.ty) && under_body(trees, entity.body, n)
}

/// Whether a node stands in the body of a local's owner.
pub fn in_owners_body(trees: &Trees<'_>, owner: Option<u32>, n: usize) -> bool
    requires range { InRange (core_of trees.now) }
    requires once { ChildOnce (core_of trees.now) }
    requires owner { IfSome owner (λ f. f < length trees.now.entities.now) }
    ensures { IsTrue result ↔ InOwnersBody (core_of trees.now) owner n }
{
    match owner {
        Some(f) => in_body(trees, f, n),
        None => false,
    }
}

// Whether a node stands where the entity that it names may be named.
fn in_owner_of(trees: &Trees<'_>, e: u32, n: usize) -> bool
    requires range { InRange (core_of trees.now) }
    requires once { ChildOnce (core_of trees.now) }
    requires entity { e < length trees.now.entities.now }
    ensures { IsTrue result ↔ InOwnerIn (core_of trees.now) (entity_at (core_of trees.now) e) n }
{
    let entity = &trees.entities[e as usize];
    !is_local(entity.storage) || in_owners_body(trees, entity.owner, n)
}

/// Whether the name or literal of a local stands in its owner's body, and the list of what a function was passed past its parameters in
/// that function's.
pub fn is_in_owner(trees: &Trees<'_>, n: usize, kind: &NodeKind) -> bool
    requires range { InRange (core_of trees.now) }
    requires once { ChildOnce (core_of trees.now) }
    requires entity { IfSome (named_by kind.now) (λ e. e < length trees.now.entities.now) }
    ensures { IsTrue result ↔ IsInOwner (core_of trees.now) n kind.now }
{
    match kind {
        NodeKind::Named(e) => in_owner_of(trees, *e, n),
        NodeKind::Literal(e) => in_owner_of(trees, *e, n),
        NodeKind::VarArgs(e) => in_body(trees, *e, n),
        _ => true,
    }
}

// Whether a node stands in the body of that entity, which is a function with a body.
fn is_around(trees: &Trees<'_>, n: usize, entity: &Entity) -> bool
    requires range { InRange (core_of trees.now) }
    requires once { ChildOnce (core_of trees.now) }
    ensures { IsTrue result ↔ IsAround (core_of trees.now) n entity.now }
{
    matches!(entity.storage, Storage::FunctionBody) && under_body(trees, entity.body, n)
}

// Whether a node stands in the body of some function.
fn in_some_body(trees: &Trees<'_>, n: usize) -> bool
    requires range { InRange (core_of trees.now) }
    requires once { ChildOnce (core_of trees.now) }
    ensures { IsTrue result ↔ InSomeBody (core_of trees.now) n }
{
    trees
        .entities
        .iter()
        .any(|entity| is_around(trees, n, entity))
}

// Whether a kind is a switch, or a loop.
fn encloses(switch: bool, kind: &NodeKind) -> bool
    ensures { IsTrue result ↔ Encloses switch kind.now }
{
    match kind {
        NodeKind::Switch => switch,
        NodeKind::While | NodeKind::DoWhile | NodeKind::For { .. } => !switch,
        _ => false,
    }
}

// Whether a node encloses another one, as a switch or as a loop.
fn stands_above(trees: &Trees<'_>, switch: bool, n: usize, top: usize, kind: &NodeKind) -> bool
    requires range { InRange (core_of trees.now) }
    requires once { ChildOnce (core_of trees.now) }
    ensures { IsTrue result ↔ Encloses switch kind.now × Under (core_of trees.now) top n }
{
    encloses(switch, kind) && is_under(trees, top, n)
}

// Whether a switch, or a loop, stands above a node.
fn within(trees: &Trees<'_>, switch: bool, n: usize) -> bool
    requires range { InRange (core_of trees.now) }
    requires once { ChildOnce (core_of trees.now) }
    ensures { IsTrue result ↔ Within (core_of trees.now) switch n }
{
    trees.nodes.iter().enumerate().any(|(top, node)| stands_above(
        trees, switch, n, top, &node.kind,
    ))
}

/// Whether a kind of node may stand where it does.
pub fn may_stand(trees: &Trees<'_>, n: usize, kind: &NodeKind) -> bool
    requires range { InRange (core_of trees.now) }
    requires once { ChildOnce (core_of trees.now) }
    ensures { IsTrue result ↔ MayStand (core_of trees.now) n kind.now }
{
    match kind {
        NodeKind::CallNode | NodeKind::Return | NodeKind::Goto(_) | NodeKind::Label(_) =>
            in_some_body(trees, n),
        NodeKind::Break => {
            in_some_body(trees, n) && (within(trees, false, n) || within(trees, true, n))
        }
        NodeKind::Continue => in_some_body(trees, n) && within(trees, false, n),
        NodeKind::Case(_) | NodeKind::Default => in_some_body(trees, n) && within(trees, true, n),
        _ => true,
    }
}

// Whether a kind is that label.
fn is_label(name: &Text, kind: &NodeKind) -> bool
    ensures { IsTrue result ↔ IsLabel name.now kind.now }
{
    match kind {
        NodeKind::Label(other) => other.as_str() == name.as_str(),
        _ => false,
    }
}

// Whether a node is that label of a body.
fn is_label_of(trees: &Trees<'_>, body: u32, name: &Text, n: usize, kind: &NodeKind) -> bool
    requires range { InRange (core_of trees.now) }
    requires once { ChildOnce (core_of trees.now) }
    ensures { IsTrue result ↔ IsLabelOf (core_of trees.now) body name.now n kind.now }
{
    is_label(name, kind) && is_under(trees, body as usize, n)
}

// Whether no other node of a body is that label.
fn only_label(trees: &Trees<'_>, body: u32, name: &Text, n: usize) -> bool
    requires range { InRange (core_of trees.now) }
    requires once { ChildOnce (core_of trees.now) }
    ensures { IsTrue result ↔ OnlyLabel (core_of trees.now) body name.now n }
{
    trees.nodes.iter().enumerate().all(|(m, other)| !is_label_of(trees, body, name, m, &other.kind)
        || n == m)
}

// Whether a node is that label of a body, and no other one is.
fn is_lone_label(trees: &Trees<'_>, body: u32, name: &Text, n: usize, kind: &NodeKind) -> bool
    requires range { InRange (core_of trees.now) }
    requires once { ChildOnce (core_of trees.now) }
    ensures { IsTrue result
        ↔ IsLabelOf (core_of trees.now) body name.now n kind.now × OnlyLabel (core_of trees.now) body name.now n }
{
    is_label_of(trees, body, name, n, kind) && only_label(trees, body, name, n)
}

// Whether a label stands in a body exactly once.
fn label_once(trees: &Trees<'_>, body: u32, name: &Text) -> bool
    requires range { InRange (core_of trees.now) }
    requires once { ChildOnce (core_of trees.now) }
    ensures { IsTrue result ↔ LabelOnce (core_of trees.now) body name.now }
{
    trees.nodes.iter().enumerate().any(|(n, node)| is_lone_label(trees, body, name, n, &node.kind))
}

// Whether a returned value has the type that a function gives (C11 6.8.6.4p3).
fn returns_right(trees: &Trees<'_>, entity: &Entity, children: &[u32]) -> bool
    requires range { InRange (core_of trees.now) }
    requires entity { entity.now.ty.0 < length trees.now.types.now.terms }
    requires children { All (λ c. c < length trees.now.nodes.now) children.now }
    ensures { IsTrue result ↔ ReturnsRight (core_of trees.now) entity.now children.now }
{
    match children {
        [v] => is_result_of(trees.types, trees.nodes[*v as usize].ty, entity.ty),
        _ => true,
    }
}

// Whether a node fits the body in which it stands.
fn fits_body(trees: &Trees<'_>, entity: &Entity, body: u32, node: &Node) -> bool
    requires range { InRange (core_of trees.now) }
    requires once { ChildOnce (core_of trees.now) }
    requires entity { entity.now.ty.0 < length trees.now.types.now.terms }
    requires children { All (λ c. c < length trees.now.nodes.now) node.now.children }
    ensures { IsTrue result
        ↔ FitsBody (core_of trees.now) entity.now body node.now.kind node.now.children }
{
    match &node.kind {
        NodeKind::Goto(name) => label_once(trees, body, name.get()),
        NodeKind::Return => returns_right(trees, entity, node.children.as_slice()),
        _ => true,
    }
}

// Whether a node fits a function, if it stands in its body.
fn fits_function(trees: &Trees<'_>, n: usize, node: &Node, entity: &Entity) -> bool
    requires range { InRange (core_of trees.now) }
    requires once { ChildOnce (core_of trees.now) }
    requires entity { entity.now.ty.0 < length trees.now.types.now.terms }
    requires children { All (λ c. c < length trees.now.nodes.now) node.now.children }
    ensures { IsTrue result ↔ FitsFunction (core_of trees.now) n node.now entity.now }
{
    match entity.body {
        Some(b) => {
            !matches!(entity.storage, Storage::FunctionBody)
                || !is_under(trees, b as usize, n)
                || fits_body(trees, entity, b, node)
        }
        None => true,
    }
}

/// Whether a node fits each function in whose body it stands.
pub fn fits_functions(trees: &Trees<'_>, n: usize, node: &Node) -> bool
    requires range { InRange (core_of trees.now) }
    requires once { ChildOnce (core_of trees.now) }
    requires types { All (λ entity. entity.ty.0 < length trees.now.types.now.terms) trees.now.entities.now }
    requires children { All (λ c. c < length trees.now.nodes.now) node.now.children }
    ensures { IsTrue result ↔ FitsFunctions (core_of trees.now) n node.now }
{
    trees
        .entities
        .iter()
        .all(|entity| fits_function(trees, n, node, entity))
}
