// What is asked of entities, and of the nodes that make, list and name them.

ghost use Rattle.std.specs.Prelude.{◌≡◌, ℕ, ◌<◌, ◌↔◌, Option, Some, IsTrue, IfSome, All, length};
ghost use Rattle.core_tree.specs.Seen.{core_of};
ghost use Rattle.core_tree.specs.Valid.{InRange, ChildOnce, Has, IsOwned, OnlyBody, HasBody, IsFunctionBody, IsObjectBody};
ghost use Rattle.core_tree.specs.Valid.{IsLasting, IsLiteralOf, OnlyLiteral, IsLiteral, NoLiteral, IsNamedOrMade};
ghost use Rattle.core_tree.specs.Valid.{NamesUnder, IsLister, HasLister, Listed, IsListed, IsListable, listed_by};
ghost use Rattle.core_tree.specs.Valid.{entity_at, named_by, Under, EachNode, IsUseOf, IsUseAt, UsedAt, UsedFrom};
ghost use Rattle.core_tree.specs.Valid.{PlaceAtMost, IsUsed};

use crate::bodies::{in_body, in_owners_body, is_local};
use core_tree::kinds::initialises;
use core_tree::node::{Entity, Node, NodeKind, Storage};
use core_tree::trees::Trees;
use core_tree::under::{Group, has, is_under, listed_by, once_held};
use pta_base::Place;
use type_rules::kinds::is_function;

/// Whether an owner is a function, and a local has one.
pub fn is_owned(trees: &Trees<'_>, entity: &Entity) -> bool
    requires range { InRange (core_of trees.now) }
    requires owner { IfSome entity.now.owner (λ f. f < length trees.now.entities.now) }
    ensures { IsTrue result ↔ IsOwned (core_of trees.now) entity.now.storage entity.now.owner }
{
    match entity.owner {
        Some(f) => is_function(trees.types, trees.entities[f as usize].ty),
        None => !is_local(entity.storage),
    }
}

// Whether that is an entity's body.
fn is_body_of(entity: &Entity, b: u32) -> bool
    ensures { IsTrue result ↔ (entity.now.body ≡ Some b) }
{
    match entity.body {
        Some(other) => other == b,
        None => false,
    }
}

// Whether no other entity has a body.
fn only_body(trees: &Trees<'_>, e: usize, b: u32) -> bool
    ensures { IsTrue result ↔ OnlyBody (core_of trees.now) e b }
{
    trees
        .entities
        .iter()
        .enumerate()
        .all(|(d, other)| !is_body_of(other, b) || d == e)
}

// Whether that is the body of an entity that is a function: a block that is no node's child.
fn is_function_body(trees: &Trees<'_>, entity: &Entity, b: u32) -> bool
    requires ty { entity.now.ty.0 < length trees.now.types.now.terms }
    requires body { b < length trees.now.nodes.now }
    ensures { IsTrue result ↔ IsFunctionBody (core_of trees.now) entity.now b }
{
    is_function(trees.types, entity.ty)
        && matches!(entity.storage, Storage::FunctionBody)
        && matches!(trees.nodes[b as usize].kind, NodeKind::Block(_))
        && trees
            .nodes
            .iter()
            .all(|node| !has(node.children.as_slice(), b as usize))
}

// Whether that is the body of an entity that is an object: its own initialiser.
fn is_object_body(trees: &Trees<'_>, e: usize, entity: &Entity, b: u32) -> bool
    requires ty { entity.now.ty.0 < length trees.now.types.now.terms }
    requires body { b < length trees.now.nodes.now }
    ensures { IsTrue result ↔ IsObjectBody (core_of trees.now) e entity.now b }
{
    !is_function(trees.types, entity.ty)
        && !matches!(entity.storage, Storage::FunctionBody)
        && initialises(&trees.nodes[b as usize].kind, e)
}

/// Whether an entity has the body that it may have.
pub fn has_body(trees: &Trees<'_>, e: usize, entity: &Entity) -> bool
    requires ty { entity.now.ty.0 < length trees.now.types.now.terms }
    requires body { IfSome entity.now.body (λ b. b < length trees.now.nodes.now) }
    ensures { IsTrue result ↔ HasBody (core_of trees.now) e entity.now entity.now.body }
{
    match entity.body {
        Some(b) => {
            (is_function_body(trees, entity, b) || is_object_body(trees, e, entity, b))
                && only_body(trees, e, b)
        }
        None => !matches!(entity.storage, Storage::FunctionBody),
    }
}

// Whether a kind is the literal that makes an entity.
fn is_literal_of(kind: &NodeKind, e: usize) -> bool
    ensures { IsTrue result ↔ IsLiteralOf kind.now e }
{
    match kind {
        NodeKind::Literal(o) => *o as usize == e,
        _ => false,
    }
}

// Whether an entity lives for the whole run or with its block.
fn is_lasting(trees: &Trees<'_>, e: u32) -> bool
    requires { e < length trees.now.entities.now }
    ensures { IsTrue result ↔ IsLasting (entity_at (core_of trees.now) e) }
{
    matches!(
        trees.entities[e as usize].storage,
        Storage::Static | Storage::Automatic
    )
}

// Whether no other literal makes an entity.
fn only_literal(trees: &Trees<'_>, n: usize, e: u32) -> bool
    ensures { IsTrue result ↔ OnlyLiteral (core_of trees.now) n e }
{
    trees.nodes.iter().enumerate().all(|(m, other)| !is_literal_of(&other.kind, e as usize)
        || m == n)
}

/// Whether a node, if it is a compound literal, makes its entity alone (C11 6.5.2.5p5).
pub fn is_literal(trees: &Trees<'_>, n: usize, kind: &NodeKind) -> bool
    requires { IfSome (named_by kind.now) (λ e. e < length trees.now.entities.now) }
    ensures { IsTrue result ↔ IsLiteral (core_of trees.now) n kind.now }
{
    match kind {
        NodeKind::Literal(e) => is_lasting(trees, *e) && only_literal(trees, n, *e),
        _ => true,
    }
}

// Whether no literal makes an entity.
fn no_literal(trees: &Trees<'_>, e: usize) -> bool
    ensures { IsTrue result ↔ NoLiteral (core_of trees.now) e }
{
    trees.nodes.iter().all(|node| !is_literal_of(&node.kind, e))
}

// Whether a kind is a name of an entity or its initialiser.
fn is_named_or_made(kind: &NodeKind, e: usize) -> bool
    ensures { IsTrue result ↔ IsNamedOrMade kind.now e }
{
    match kind {
        NodeKind::Named(o) => *o as usize == e,
        NodeKind::Initialise { entity, .. } => *entity as usize == e,
        _ => false,
    }
}

// Whether the names and the initialiser of an entity stand under a node.
fn names_under(trees: &Trees<'_>, e: usize, at: usize) -> bool
    requires range { InRange (core_of trees.now) }
    requires once { ChildOnce (core_of trees.now) }
    ensures { IsTrue result ↔ NamesUnder (core_of trees.now) e at }
{
    trees.nodes.iter().enumerate().all(|(n, node)| !is_named_or_made(&node.kind, e)
        || is_under(trees, at, n))
}

// Whether a node lists an entity of a function where it may.
#[tactic(auto, unfolding(core_tree::specs::Valid::IsLister))]
fn is_lister(trees: &Trees<'_>, e: usize, f: u32, at: usize, node: &Node) -> bool
    requires range { InRange (core_of trees.now) }
    requires once { ChildOnce (core_of trees.now) }
    requires owner { f < length trees.now.entities.now }
    ensures { IsTrue result ↔ IsLister (core_of trees.now) e f at node.now }
{
    has(listed_by(&node.kind), e) && in_body(trees, f, at) && names_under(trees, e, at)
}

// Whether some node lists an entity of a function.
fn has_lister(trees: &Trees<'_>, e: usize, f: u32) -> bool
    requires range { InRange (core_of trees.now) }
    requires once { ChildOnce (core_of trees.now) }
    requires owner { f < length trees.now.entities.now }
    ensures { IsTrue result ↔ HasLister (core_of trees.now) e f }
{
    trees
        .nodes
        .iter()
        .enumerate()
        .any(|(at, node)| is_lister(trees, e, f, at, node))
}

// Whether one block or loop of a function lists an entity.
fn listed(trees: &Trees<'_>, e: usize, f: u32) -> bool
    requires range { InRange (core_of trees.now) }
    requires once { ChildOnce (core_of trees.now) }
    requires owner { f < length trees.now.entities.now }
    ensures { IsTrue result ↔ Listed (core_of trees.now) e f }
{
    has_lister(trees, e, f) && once_held(trees, Group::Entities, e)
}

/// Whether an entity, if it is an automatic object that no literal makes, is listed.
pub fn is_listed(trees: &Trees<'_>, e: usize, entity: &Entity) -> bool
    requires range { InRange (core_of trees.now) }
    requires once { ChildOnce (core_of trees.now) }
    requires owner { IfSome entity.now.owner (λ f. f < length trees.now.entities.now) }
    ensures { IsTrue result ↔ IsListed (core_of trees.now) e entity.now }
{
    match entity.owner {
        Some(f) => {
            !matches!(entity.storage, Storage::Automatic)
                || !no_literal(trees, e)
                || listed(trees, e, f)
        }
        None => true,
    }
}

// Whether a node may list an entity.
fn is_listable(trees: &Trees<'_>, n: usize, e: u32) -> bool
    requires range { InRange (core_of trees.now) }
    requires once { ChildOnce (core_of trees.now) }
    requires entity { e < length trees.now.entities.now }
    ensures { IsTrue result ↔ IsListable (core_of trees.now) n e }
{
    let entity = &trees.entities[e as usize];
    matches!(entity.storage, Storage::Automatic)
        && no_literal(trees, e as usize)
        && in_owners_body(trees, entity.owner, n)
}

/// Whether a node may list what it lists.
pub fn lists_right(trees: &Trees<'_>, n: usize, kind: &NodeKind) -> bool
    requires range { InRange (core_of trees.now) }
    requires once { ChildOnce (core_of trees.now) }
    requires list { All (λ e. e < length trees.now.entities.now) (listed_by kind.now) }
    ensures { IsTrue result ↔ All (λ e. IsListable (core_of trees.now) n e) (listed_by kind.now) }
{
    listed_by(kind).iter().all(|e| is_listable(trees, n, *e))
}

// Whether a kind is a use of an entity.
fn is_use_of(kind: &NodeKind, e: usize) -> bool
    ensures { IsTrue result ↔ IsUseOf kind.now e }
{
    match kind {
        NodeKind::Named(o) | NodeKind::FunctionName(o) => *o as usize == e,
        _ => false,
    }
}

// Whether a place is another one, or before it.
fn at_most(p: Place, q: Place) -> bool
    ensures { IsTrue result ↔ PlaceAtMost p q }
{
    p.unit < q.unit
        || (p.unit == q.unit && (p.line < q.line || (p.line == q.line && p.column <= q.column)))
}

// Whether a node is a use of an entity at a place.
fn is_use_at(node: &Node, e: usize, p: Place) -> bool
    ensures { IsTrue result ↔ IsUseAt e p node.now }
{
    is_use_of(&node.kind, e) && node.place == p
}

// Whether an entity is used at a place.
fn used_at(trees: &Trees<'_>, e: usize, p: Place) -> bool
    ensures { IsTrue result ↔ UsedAt (core_of trees.now) e p }
{
    trees.nodes.iter().any(|node| is_use_at(node, e, p))
}

// Whether an entity isn't used before a place.
fn used_from(trees: &Trees<'_>, e: usize, p: Place) -> bool
    ensures { IsTrue result ↔ UsedFrom (core_of trees.now) e p }
{
    trees
        .nodes
        .iter()
        .all(|node| !is_use_of(&node.kind, e) || at_most(p, node.place))
}

/// Whether an entity tells its first use.
pub fn is_used(trees: &Trees<'_>, e: usize, used: Option<Place>) -> bool
    ensures { IsTrue result ↔ IsUsed (core_of trees.now) e used }
{
    match used {
        Some(p) => used_at(trees, e, p) && used_from(trees, e, p),
        None => trees.nodes.iter().all(|node| !is_use_of(&node.kind, e)),
    }
}
