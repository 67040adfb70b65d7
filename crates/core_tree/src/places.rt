// The rows of places: how each stands over its children.

ghost use Rattle.std.specs.Prelude.{◌≡◌, ℕ, ◌<◌, ◌↔◌, IsTrue, All, length, slice_get};
ghost use Rattle.c_types.specs.Table.{type_of};
ghost use Rattle.core_tree.specs.Seen.{core_of};
ghost use Rattle.core_tree.specs.Rows.{NamedRow, TextRow, LiteralRow, FunctionNameRow, DerefRow, MemberRow, place_bits};
ghost use Rattle.core_tree.specs.Range.{InRange};

use crate::kinds::{initialises, is_place_kind, is_value_kind};
use crate::node::NodeKind;
use crate::trees::Trees;
use c_types::term::TypeId;
use type_rules::conversions::agree;
use type_rules::kinds::{is_function, is_text, is_void, lacks_length, points_to};
use type_rules::members::{is_member, member_width};

/// Whether the name of an object may have that type (C11 6.5.1p2).
pub fn named_row(trees: &Trees<'_>, e: u32, ty: TypeId, children: &[u32]) -> bool
    requires range { InRange (core_of trees.now) }
    requires ty { ty.0 < length trees.now.types.now.terms }
    requires children { All (λ c. c < length trees.now.nodes.now) children.now }
    requires entity { e < length trees.now.entities.now }
    ensures { IsTrue result ↔ NamedRow (core_of trees.now) e (type_of trees.now.types.now ty.0) children.now }
{
    match children {
        [] => {
            !is_function(trees.types, ty) && agree(trees.types, ty, trees.entities[e as usize].ty)
        },
        _ => false,
    }
}

/// Whether a string literal may have that type: an array of `char`, one longer than its bytes (C11 6.4.5p6).
pub fn text_row(trees: &Trees<'_>, bytes: &[u8], ty: TypeId, children: &[u32]) -> bool
    requires { ty.0 < length trees.now.types.now.terms }
    ensures { IsTrue result ↔ TextRow bytes.now (type_of trees.now.types.now ty.0) children.now }
{
    match children {
        [] => is_text(trees.types, ty, bytes.len() as u64),
        _ => false,
    }
}

/// Whether a compound literal of that type stands over the initialiser of its entity (C11 6.5.2.5).
pub fn literal_row(trees: &Trees<'_>, e: u32, ty: TypeId, children: &[u32]) -> bool
    requires range { InRange (core_of trees.now) }
    requires ty { ty.0 < length trees.now.types.now.terms }
    requires children { All (λ c. c < length trees.now.nodes.now) children.now }
    requires entity { e < length trees.now.entities.now }
    ensures { IsTrue result ↔ LiteralRow (core_of trees.now) e (type_of trees.now.types.now ty.0) children.now }
{
    match children {
        [i] => {
            trees.types.same(trees.entities[e as usize].ty, ty)
                && initialises(&trees.nodes[*i as usize].kind, e as usize)
        },
        _ => false,
    }
}

/// Whether the name of a function may have that type.
pub fn function_name_row(trees: &Trees<'_>, e: u32, ty: TypeId, children: &[u32]) -> bool
    requires range { InRange (core_of trees.now) }
    requires ty { ty.0 < length trees.now.types.now.terms }
    requires children { All (λ c. c < length trees.now.nodes.now) children.now }
    requires entity { e < length trees.now.entities.now }
    ensures { IsTrue result ↔ FunctionNameRow (core_of trees.now) e (type_of trees.now.types.now ty.0) children.now }
{
    match children {
        [] => {
            is_function(trees.types, ty) && agree(trees.types, ty, trees.entities[e as usize].ty)
        },
        _ => false,
    }
}

/// Whether a Deref of that type stands over a pointer to it (C11 6.5.3.2p4).
pub fn deref_row(trees: &Trees<'_>, ty: TypeId, children: &[u32]) -> bool
    requires range { InRange (core_of trees.now) }
    requires ty { ty.0 < length trees.now.types.now.terms }
    requires children { All (λ c. c < length trees.now.nodes.now) children.now }
    ensures { IsTrue result ↔ DerefRow (core_of trees.now) (type_of trees.now.types.now ty.0) children.now }
{
    match children {
        [v] => {
            let there = &trees.nodes[*v as usize];
            is_value_kind(&there.kind)
                && points_to(trees.types, there.ty, ty)
                && !is_void(trees.types, ty)
        },
        _ => false,
    }
}

/// Whether member `k` of a place has that type, and is no flexible array (C11 6.5.2.3).
pub fn member_row(trees: &Trees<'_>, k: u32, ty: TypeId, children: &[u32]) -> bool
    requires range { InRange (core_of trees.now) }
    requires ty { ty.0 < length trees.now.types.now.terms }
    requires children { All (λ c. c < length trees.now.nodes.now) children.now }
    ensures { IsTrue result ↔ MemberRow (core_of trees.now) k (type_of trees.now.types.now ty.0) children.now }
{
    match children {
        [p] => {
            let there = &trees.nodes[*p as usize];
            is_place_kind(&there.kind)
                && is_member(trees.types, there.ty, k, ty)
                && !lacks_length(trees.types, ty)
        },
        _ => false,
    }
}

/// The width of a place, where it is a bit-field.
pub fn place_width(trees: &Trees<'_>, node: u32) -> Option<u8>
    requires range { InRange (core_of trees.now) }
    requires node { node < length trees.now.nodes.now }
    ensures { result ≡ place_bits (core_of trees.now) (slice_get trees.now.nodes.now node) }
{
    let there = &trees.nodes[node as usize];
    match there.kind {
        NodeKind::Member(k) => match there.children.as_slice() {
            [p, ..] => member_width(trees.types, trees.nodes[*p as usize].ty, k),
            [] => None,
        },
        _ => None,
    }
}
