// Bit-fields: their widths decide what their values are promoted to (C11 6.3.1.1).
#![tactic(auto, using(crate::proofs::BitFields::widths))]

ghost use Rattle.std.specs.Prelude.{◌≡◌, ◌<◌, length, slice_get, Some, None, MatchOption, IfSome};
ghost use Rattle.c_types.specs.Table.{type_of};
ghost use Rattle.c_senses.specs.passed.c_consts.Core.{Core, MoreCores, NoCores, kind_of, cores_under, ctype_of};
ghost use Rattle.c_senses.specs.World.{World, members_of};
ghost use Rattle.c_senses.specs.Conversions.{place_width, read_width, width_in, is_narrow};
ghost use Rattle.c_senses.specs.Objects as objects;
ghost use Rattle.core_nodes.specs.Standing.{core_at, IsReady, Knows};
ghost use Rattle.core_nodes.specs.Sorts.{bits_of};

use crate::reads::{kind_of_node, type_of_node};
use c_types::term::{MemberTerm, Term, TypeId};
use core_tree::node::{NodeKind, Unit};

// The only node under a node.
fn only_child(unit: &Unit, node: u32) -> Option<u32>
    requires ready { IsReady unit.now }
    requires node { node < length unit.now.nodes.items }
    ensures { MatchOption result ((c : Core) → cores_under (core_at unit.now node) ≡ MoreCores c NoCores → ⊥)
        (λ p. (p < length unit.now.nodes.items) × (cores_under (core_at unit.now node) ≡ MoreCores (core_at unit.now p) NoCores)) }
{
    match unit.nodes[node as usize].children.as_slice() {
        [p] => Some(*p),
        _ => None,
    }
}

// The width of a member, where it is a bit-field.
fn bits_at(members: &[MemberTerm], k: u32) -> Option<u8>
    ensures { result ≡ bits_of (slice_get members.now k) }
{
    match members.get(k as usize) {
        Some(member) => member.bits,
        None => None,
    }
}

// The width of a member of a type, where it is a bit-field.
fn member_width(unit: &Unit, ty: TypeId, k: u32) -> Option<u8>
    requires { ty.0 < length unit.now.types.terms }
    ensures { (w : World) → Knows w unit.now → result ≡ width_in (members_of w (type_of unit.now.types ty.0)) k }
{
    match unit.types.term(ty) {
        Term::Structure(tag) | Term::Union(tag) => match unit.types.members(*tag) {
            Some(members) => bits_at(members, k),
            None => None,
        },
        _ => None,
    }
}

/// The width of the bit-field that a place is.
pub fn place_width(unit: &Unit, node: u32) -> Option<u8>
    requires ready { IsReady unit.now }
    requires node { node < length unit.now.nodes.items }
    ensures { (w : World) → Knows w unit.now → result ≡ place_width w (core_at unit.now node) }
{
    match kind_of_node(unit, node) {
        NodeKind::Member(k) => match only_child(unit, node) {
            Some(whole) => member_width(unit, type_of_node(unit, whole), *k),
            None => None,
        },
        _ => None,
    }
}

// The width of the bit-field that a value is read from.
fn read_width(unit: &Unit, node: u32) -> Option<u8>
    requires ready { IsReady unit.now }
    requires node { node < length unit.now.nodes.items }
    ensures { (w : World) → Knows w unit.now → result ≡ read_width w (core_at unit.now node) }
{
    match kind_of_node(unit, node) {
        NodeKind::Fetch => match only_child(unit, node) {
            Some(place) => place_width(unit, place),
            None => None,
        },
        NodeKind::MemberOfValue(k) => match only_child(unit, node) {
            Some(whole) => member_width(unit, type_of_node(unit, whole), *k),
            None => None,
        },
        _ => None,
    }
}

/// Whether a value is read from a bit-field of fewer bits than int has.
pub fn is_narrow(unit: &Unit, node: u32) -> bool
    requires ready { IsReady unit.now }
    requires node { node < length unit.now.nodes.items }
    ensures { (w : World) → Knows w unit.now → result ≡ is_narrow (read_width w (core_at unit.now node)) }
{
    match read_width(unit, node) {
        Some(bits) => bits < 32,
        None => false,
    }
}

/// The width of the bit-field that an expression names, as a member of a place or of a value (C11 6.5.3.4p1).
pub fn named_width(unit: &Unit, node: u32) -> Option<u8>
    requires ready { IsReady unit.now }
    requires node { node < length unit.now.nodes.items }
    ensures { (w : World) → Knows w unit.now → result ≡ objects.named_width w (core_at unit.now node) }
{
    match kind_of_node(unit, node) {
        NodeKind::Member(k) => match only_child(unit, node) {
            Some(whole) => member_width(unit, type_of_node(unit, whole), *k),
            None => None,
        },
        NodeKind::MemberOfValue(k) => match only_child(unit, node) {
            Some(whole) => member_width(unit, type_of_node(unit, whole), *k),
            None => None,
        },
        _ => None,
    }
}
