// What a node's tree is: its sort, its type and its place.
ghost use Rattle.std.specs.Prelude.{◌≡◌, ◌<◌, length, slice_get, Some, IsTrue, ◌↔◌};
ghost use Rattle.c_types.specs.Table.{type_of};
ghost use Rattle.core_tree.specs.Typed.{PlaceNode, ValueNode};
ghost use Rattle.c_senses.specs.passed.c_consts.Core.{kind_of, ctype_of, place_of, core_sort};
ghost use Rattle.core_nodes.specs.Standing.{core_at, IsReady};

use c_types::term::TypeId;
use core_tree::node::{NodeKind, Unit};
use core_tree::rows::{is_place_kind, is_value_kind};
use pta_base::Place;

/// The type of a node.
pub fn type_of_node(unit: &Unit, node: u32) -> TypeId
    requires ready { IsReady unit.now }
    requires node { node < length unit.now.nodes.items }
    ensures tree { type_of unit.now.types result.0 ≡ ctype_of (core_at unit.now node) }
    ensures within { result.0 < length unit.now.types.terms }
{
    unit.nodes[node as usize].ty
}

/// The place of a node.
pub fn place_of_node(unit: &Unit, node: u32) -> Place
    requires ready { IsReady unit.now }
    requires node { node < length unit.now.nodes.items }
    ensures { result ≡ place_of (core_at unit.now node) }
{
    unit.nodes[node as usize].place
}

/// Whether a node is a place.
pub fn is_place(unit: &Unit, node: u32) -> bool
    requires ready { IsReady unit.now }
    requires node { node < length unit.now.nodes.items }
    ensures { IsTrue result ↔ (core_sort (core_at unit.now node) ≡ PlaceNode) }
{
    is_place_kind(&unit.nodes[node as usize].kind)
}

/// Whether a node is a value.
pub fn is_value(unit: &Unit, node: u32) -> bool
    requires ready { IsReady unit.now }
    requires node { node < length unit.now.nodes.items }
    ensures { IsTrue result ↔ (core_sort (core_at unit.now node) ≡ ValueNode) }
{
    is_value_kind(&unit.nodes[node as usize].kind)
}

/// The kind of a node.
pub fn kind_of_node(unit: &Unit, node: u32) -> &NodeKind
    requires ready { IsReady unit.now }
    requires node { node < length unit.now.nodes.items }
    ensures { result.now ≡ kind_of (core_at unit.now node) }
{
    &unit.nodes[node as usize].kind
}
