// The nodes of one unit behind those of another.
ghost use Rattle.std.specs.Prelude.{◌≡◌, ◌<◌, ◌+◌, ◌++◌, [], ◌∷◌, ◌&&◌, ℕ, Option, false, length, map, get_or, All};
ghost use Rattle.std.specs.Prelude.{IfOk, OnOk, IsOkUnless, is_some, unwrap_or};
ghost use Rattle.c_types.specs.Trees.{Ctype};
ghost use Rattle.c_types.specs.Table.{type_of};
ghost use Rattle.c_consts.specs.Core.{Of};
ghost use Rattle.core_tree.specs.declared.node.Unit.{Unit as UnitSpec};
ghost use Rattle.core_nodes.specs.Standing.{core_at, cores_at, IsReady, Builds};
ghost use Rattle.tree_reads.specs.leaf_maps.Numbers.{number_at};
ghost use Rattle.carried_trees.specs.Carried as carried;
ghost use Rattle.carried_trees.specs.Copied.{all_flagged, AreBehind, AreCarried, AreTyped};
ghost use Rattle.carried_trees.specs.carried_types.Terms.{AreIds, AreTypes};

use crate::carried_types::CarriedTypes;
use c_types::term::TypeId;
use core_nodes::CheckFault;
use core_nodes::trees::push_node;
use core_tree::held::Children;
use core_tree::node::{Node, NodeKind, Unit};
use std::alloc::Global;
use std::collections::VecDeque;
use tree_reads::leaf_maps::LeafMap;

// The number of an entity.
fn entity_at(entities: &LeafMap, leaf: u32) -> u32
    ensures { result ≡ unwrap_or (number_at entities.now leaf) 0 }
{
    entities.get(leaf).unwrap_or(0)
}

// A kind with the number of the entity that it names.
fn carried_kind(entities: &LeafMap, own: &LeafMap, kind: NodeKind) -> NodeKind
    ensures { result ≡ carried.carried_kind (number_at entities.now) (number_at own.now) kind }
{
    match kind {
        NodeKind::Named(leaf) => NodeKind::Named(entity_at(entities, leaf)),
        NodeKind::FunctionName(leaf) => NodeKind::FunctionName(entity_at(entities, leaf)),
        NodeKind::VarArgs(leaf) => NodeKind::VarArgs(entity_at(entities, leaf)),
        NodeKind::Literal(leaf) => NodeKind::Literal(entity_at(own, leaf)),
        NodeKind::Initialise { entity, paths } => NodeKind::Initialise {
            entity: entity_at(own, entity),
            paths,
        },
        other => other,
    }
}

// Whether the entity that a kind names has a number.
fn is_given_kind(entities: &LeafMap, own: &LeafMap, kind: &NodeKind) -> bool
    ensures { result ≡ carried.is_given_kind (number_at entities.now) (λ e. is_some (number_at own.now e)) kind.now }
{
    match kind {
        NodeKind::Named(leaf) | NodeKind::FunctionName(leaf) => entities.get(*leaf).is_some(),
        NodeKind::VarArgs(leaf) => entities.get(*leaf).is_some(),
        NodeKind::Literal(leaf) => own.get(*leaf).is_some(),
        NodeKind::Initialise { entity, .. } => own.get(*entity).is_some(),
        NodeKind::Block(_) | NodeKind::For { .. } => false,
        _ => true,
    }
}

// The numbers of some nodes behind a number.
fn raised(alloc: Global, from: u32, children: &[u32]) -> Result<Children, CheckFault>
    ensures raised { IfOk result (λ new. new ≡ map (λ c. from + c) children.now) }
    ensures memory { IsOkUnless result CheckFault.OutOfMemory }
{
    let mut list = Vec::new(alloc);
    for child in children {
        let Some(number) = from.checked_add(*child) else {
            return Err(CheckFault::OutOfMemory);
        };
        list.push(number)?;
    }
    let held = Children::of(alloc, list)?;
    Ok(held)
}

// Whether all of some nodes are flagged.
fn all_flagged(flags: &[bool], children: &[u32]) -> bool
    requires { All (λ c. c < length flags.now) children.now }
    ensures { result ≡ all_flagged flags.now children.now }
{
    for child in children {
        if !flags[*child as usize] {
            return false;
        }
    }
    true
}

// Whether all that a node names is given.
fn is_given(
    entities: &LeafMap,
    own: &LeafMap,
    types: &CarriedTypes,
    flags: &[bool],
    node: &Node,
) -> bool
    requires ty { node.now.ty.0 < length types.now.given.items }
    requires children { All (λ c. c < length flags.now) node.now.children }
    ensures { result ≡ ((carried.is_given_kind (number_at entities.now) (λ e. is_some (number_at own.now e)) node.now.kind
        && get_or types.now.given.items node.now.ty.0 false) && all_flagged flags.now node.now.children) }
{
    is_given_kind(entities, own, &node.kind)
        && types.given[node.ty.0 as usize]
        && all_flagged(flags, node.children.as_slice())
}

// One node more, over nodes behind a number.
fn push_carried(
    alloc: Global,
    unit: &mut Unit,
    entities: &LeafMap,
    own: &LeafMap,
    types: &CarriedTypes,
    from: u32,
    node: Node,
) -> Result<(), CheckFault>
    requires ready { IsReady unit.old }
    requires ids { AreIds types.now.ids.items unit.old.types }
    requires ty { node.ty.0 < length types.now.ids.items }
    requires children { All (λ c. from + c < length unit.old.nodes.items) node.children }
    ensures ready { IsReady unit.new }
    ensures builds { Builds unit.old unit.new }
    ensures made { OnOk result (core_at unit.new (length unit.old.nodes.items)
        ≡ Of (carried.carried_kind (number_at entities.now) (number_at own.now) node.kind) node.place
        (type_of unit.old.types (get_or types.now.ids.items node.ty.0 0))
        (cores_at unit.old (map (λ c. from + c) node.children))) }
    ensures added { OnOk result (unit.new.nodes.items ≡ unit.old.nodes.items ++ record node {
      kind = carried.carried_kind (number_at entities.now) (number_at own.now) node.kind;
      ty = record { 0 = get_or types.now.ids.items node.ty.0 0 };
      children = map (λ c. from + c) node.children;
    } ∷ []) }
    ensures types { unit.new.types ≡ unit.old.types }
    ensures memory { IsOkUnless result CheckFault.OutOfMemory }
{
    let children = raised(alloc, from, node.children.as_slice())?;
    let ty = TypeId(types.ids[node.ty.0 as usize]);
    let kind = carried_kind(entities, own, node.kind);
    match push_node(unit, kind, node.place, ty, children) {
        Ok(_) => Ok(()),
        Err(_) => Err(CheckFault::OutOfMemory),
    }
}

/// Carries nodes into a unit, behind its own: for each whether all that is named in its tree is given. Only memory may want.
pub(crate) fn carried_nodes(
    alloc: Global,
    unit: &mut Unit,
    entities: &LeafMap,
    own: &LeafMap,
    types: &CarriedTypes,
    from: u32,
    nodes: Vec<Node>,
) -> Result<Vec<bool>, CheckFault>
    requires ready { IsReady unit.old }
    requires from { from ≡ length unit.old.nodes.items }
    requires ids { AreIds types.now.ids.items unit.old.types }
    requires flags { length types.now.given.items ≡ length types.now.ids.items }
    requires order { AreBehind nodes.items }
    requires typed { AreTyped (length types.now.ids.items) nodes.items }
    ensures ready { IsReady unit.new }
    ensures builds { Builds unit.old unit.new }
    ensures carried { IfOk result (λ flags. (old : UnitSpec) (tag : ℕ → Option Ctype) →
        IsReady old →
        old.nodes.items ≡ nodes.items →
        AreTypes tag old.types (length old.types.terms) types.now.ids.items types.now.given.items unit.old.types →
        AreCarried (number_at entities.now) (number_at own.now) tag old from (length nodes.items) flags.items unit.new) }
    ensures memory { IsOkUnless result CheckFault.OutOfMemory }
{
    let mut rest = VecDeque::from_vec(nodes);
    let mut flags = Vec::new(alloc);
    while let Some(node) = rest.pop_front() {
        let flag = is_given(entities, own, types, flags.as_slice(), &node);
        push_carried(alloc, unit, entities, own, types, from, node)?;
        flags.push(flag)?;
    }
    Ok(flags)
}
