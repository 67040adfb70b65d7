// Places and pointers that are fixed before the program runs (C11 6.6p7, p9).
ghost use Rattle.std.specs.Prelude.{◌≡◌, ◌<◌, Bool, ℕ, length, slice_get, All, Some, IfOk, IfSome};
ghost use Rattle.c_types.specs.Table.{type_of};
ghost use Rattle.pta_base.specs.declared.place.Place.{Place};
ghost use Rattle.core_tree.specs.declared.node.Unit.{Unit as UnitSpec};
ghost use Rattle.c_types.specs.Trees.{Ctype};
ghost use Rattle.c_consts.specs.Core.{Of};
ghost use Rattle.c_senses.specs.Initialised as spec;
ghost use Rattle.c_senses.specs.Initialised.{is_fixed_place, is_fixed_pointer, first_place, first_pointer, first_moved};
ghost use Rattle.core_nodes.specs.Standing.{core_at, cores_at, IsReady};
ghost use Rattle.c_initials.specs.Fixed.{is_firm, is_firm_by, IsDown, is_fixed_as};

use crate::numbers::are_numbers;
use c_types::table::TypeTable;
use c_types::term::{Term, TypeId};
use core_nodes::CheckFault;
use core_tree::node::{Node, NodeKind, Unit};
use std::alloc::Global;

/// What a place or a pointer rests on: what never moves, an entity, or what the program has to compute.
#[derive(Clone, Copy, Drop)]
pub(crate) enum Base {
    Firm,
    Entity(u32),
    Loose,
}

// One step down from a node: it rests on something by itself, or on what a place or a pointer under it does.
#[derive(Clone, Copy, Drop)]
enum Step {
    Ends(Base),
    Place(u32),
    Pointer(u32),
}

// Whether a type is one of pointers.
fn is_pointer(types: &TypeTable, ty: TypeId) -> bool
    requires { ty.0 < length types.now.terms }
    ensures { result ≡ spec.is_pointer_type (type_of types.now ty.0) }
{
    match types.term(ty) {
        Term::Pointer(_) => true,
        _ => false,
    }
}

// The first child, as a place.
fn to_place(children: &[u32]) -> Step
    ensures firm { (automatic : ℕ → Bool) (u : UnitSpec) →
        is_firm_by automatic u result ≡ first_place automatic (cores_at u children.now) }
    ensures down { (n : ℕ) → All (λ c. c < n) children.now → IsDown n result }
{
    match children.first() {
        Some(child) => Step::Place(*child),
        None => Step::Ends(Base::Loose),
    }
}

// The first child, as a pointer.
fn to_pointer(children: &[u32]) -> Step
    ensures firm { (automatic : ℕ → Bool) (u : UnitSpec) →
        is_firm_by automatic u result ≡ first_pointer automatic (cores_at u children.now) }
    ensures down { (n : ℕ) → All (λ c. c < n) children.now → IsDown n result }
{
    match children.first() {
        Some(child) => Step::Pointer(*child),
        None => Step::Ends(Base::Loose),
    }
}

// The first child, as a pointer that fixed numbers move.
fn to_moved(alloc: Global, unit: &Unit, children: &[u32]) -> Result<Step, CheckFault>
    requires ready { IsReady unit.now }
    requires children { All (λ i. i < length unit.now.nodes.items) children.now }
    ensures firm { (automatic : ℕ → Bool) →
        IfOk result (λ step. is_firm_by automatic unit.now step ≡ first_moved automatic (cores_at unit.now children.now)) }
    ensures down { (n : ℕ) → All (λ c. c < n) children.now → IfOk result (IsDown n) }
{
    if children.is_empty() {
        return Ok(Step::Ends(Base::Loose));
    }
    if are_numbers(alloc, unit, &children[1..])? {
        Ok(Step::Pointer(children[0]))
    } else {
        Ok(Step::Ends(Base::Loose))
    }
}

// One step down from a place.
fn place_step(node: &Node) -> Step
    ensures firm { (automatic : ℕ → Bool) (u : UnitSpec) (place : Place) (t : Ctype) →
        is_firm_by automatic u result ≡ is_fixed_place automatic (Of node.now.kind place t (cores_at u node.now.children)) }
    ensures down { (n : ℕ) → All (λ c. c < n) node.now.children → IsDown n result }
{
    match &node.kind {
        NodeKind::Text(_) | NodeKind::FunctionName(_) => Step::Ends(Base::Firm),
        NodeKind::Named(entity) | NodeKind::Literal(entity) => Step::Ends(Base::Entity(*entity)),
        NodeKind::Member(_) => to_place(node.children.as_slice()),
        NodeKind::Deref => to_pointer(node.children.as_slice()),
        _ => Step::Ends(Base::Loose),
    }
}

// One step down from a pointer.
fn pointer_step(alloc: Global, unit: &Unit, node: &Node) -> Result<Step, CheckFault>
    requires ready { IsReady unit.now }
    requires ty { node.now.ty.0 < length unit.now.types.terms }
    requires children { All (λ i. i < length unit.now.nodes.items) node.now.children }
    ensures firm { (automatic : ℕ → Bool) (place : Place) →
        let c = Of node.now.kind place (type_of unit.now.types node.now.ty.0) (cores_at unit.now node.now.children) in
        IfOk result (λ step. is_firm_by automatic unit.now step ≡ is_fixed_pointer automatic c) }
    ensures down { (n : ℕ) → All (λ c. c < n) node.now.children → IfOk result (IsDown n) }
{
    match &node.kind {
        NodeKind::NullValue => Ok(Step::Ends(Base::Firm)),
        NodeKind::AddressOf | NodeKind::Decay => Ok(to_place(node.children.as_slice())),
        NodeKind::Upcast | NodeKind::Convert => {
            if is_pointer(&unit.types, node.ty) {
                Ok(to_pointer(node.children.as_slice()))
            } else {
                Ok(Step::Ends(Base::Loose))
            }
        }
        NodeKind::PointerAdd { .. } => to_moved(alloc, unit, node.children.as_slice()),
        _ => Ok(Step::Ends(Base::Loose)),
    }
}

// One step down from a node.
fn step_down(alloc: Global, unit: &Unit, pointer: bool, node: u32) -> Result<Step, CheckFault>
    requires ready { IsReady unit.now }
    requires node { node < length unit.now.nodes.items }
    ensures firm { (automatic : ℕ → Bool) →
        IfOk result (λ step. is_firm_by automatic unit.now step ≡ is_fixed_as automatic unit.now pointer node) }
    ensures down { IfOk result (IsDown node) }
{
    let there = &unit.nodes[node as usize];
    if pointer {
        pointer_step(alloc, unit, there)
    } else {
        Ok(place_step(there))
    }
}

/// What a pointer rests on. Only memory may want.
pub(crate) fn base_of(alloc: Global, unit: &Unit, node: u32) -> Result<Base, CheckFault>
    requires ready { IsReady unit.now }
    requires node { node < length unit.now.nodes.items }
    ensures { (automatic : ℕ → Bool) →
        IfOk result (λ base. is_firm automatic base ≡ is_fixed_pointer automatic (core_at unit.now node)) }
{
    let mut here = node;
    let mut pointer = true;
    'down: loop {
        match step_down(alloc, unit, pointer, here)? {
            Step::Ends(base) => return Ok(base),
            Step::Place(next) => {
                here = next;
                pointer = false;
            }
            Step::Pointer(next) => {
                here = next;
                pointer = true;
            }
        }
    }
}
