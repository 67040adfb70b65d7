// Numbers that are fixed before the program runs (C11 6.6p6).
ghost use Rattle.std.specs.Prelude.{◌≡◌, ◌<◌, ◌+◌, ◌++◌, ◌&&◌, length, All, IfOk, OnOk};
ghost use Rattle.c_types.specs.Table.{type_of};
ghost use Rattle.c_consts.specs.Core.{nodes_in, nodes_of};
ghost use Rattle.c_senses.specs.Initialised as spec;
ghost use Rattle.c_senses.specs.Initialised.{is_fixed_number, are_fixed_numbers};
ghost use Rattle.core_nodes.specs.Standing.{core_at, cores_at, IsReady};
ghost use Rattle.c_initials.specs.Fixed.{form_seen};

use c_types::table::TypeTable;
use c_types::term::{Term, TypeId};
use core_nodes::CheckFault;
use core_tree::node::{NodeKind, Unit};
use std::alloc::Global;

// How a node may be a fixed number: by itself, where those under it are, or not at all.
#[derive(Clone, Copy, Drop)]
enum NumberForm {
    Always,
    OfNumbers,
    Never,
}

// The form of a kind of node.
fn number_form(kind: &NodeKind) -> NumberForm
    ensures { form_seen result ≡ spec.number_form kind.now }
{
    match kind {
        NodeKind::Number(_) => NumberForm::Always,
        NodeKind::Arith(_) | NodeKind::Choose | NodeKind::Convert => NumberForm::OfNumbers,
        _ => NumberForm::Never,
    }
}

// Whether a type is one of integers.
fn is_integer(types: &TypeTable, ty: TypeId) -> bool
    requires { ty.0 < length types.now.terms }
    ensures { result ≡ spec.is_integer_type (type_of types.now ty.0) }
{
    match types.term(ty) {
        Term::Bool | Term::Integer { .. } => true,
        _ => false,
    }
}

// Puts numbers of nodes behind others.
fn push_all(stack: &mut Vec<u32>, nodes: &[u32]) -> Result<(), CheckFault>
    ensures { OnOk result (stack.new.items ≡ stack.old.items ++ nodes.now) }
{
    for node in nodes {
        stack.push(*node)?;
    }
    Ok(())
}

// Whether a node may be a fixed number; then those under it, which have to be, are put behind the others.
fn push_parts(unit: &Unit, node: u32, stack: &mut Vec<u32>) -> Result<bool, CheckFault>
    requires ready { IsReady unit.now }
    requires node { node < length unit.now.nodes.items }
    requires stack { All (λ i. i < length unit.now.nodes.items) stack.old.items }
    ensures fixed { IfOk result (λ going.
        (are_fixed_numbers (cores_at unit.now stack.old.items) && is_fixed_number (core_at unit.now node))
        ≡ (going && are_fixed_numbers (cores_at unit.now stack.new.items))) }
    ensures within { OnOk result (All (λ i. i < length unit.now.nodes.items) stack.new.items) }
    ensures fewer { OnOk result (
        nodes_of (cores_at unit.now stack.new.items) < nodes_of (cores_at unit.now stack.old.items) + nodes_in (core_at unit.now node)) }
{
    let there = &unit.nodes[node as usize];
    match number_form(&there.kind) {
        NumberForm::Always => Ok(true),
        NumberForm::OfNumbers => {
            if !is_integer(&unit.types, there.ty) {
                return Ok(false);
            }
            push_all(stack, there.children.as_slice())?;
            Ok(true)
        }
        NumberForm::Never => Ok(false),
    }
}

/// Whether nodes are numbers that are fixed before the program runs: numbers, and what operators, choices and conversions of integer
/// types make of such. Only memory may want.
pub(crate) fn are_numbers(alloc: Global, unit: &Unit, nodes: &[u32]) -> Result<bool, CheckFault>
    requires ready { IsReady unit.now }
    requires nodes { All (λ i. i < length unit.now.nodes.items) nodes.now }
    ensures { IfOk result (λ fixed. fixed ≡ are_fixed_numbers (cores_at unit.now nodes.now)) }
{
    let mut stack = Vec::from_slice(alloc, nodes)?;
    while let Some(node) = stack.pop() {
        if !push_parts(unit, node, &mut stack)? {
            return Ok(false);
        }
    }
    Ok(true)
}
