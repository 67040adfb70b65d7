// The parts of the way to a constant's value that call no further evaluation.

ghost use Rattle.std.specs.Prelude.{◌≡◌, ℕ, ◌+◌, ◌<◌, ◌≤◌, None, IsNone, IfSome, IfOk, Ok, not, ◌&&◌, if◌then◌else◌, length, slice_get};
ghost use Rattle.c_types.specs.Table.{type_of};
ghost use Rattle.core_tree.specs.declared.node.NodeKind.TheVariants.{Arith, Choose, Convert};
ghost use Rattle.core_tree.specs.Typed.{Holds, IsInteger};
ghost use Rattle.c_consts.specs.Core.{InOrder};
ghost use Rattle.c_consts.specs.Wrapped.{converted};
ghost use Rattle.c_consts.specs.Operators.{Gives};
ghost use Rattle.c_consts.specs.Answer.{unary_in, binary_in, is_zero};
ghost use Rattle.c_consts.specs.Nodes.{AreRowsUnder};
ghost use Rattle.c_consts.specs.Spine.{first_operand, head_of, Leads, HeldAt, last_in, asked_at, StartsWith, IsAnswer};
ghost use Rattle.c_consts.specs.Spine.{IsRest, OperandIn, OperandsIn, HasOne, HasTwo, HasThree, IsOfKind};

use crate::fault::ConstFault;
use crate::numbers::{Numbers, converted};
use crate::operators::{binary, unary};
use c_types::table::TypeTable;
use c_types::term::{Term, TypeId};
use core_tree::node::{Node, NodeKind, Op};
use core_tree::rows::is_integer;

// The first operand of a node, where it has a constant's form.
pub(crate) fn first_operand(types: &TypeTable, nodes: &[Node], node: u32) -> Option<u32>
    requires order { InOrder types.now nodes.now }
    requires node { node < length nodes.now }
    ensures { result ≡ first_operand types.now nodes.now node }
{
    let there = &nodes[node as usize];
    match &there.kind {
        NodeKind::Arith(_) | NodeKind::Choose | NodeKind::Convert => {
            if is_integer(types, there.ty) {
                head(there.children.as_slice())
            } else {
                None
            }
        }
        _ => None,
    }
}

// The first of some numbers.
fn head(list: &[u32]) -> Option<u32>
    ensures { result ≡ head_of list.now }
{
    match list {
        [first, ..] => Some(*first),
        _ => None,
    }
}

// How many first operands down the last one of them is, and its number.
pub(crate) fn spine(types: &TypeTable, nodes: &[Node], node: u32) -> (u32, u32)
    requires order { InOrder types.now nodes.now }
    requires node { node < length nodes.now }
    ensures leads { Leads types.now nodes.now node result.0 result.1 }
    ensures last { first_operand types.now nodes.now result.1 ≡ None }
    ensures range { result.0 + result.1 ≤ node }
{
    let mut depth = 0;
    let mut at = node;
    while let Some(next) = first_operand(types, nodes, at) {
        depth += 1;
        at = next;
    }
    (depth, at)
}

// The node so many first operands down.
pub(crate) fn descend(types: &TypeTable, nodes: &[Node], node: u32, depth: u32) -> u32
    requires order { InOrder types.now nodes.now }
    requires node { node < length nodes.now }
    requires leads { (j : ℕ) × Leads types.now nodes.now node depth j }
    ensures { Leads types.now nodes.now node depth result }
{
    let mut at = node;
    for _step in 0..depth {
        match first_operand(types, nodes, at) {
            Some(next) => at = next,
            None => return at,
        }
    }
    at
}

// An operator with one operand, of that type; 0 where the form alone is asked for.
fn operate_one(
    types: &TypeTable,
    ty: TypeId,
    at: u32,
    op: Op,
    x: i128,
    live: bool,
) -> Result<i128, ConstFault>
    requires ty { ty.0 < length types.now.terms }
    requires integer { IsInteger (type_of types.now ty.0) }
    requires operand { OperandIn op (type_of types.now ty.0) x }
    ensures value { result ≡ asked_at live at (unary_in op (type_of types.now ty.0) x) }
    ensures holds { IfOk result (λ v. Holds (type_of types.now ty.0) v) }
{
    if !live {
        return Ok(0);
    }
    match types.term(ty) {
        Term::Integer { size, signed, .. } => unary(Numbers::of(*size, *signed), at, op, x),
        _ => Err(ConstFault::NotConstant(at)),
    }
}

// An operator with two operands, of that type; 0 where the form alone is asked for.
fn operate_two(
    types: &TypeTable,
    ty: TypeId,
    at: u32,
    op: Op,
    x: i128,
    y: i128,
    live: bool,
) -> Result<i128, ConstFault>
    requires ty { ty.0 < length types.now.terms }
    requires integer { IsInteger (type_of types.now ty.0) }
    requires operands { OperandsIn op (type_of types.now ty.0) x y }
    ensures value { result ≡ asked_at live at (binary_in op (type_of types.now ty.0) x y) }
    ensures holds { IfOk result (λ v. Holds (type_of types.now ty.0) v) }
{
    if !live {
        return Ok(0);
    }
    match types.term(ty) {
        Term::Integer { size, signed, .. } => binary(Numbers::of(*size, *signed), at, op, x, y),
        _ => Err(ConstFault::NotConstant(at)),
    }
}

// A conversion to that type; 0 where the form alone is asked for.
fn convert_to(types: &TypeTable, ty: TypeId, x: i128, live: bool) -> i128
    requires ty { ty.0 < length types.now.terms }
    requires integer { IsInteger (type_of types.now ty.0) }
    ensures value { Ok result ≡ asked_at live 0 (Gives (converted (type_of types.now ty.0) x)) }
    ensures holds { Holds (type_of types.now ty.0) result }
{
    if live {
        converted(x, types.term(ty))
    } else {
        0
    }
}

// The last node of a spine: a number, or none of a constant's form.
pub(crate) fn last_of(nodes: &[Node], node: u32) -> Result<i128, ConstFault>
    requires { node < length nodes.now }
    ensures { result ≡ last_in node (slice_get nodes.now node) }
{
    match &nodes[node as usize].kind {
        NodeKind::Number(value) => Ok(value.get()),
        _ => Err(ConstFault::NotConstant(node)),
    }
}

// The operand of an operator behind the first one, if there is one.
pub(crate) fn other_operand(types: &TypeTable, nodes: &[Node], node: u32, op: Op) -> Option<u32>
    requires rows { AreRowsUnder types.now nodes.now node }
    requires node { node < length nodes.now }
    requires kind { IsOfKind nodes.now node (Arith op) }
    ensures one { IsNone result → HasOne nodes.now node }
    ensures two { IfSome result (λ b. HasTwo nodes.now node b) }
{
    let children = nodes[node as usize].children.as_slice();
    if children.len() == 2 {
        Some(children[1])
    } else {
        None
    }
}

// The branches of a choice.
pub(crate) fn branches(types: &TypeTable, nodes: &[Node], node: u32) -> (u32, u32)
    requires rows { AreRowsUnder types.now nodes.now node }
    requires node { node < length nodes.now }
    requires kind { IsOfKind nodes.now node Choose }
    ensures { HasThree nodes.now node result.0 result.1 }
{
    let children = nodes[node as usize].children.as_slice();
    let first = children[1];
    let second = children[2];
    (first, second)
}

// Whether the first and the second branch of a choice are evaluated, by the condition.
pub(crate) fn taken(condition: i128, live: bool) -> (bool, bool)
    ensures first { result.0 ≡ (live && not (is_zero condition)) }
    ensures second { result.1 ≡ (live && is_zero condition) }
{
    (live && condition != 0, live && condition == 0)
}

// The value of a choice, by the condition and the values of its branches.
pub(crate) fn chosen(condition: i128, first: i128, second: i128) -> i128
    ensures { result ≡ (if is_zero condition then second else first) }
{
    if condition == 0 { second } else { first }
}

// An operator with one operand.
pub(crate) fn finish_one(
    types: &TypeTable,
    nodes: &[Node],
    node: u32,
    op: Op,
    start: i128,
    live: bool,
) -> Result<i128, ConstFault>
    requires rows { AreRowsUnder types.now nodes.now node }
    requires node { node < length nodes.now }
    requires start { StartsWith types.now nodes.now node start }
    requires kind { IsOfKind nodes.now node (Arith op) }
    requires one { HasOne nodes.now node }
    ensures value { IsRest types.now nodes.now node live start result }
    ensures holds { IfOk result (λ v. HeldAt types.now nodes.now node v) }
{
    operate_one(types, nodes[node as usize].ty, node, op, start, live)
}

// An operator with two operands, by the value of the second one, the operand `other`.
pub(crate) fn finish_two(
    types: &TypeTable,
    nodes: &[Node],
    node: u32,
    op: Op,
    start: i128,
    other: u32,
    second: i128,
    live: bool,
) -> Result<i128, ConstFault>
    requires rows { AreRowsUnder types.now nodes.now node }
    requires node { node < length nodes.now }
    requires start { StartsWith types.now nodes.now node start }
    requires kind { IsOfKind nodes.now node (Arith op) }
    requires two { HasTwo nodes.now node other }
    requires second { IsAnswer types.now nodes.now other live (Ok second) }
    requires held { HeldAt types.now nodes.now other second }
    ensures value { IsRest types.now nodes.now node live start result }
    ensures holds { IfOk result (λ v. HeldAt types.now nodes.now node v) }
{
    operate_two(
        types,
        nodes[node as usize].ty,
        node,
        op,
        start,
        second,
        live,
    )
}

// A conversion.
pub(crate) fn finish_conversion(
    types: &TypeTable,
    nodes: &[Node],
    node: u32,
    start: i128,
    live: bool,
) -> i128
    requires rows { AreRowsUnder types.now nodes.now node }
    requires node { node < length nodes.now }
    requires start { StartsWith types.now nodes.now node start }
    requires kind { IsOfKind nodes.now node Convert }
    ensures value { IsRest types.now nodes.now node live start (Ok result) }
    ensures holds { HeldAt types.now nodes.now node result }
{
    convert_to(types, nodes[node as usize].ty, start, live)
}
