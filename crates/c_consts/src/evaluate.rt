// The value of an integer constant expression.

ghost use Rattle.std.specs.Prelude.{◌≡◌, ◌<◌, IfOk, length};
ghost use Rattle.core_tree.specs.declared.node.NodeKind.TheVariants.{Arith, Choose};
ghost use Rattle.core_tree.specs.Typed.{Holds, type_at};
ghost use Rattle.c_consts.specs.Core.{Core, InOrder, Stands};
ghost use Rattle.c_consts.specs.Answer.{located, constant_of};
ghost use Rattle.c_consts.specs.Nodes.{AreRowsUnder, RowsUnder, bare};
ghost use Rattle.c_consts.specs.Spine.{HeldAt, StartsWith, StartsBelow, IsAnswer, IsRest, IsClimbed, IsOfKind};

use crate::fault::ConstFault;
use crate::steps::{
    branches, chosen, descend, finish_conversion, finish_one, finish_two, last_of, other_operand,
    spine, taken,
};
use c_types::table::TypeTable;
use core_tree::node::{Node, NodeKind, Op};

// What is found at a node, asked for its value or for its form alone. Long sums are deep on their left alone, so the way
// down the first operands is no recursion.
#[cycle(evaluate)]
fn evaluate(types: &TypeTable, nodes: &[Node], node: u32, live: bool) -> Result<i128, ConstFault>
    requires rows { AreRowsUnder types.now nodes.now node }
    requires node { node < length nodes.now }
    ensures value { IsAnswer types.now nodes.now node live result }
    ensures holds { IfOk result (λ v. HeldAt types.now nodes.now node v) }
{
    let (depth, last) = spine(types, nodes, node);
    let start = last_of(nodes, last)?;
    climb(types, nodes, node, depth, start, live)
}

// The same from the value of the node so many first operands down. The lower half goes first, so the recursion is as
// deep as the logarithm of the way.
#[cycle(evaluate)]
fn climb(
    types: &TypeTable,
    nodes: &[Node],
    node: u32,
    depth: u32,
    start: i128,
    live: bool,
) -> Result<i128, ConstFault>
    requires rows { AreRowsUnder types.now nodes.now node }
    requires node { node < length nodes.now }
    requires start { StartsBelow types.now nodes.now node depth start }
    ensures value { IsClimbed types.now nodes.now node depth live start result }
    ensures holds { IfOk result (λ v. HeldAt types.now nodes.now node v) }
{
    if depth == 0 {
        return Ok(start);
    }
    if depth == 1 {
        return finish(types, nodes, node, start, live);
    }
    let half = depth / 2;
    let middle = descend(types, nodes, node, half);
    let value = climb(types, nodes, middle, depth - half, start, live)?;
    climb(types, nodes, node, half, value, live)
}

// The same from the value of the first operand.
#[cycle(evaluate)]
fn finish(
    types: &TypeTable,
    nodes: &[Node],
    node: u32,
    start: i128,
    live: bool,
) -> Result<i128, ConstFault>
    requires rows { AreRowsUnder types.now nodes.now node }
    requires node { node < length nodes.now }
    requires start { StartsWith types.now nodes.now node start }
    ensures value { IsRest types.now nodes.now node live start result }
    ensures holds { IfOk result (λ v. HeldAt types.now nodes.now node v) }
{
    match &nodes[node as usize].kind {
        NodeKind::Arith(op) => finish_operator(types, nodes, node, *op, start, live),
        NodeKind::Choose => finish_choice(types, nodes, node, start, live),
        NodeKind::Convert => Ok(finish_conversion(types, nodes, node, start, live)),
        _ => Err(ConstFault::NotConstant(node)),
    }
}

// The same of an operator.
#[cycle(evaluate)]
fn finish_operator(
    types: &TypeTable,
    nodes: &[Node],
    node: u32,
    op: Op,
    start: i128,
    live: bool,
) -> Result<i128, ConstFault>
    requires rows { AreRowsUnder types.now nodes.now node }
    requires node { node < length nodes.now }
    requires start { StartsWith types.now nodes.now node start }
    requires kind { IsOfKind nodes.now node (Arith op) }
    ensures value { IsRest types.now nodes.now node live start result }
    ensures holds { IfOk result (λ v. HeldAt types.now nodes.now node v) }
{
    match other_operand(types, nodes, node, op) {
        None => finish_one(types, nodes, node, op, start, live),
        Some(other) => {
            let second = evaluate(types, nodes, other, live)?;
            finish_two(types, nodes, node, op, start, other, second, live)
        }
    }
}

// The same of a choice: the branch that isn't taken is looked at for its form alone.
#[cycle(evaluate)]
fn finish_choice(
    types: &TypeTable,
    nodes: &[Node],
    node: u32,
    start: i128,
    live: bool,
) -> Result<i128, ConstFault>
    requires rows { AreRowsUnder types.now nodes.now node }
    requires node { node < length nodes.now }
    requires start { StartsWith types.now nodes.now node start }
    requires kind { IsOfKind nodes.now node Choose }
    ensures value { IsRest types.now nodes.now node live start result }
    ensures holds { IfOk result (λ v. HeldAt types.now nodes.now node v) }
{
    let (first, second) = branches(types, nodes, node);
    let (first_live, second_live) = taken(start, live);
    let one = evaluate(types, nodes, first, first_live)?;
    let other = evaluate(types, nodes, second, second_live)?;
    Ok(chosen(start, one, other))
}

/// The value of an integer constant expression (C11 6.6) of core nodes, computed in the types of its nodes. Each node is
/// over nodes of smaller numbers, and the expression's own, those under `node`, stand in the rows of their kinds.
///
/// Operands are looked at in order, and then the node itself; the first fault decides. Numbers, and operators, choices
/// and conversions of integer type, have a constant's form, and any other node is `NotConstant`. The branch of a choice
/// that isn't taken need have that form alone: `Range` and `DivideByZero` come from operands that are evaluated.
/// `Range` is a signed result that its type doesn't hold (6.5p5), or a count of bits that isn't from 0 to the width less
/// one (6.5.7p3). Unsigned results wrap (6.2.5p9), a shift to the right keeps the sign, and a negative number shifted to
/// the left is its product with the power of two.
pub fn constant(types: &TypeTable, nodes: &[Node], node: u32) -> Result<i128, ConstFault>
    requires order { InOrder types.now nodes.now }
    requires rows { RowsUnder types.now nodes.now node }
    requires node { node < length nodes.now }
    ensures value { (c : Core) → Stands types.now nodes.now node c → result ≡ located nodes.now node (constant_of c) }
    ensures tree { (c : Core) × Stands types.now nodes.now node c }
    ensures holds { IfOk result (λ v. Holds (type_at (bare types.now nodes.now) node) v) }
{
    evaluate(types, nodes, node, true)
}
