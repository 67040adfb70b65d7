// Constants among core nodes.
ghost use Rattle.std.specs.Prelude.{◌≡◌, ◌<◌, ◌^◌, ◌<ℤ◌, ◌≤ℤ◌, neg_ℤ, pos, length, slice_get, IfOk, All, ℕ, List, true};
ghost use Rattle.core_tree.specs.Typed.{ValueNode, PlaceNode};
ghost use Rattle.c_consts.specs.Core.{ctype_of, core_sort};
ghost use Rattle.c_consts.specs.Answer.{answer};
ghost use Rattle.core_nodes.specs.passed.c_senses.Constants.{valued, constant_in, leaf_of_place};
ghost use Rattle.core_nodes.specs.passed.c_senses.Sense.{IsCore, sense_in};
ghost use Rattle.core_nodes.specs.passed.c_senses.World.{World};
ghost use Rattle.core_nodes.specs.Standing.{core_at, IsReady, Knows};
ghost use Rattle.c_conversions.specs.Constants.{HasRows};
ghost use Rattle.c_results.specs.Standing.{senses_made, IsWithin};
ghost use Rattle.tree_reads.specs.Sources.{source_read, source_in};
ghost use Rattle.c_conversions.specs.constant_values.Constants.{ConstantMade, HasConstants, has_value, place_in, refused};

use crate::constant_values::places::leaf_of_place;
use c_consts::{ConstFault, constant};
use c_results::{Results, node_at};
use core_nodes::CheckFault;
use core_nodes::reads::{is_place, is_value, place_of_node, type_of_node};
use core_nodes::sorts::{decayed, is_fetched, is_list, operand_of};
use core_tree::node::{Node, Unit};
use pta_base::{Kind, Place};
use tree_reads::Syntax;

// The place of a node.
fn place_at(nodes: &[Node], node: u32) -> Place
    ensures { result ≡ place_in (slice_get nodes.now node) }
{
    match nodes.get(node as usize) {
        Some(there) => there.place,
        None => Place {
            unit: 0,
            line: 0,
            column: 0,
        },
    }
}

/// The first leaf whose token stands at the place of a core node, or `at` where none does.
pub fn leaf_of_node(syntax: &Syntax, nodes: &[Node], at: u32, node: u32) -> u32
    ensures { result ≡ leaf_of_place (source_read syntax.now) at (place_in (slice_get nodes.now node)) }
{
    leaf_of_place(syntax, at, place_at(nodes, node))
}

// The kind of a fault, at the leaf of its own node's place.
fn refused(syntax: &Syntax, nodes: &[Node], at: u32, fault: ConstFault) -> CheckFault
    ensures { result ≡ refused (source_read syntax.now) nodes.now at fault }
{
    match fault {
        ConstFault::NotConstant(wrong) => CheckFault::Unsupported(
            Kind::Constant,
            leaf_of_node(syntax, nodes, at, wrong),
        ),
        ConstFault::Range(wrong) => CheckFault::Unsupported(
            Kind::ConstantRange,
            leaf_of_node(syntax, nodes, at, wrong),
        ),
        ConstFault::DivideByZero(wrong) => CheckFault::Unsupported(
            Kind::DivideByZero,
            leaf_of_node(syntax, nodes, at, wrong),
        ),
    }
}

// The constant that a value is.
fn constant_of_value(unit: &Unit, syntax: &Syntax, at: u32, node: u32) -> Result<i128, CheckFault>
    requires ready { IsReady unit.now }
    requires node { node < length unit.now.nodes.items }
    requires rows { HasRows (core_at unit.now node) }
    ensures value { let c = core_at unit.now node in
        ConstantMade result (valued (source_read syntax.now) at c (answer c true)) }
    ensures above { IfOk result (λ n. neg_ℤ (pos (2 ^ 63)) ≤ℤ n) }
    ensures below { IfOk result (λ n. n <ℤ pos (2 ^ 64)) }
{
    let nodes = unit.nodes.as_slice();
    match constant(&unit.types, nodes, node) {
        Ok(value) => Ok(value),
        Err(fault) => Err(refused(syntax, nodes, at, fault)),
    }
}

// Whether a place has a value (C11 6.3.2.1).
fn has_value(unit: &Unit, node: u32) -> bool
    requires ready { IsReady unit.now }
    requires node { node < length unit.now.nodes.items }
    ensures { (w : World) → Knows w unit.now → result ≡ has_value w (ctype_of (core_at unit.now node)) }
{
    let ty = type_of_node(unit, node);
    match decayed(&unit.types, ty) {
        Some(_) => true,
        None => is_fetched(unit, operand_of(&unit.types, ty)) || is_list(&unit.types, ty),
    }
}

/// The value of a core node as an integer constant, for the row of syntax node `at` (C11 6.6). It is refused as `operand` at
/// `at` where the node has no value; as `constant`, `constant-range` or `divide-by-zero` at the leaf that stands at the place
/// of the first node in it that is of no constant's form, out of its type's range, or a division by 0.
pub fn constant_at(unit: &Unit, syntax: &Syntax, at: u32, node: u32) -> Result<i128, CheckFault>
    requires ready { IsReady unit.now }
    requires node { node < length unit.now.nodes.items }
    requires rows { HasRows (core_at unit.now node) }
    ensures value { (w : World) →
        Knows w unit.now →
        ConstantMade result (constant_in w (source_read syntax.now) at (IsCore (core_at unit.now node))) }
    ensures above { IfOk result (λ n. neg_ℤ (pos (2 ^ 63)) ≤ℤ n) }
    ensures below { IfOk result (λ n. n <ℤ pos (2 ^ 64)) }
{
    if is_value(unit, node) {
        return constant_of_value(unit, syntax, at, node);
    }
    if is_place(unit, node) && has_value(unit, node) {
        let leaf = leaf_of_place(syntax, at, place_of_node(unit, node));
        return Err(CheckFault::Unsupported(Kind::Constant, leaf));
    }
    Err(CheckFault::BadOperand(at))
}

/// The integer constant that has been made for a syntax node, for the row of syntax node `at` (C11 6.6). It is refused as
/// `operand` at `at` where no expression has been made for it, and else as by `constant_at`.
pub fn constant_in(
    unit: &Unit,
    syntax: &Syntax,
    results: &Results,
    at: u32,
    child: u32,
) -> Result<i128, CheckFault>
    requires ready { IsReady unit.now }
    requires results { All (IsWithin unit.now) results.now }
    requires rows { All (HasConstants unit.now) results.now }
    ensures value { (w : World) (uses : List (ℕ × ℕ)) →
        Knows w unit.now →
        ConstantMade result
        (constant_in w (source_in syntax.now uses) at (sense_in (senses_made unit.now results.now) child)) }
    ensures above { IfOk result (λ n. neg_ℤ (pos (2 ^ 63)) ≤ℤ n) }
    ensures below { IfOk result (λ n. n <ℤ pos (2 ^ 64)) }
{
    match node_at(results, child) {
        Some(node) => constant_at(unit, syntax, at, node),
        None => Err(CheckFault::BadOperand(at)),
    }
}
