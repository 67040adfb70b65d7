// Nodes of an expression that stand for what their only part stands for.
ghost use Rattle.std.specs.Prelude.{◌≡◌, ℕ, List, All, IfOk, IfSome};
ghost use Rattle.core_tree.specs.declared.node.Unit.{Unit as UnitSpec};
ghost use Rattle.c_results.specs.Standing.{senses_made, IsWithin, Rowed};
ghost use Rattle.c_senses.specs.Given.{Fits};
ghost use Rattle.c_senses.specs.Sense.{sense_in};
ghost use Rattle.tree_reads.specs.Sources.{source_in};
ghost use Rattle.name_uses.specs.Alone.{PassesOn};

use c_grammar::productions::{EXPRESSION, UNARY};
use c_results::{Made, Results, node_at};
use core_nodes::CheckFault;
use expression_rows::c_rows::parts::passed_on;
use std::alloc::Global;
use tree_reads::{Syntax, children_of, is_leaf, production_of};

// The only part of a node of a level of operators that has none (C11 6.5.3 to 6.5.17).
pub(crate) fn lone_part(syntax: &Syntax, at: u32) -> Option<u32>
    ensures { (uses : List (ℕ × ℕ)) → IfSome result (PassesOn (source_in syntax.now uses) at) }
{
    let production = production_of(syntax, at);
    if production < EXPRESSION || production > UNARY {
        return None;
    }
    let children = children_of(syntax, at);
    if children.len() != 1 || is_leaf(syntax, children[0]) {
        return None;
    }
    Some(children[0])
}

// What a part stands for, once more: mostly a core node.
pub(crate) fn again(alloc: Global, results: &Results, part: u32) -> Result<Made, CheckFault>
    ensures row { (u : UnitSpec) → Rowed u result (Fits (sense_in (senses_made u results.now) part)) }
    ensures within { (u : UnitSpec) → All (IsWithin u) results.now → IfOk result (IsWithin u) }
{
    match node_at(results, part) {
        Some(node) => Ok(Made::Node(node)),
        None => passed_on(alloc, results, part),
    }
}
