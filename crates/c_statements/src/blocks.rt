// Blocks (C11 6.8.2).
ghost use Rattle.std.specs.Prelude.{◌≡◌, ◌<◌, ◌++◌, ℕ, List, length, All, IfOk, OnOk, IsOkUnless};
ghost use Rattle.core_tree.specs.declared.node.NodeKind.TheVariants.{Block};
ghost use Rattle.c_senses.specs.Given.{Fits};
ghost use Rattle.c_senses.specs.Tree.{place_at};
ghost use Rattle.c_senses.specs.World.{World};
ghost use Rattle.c_senses.specs.Sense.{sense_in};
ghost use Rattle.c_senses.specs.Statements as spec;
ghost use Rattle.core_nodes.specs.Standing.{IsReady, Builds, Made as CoreMade};
ghost use Rattle.c_results.specs.Standing.{senses_made, IsWithin};
ghost use Rattle.tree_reads.specs.Sources.{source_in};
ghost use Rattle.c_statements.specs.Parts.{gathered, nodes_made};

use crate::parts::void_type;
use c_results::{Made, Results};
use core_nodes::CheckFault;
use core_nodes::trees::push_node;
use core_tree::held::{Children, HeldList};
use core_tree::node::{NodeKind, Unit};
use std::alloc::Global;
use tree_reads::{Syntax, place_of};

// Adds some numbers behind others.
fn add_all(list: &mut Vec<u32>, more: &[u32]) -> Result<(), CheckFault>
    ensures added { OnOk result (list.new.items ≡ list.old.items ++ more.now) }
    ensures memory { IsOkUnless result CheckFault.OutOfMemory }
{
    for number in more {
        list.push(*number)?;
    }
    Ok(())
}

// Adds the core nodes that a part of a block brings: its own, or those that a declaration runs.
fn add_nodes(list: &mut Vec<u32>, results: &Results, part: u32) -> Result<(), CheckFault>
    ensures added { OnOk result (list.new.items ≡ list.old.items ++ nodes_made results.now part) }
    ensures memory { IsOkUnless result CheckFault.OutOfMemory }
{
    match results.get(part as usize) {
        Some(Made::Node(node)) => {
            list.push(*node)?;
            Ok(())
        }
        Some(Made::Run(nodes)) => add_all(list, nodes.as_slice()),
        _ => Ok(()),
    }
}

// The core nodes that the parts of a block bring, in order.
fn nodes_in(alloc: Global, results: &Results, children: &[u32]) -> Result<Vec<u32>, CheckFault>
    ensures nodes { IfOk result (λ list. list.items ≡ gathered (nodes_made results.now) children.now) }
    ensures memory { IsOkUnless result CheckFault.OutOfMemory }
{
    let mut list = Vec::new(alloc);
    for part in children {
        add_nodes(&mut list, results, *part)?;
    }
    Ok(list)
}

/// The row of a block (C11 6.8.2): it lists `objects`, which are to be the automatic objects of its own declarations, and stands
/// over the statements and the initialisers in it, in order. Only memory may want.
pub fn block_row(
    alloc: Global,
    unit: &mut Unit,
    syntax: &Syntax,
    results: &Results,
    objects: Vec<u32>,
    at: u32,
    children: &[u32],
) -> Result<u32, CheckFault>
    requires ready { IsReady unit.old }
    requires results { All (IsWithin unit.old) results.now }
    ensures ready { IsReady unit.new }
    ensures builds { Builds unit.old unit.new }
    ensures within { IfOk result (λ i. i < length unit.new.nodes.items) }
    ensures made { (w : World) (uses : List (ℕ × ℕ)) →
        let s = source_in syntax.now uses in
        let sense = sense_in (senses_made unit.old results.now) in
        CoreMade unit.new result
        (Fits (spec.statement (Block objects.items) (place_at s at) (spec.cores_in w s sense children.now))) }
{
    let nodes = nodes_in(alloc, results, children)?;
    let ty = match void_type(unit) {
        Ok(ty) => ty,
        Err(_) => return Err(CheckFault::OutOfMemory),
    };
    let kind = NodeKind::Block(HeldList::of(alloc, objects)?);
    let nodes = Children::of(alloc, nodes)?;
    push_node(unit, kind, place_of(syntax, at), ty, nodes)
}
