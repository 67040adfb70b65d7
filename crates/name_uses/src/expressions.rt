// The row of a node of an expression, over what is looked up around it.
ghost use Rattle.std.specs.Prelude.{◌≡◌, ◌<◌, ℕ, List, All, length, IfOk};
ghost use Rattle.core_nodes.specs.Standing.{IsReady, Builds, Knows};
ghost use Rattle.c_results.specs.Standing.{sense_made, senses_made, IsWithin, Rowed};
ghost use Rattle.c_senses.specs.Tree.{production_at, children_at};
ghost use Rattle.c_senses.specs.Sense.{sense_in};
ghost use Rattle.c_senses.specs.Rows.{world_at, AreSenses};
ghost use Rattle.tree_reads.specs.Sources.{source_in};
ghost use Rattle.expression_rows.specs.whole_rows.Constants.{SenseHasRows, HaveRowsMade};
ghost use Rattle.c_meanings.specs.Known.{AreNames, ArePaired};
ghost use Rattle.c_meanings.specs.Linkages.{AreLinkages};
ghost use Rattle.name_places.specs.Named.{IsNamedIn};
ghost use Rattle.c_senses.specs.Expressions.{expression_row};
ghost use Rattle.expression_rows.specs.Built.{built_row};
ghost use Rattle.expression_rows.specs.Readable.{IsReadable};
ghost use Rattle.name_uses.specs.Built.{named_row};

use crate::alone::{again, lone_part};
use crate::around::around_of;
use c_meanings::{Linkages, Names};
use c_results::{Made, Results};
use core_nodes::CheckFault;
use core_tree::node::Unit;
use expression_rows::row;
use std::alloc::Global;
use tree_reads::Syntax;

/// The row of a node of an expression (C11 6.5.1 to 6.5.17), over what was made for the nodes before it and what the declarations
/// before it give, with what is kept of these. `BadOperand` and `Unsupported` hold the kind and the node that the row refuses with; a node
/// of another production is `BadOperand`. `NotBuilt`, at the node: an integer constant of 2^64 or more, strings with an escape of 256 or
/// more, and a name that means a number which int doesn't hold or an object that no node of the tree declares. No reading of a text takes
/// such constants and strings, and where the rows before fit no name means that.
pub fn expression(
    alloc: Global,
    unit: &mut Unit,
    syntax: &Syntax,
    names: &Names,
    results: &Results,
    linkages: &mut Linkages,
    at: u32,
) -> Result<Made, CheckFault>
    requires ready { IsReady unit.old }
    requires results { All (IsWithin unit.old) results.now }
    requires rows { HaveRowsMade unit.old results.now }
    requires named { All (IsNamedIn (length syntax.now.tree.now.nodes.items)) results.now }
    requires names { AreNames syntax.now unit.old results.now names.now }
    requires linkages { AreLinkages syntax.now results.now names.now linkages.old }
    requires at { at < length syntax.now.tree.now.nodes.items }
    ensures linkages { AreLinkages syntax.now results.now names.now linkages.new }
    ensures ready { IsReady unit.new }
    ensures builds { Builds unit.old unit.new }
    ensures within { IfOk result (IsWithin unit.new) }
    ensures rows { IfOk result (λ m. SenseHasRows (sense_made unit.new m)) }
    ensures named { IfOk result (IsNamedIn (length syntax.now.tree.now.nodes.items)) }
    ensures row { (uses : List (ℕ × ℕ)) →
        let s = source_in syntax.now uses in
        let senses = senses_made unit.old results.now in
        ArePaired names.now uses →
        Knows (world_at s senses at) unit.old →
        Rowed unit.new result
        (named_row (world_at s senses at) s (sense_in senses) (production_at s at) at (children_at s at)) }
    ensures built { (uses : List (ℕ × ℕ)) →
        let s = source_in syntax.now uses in
        let senses = senses_made unit.old results.now in
        ArePaired names.now uses →
        AreSenses s senses →
        Knows (world_at s senses at) unit.old →
        Rowed unit.new result
        (built_row (world_at s senses at) s (sense_in senses) (production_at s at) at (children_at s at)) }
    ensures whole { (uses : List (ℕ × ℕ)) →
        let s = source_in syntax.now uses in
        let senses = senses_made unit.old results.now in
        ArePaired names.now uses →
        AreSenses s senses →
        IsReadable s at →
        Knows (world_at s senses at) unit.old →
        Rowed unit.new result
        (expression_row (world_at s senses at) s (sense_in senses) (production_at s at) at (children_at s at)) }
{
    if let Some(part) = lone_part(syntax, at) {
        return again(alloc, results, part);
    }
    match around_of(alloc, unit, syntax, names, results, linkages, at) {
        Ok(around) => row(alloc, unit, syntax, results, &around, at),
        Err(fault) => Err(fault),
    }
}
