// The row of a node among statements, by its production.
ghost use Rattle.std.specs.Prelude.{◌≡◌, ◌<◌, ℕ, List, length, All, IfOk};
ghost use Rattle.c_senses.specs.Tree.{production_at, children_at};
ghost use Rattle.c_senses.specs.World.{World};
ghost use Rattle.c_senses.specs.Rows.{declaring_row};
ghost use Rattle.c_senses.specs.Sense.{sense_in};
ghost use Rattle.c_senses.specs.Statements as spec;
ghost use Rattle.parsed_tree_laws.specs.sense_laws.Senses.{ChildrenFirst};
ghost use Rattle.core_nodes.specs.Standing.{IsReady, Builds, Knows};
ghost use Rattle.c_results.specs.Standing.{senses_made, IsWithin, Rowed};
ghost use Rattle.c_conversions.specs.constant_values.Constants.{HasConstants};
ghost use Rattle.tree_reads.specs.Sources.{source_read, source_in};
ghost use Rattle.statement_rows.specs.Kinds.{AreKinds};
ghost use Rattle.statement_rows.specs.Told.{IsTold, IsStatementPart};

use crate::declarations::{declaration_row, rest_row};
use crate::kinds::NameKinds;
use crate::objects::objects_in;
use crate::statements::{Told, made_of, statement_row};
use c_grammar::productions::{BLOCK, DECLARATION, REST};
use c_results::{Made, Results};
use core_nodes::CheckFault;
use core_tree::node::Unit;
use std::alloc::Global;
use tree_reads::{Syntax, children_of, production_of};

/// The row of a block (C11 6.8.2): it lists the automatic objects of its own declarations, and stands over the statements and the
/// initialisers in it, in order. Only memory may want.
pub fn block_row(
    alloc: Global,
    unit: &mut Unit,
    syntax: &Syntax,
    results: &Results,
    kinds: &NameKinds,
    at: u32,
    children: &[u32],
) -> Result<Made, CheckFault>
    requires ready { IsReady unit.old }
    requires results { All (IsWithin unit.old) results.now }
    requires kinds { AreKinds (source_read syntax.now) kinds.now }
    requires ordered { ChildrenFirst (source_read syntax.now) }
    ensures ready { IsReady unit.new }
    ensures builds { Builds unit.old unit.new }
    ensures within { IfOk result (IsWithin unit.new) }
    ensures row { (w : World) (uses : List (ℕ × ℕ)) →
        let s = source_in syntax.now uses in
        let sense = sense_in (senses_made unit.old results.now) in
        Rowed unit.new result (spec.block_row w s sense at children.now) }
{
    let objects = objects_in(alloc, syntax, results, kinds, children)?;
    made_of(c_statements::block_row(alloc, unit, syntax, results, objects, at, children))
}

/// The row of a node that is a statement, a block, a declaration or the rest of one (C11 6.7, 6.8), by its production. Each is
/// refused as its own row is.
pub fn row(
    alloc: Global,
    unit: &mut Unit,
    syntax: &Syntax,
    results: &Results,
    told: &Told,
    at: u32,
) -> Result<Made, CheckFault>
    requires ready { IsReady unit.old }
    requires results { All (IsWithin unit.old) results.now }
    requires rows { All (HasConstants unit.old) results.now }
    requires kinds { AreKinds (source_read syntax.now) told.now.kinds.now }
    requires ordered { ChildrenFirst (source_read syntax.now) }
    requires at { at < length syntax.now.tree.now.nodes.items }
    requires part { IsStatementPart (production_at (source_read syntax.now) at) }
    ensures ready { IsReady unit.new }
    ensures builds { Builds unit.old unit.new }
    ensures within { IfOk result (IsWithin unit.new) }
    ensures row { (w : World) (uses : List (ℕ × ℕ)) →
        Knows w unit.old →
        let s = source_in syntax.now uses in
        let sense = sense_in (senses_made unit.old results.now) in
        IsTold w s sense at told.now.choices.now →
        Rowed unit.new result (declaring_row w s sense (production_at s at) at (children_at s at)) }
{
    let production = production_of(syntax, at);
    let children = children_of(syntax, at);
    if production == REST {
        return rest_row(alloc, syntax, results, told.kinds, at);
    }
    if production == DECLARATION {
        return declaration_row(alloc, results, children);
    }
    if production == BLOCK {
        return block_row(alloc, unit, syntax, results, told.kinds, at, children);
    }
    statement_row(alloc, unit, syntax, results, told, at, children)
}
