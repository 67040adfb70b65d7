// Rows of structures and unions.
ghost use Rattle.std.specs.Prelude.{◌≡◌, ◌<◌, length, IfOk, All, true};
ghost use Rattle.c_grammar.specs.Productions.{p_struct};
ghost use Rattle.c_senses.specs.Tree.{is_a};
ghost use Rattle.c_senses.specs.Sense.{sense_in};
ghost use Rattle.c_senses.specs.Tags.{struct_row};
ghost use Rattle.c_senses.specs.Rows.{AreSenses};
ghost use Rattle.core_nodes.specs.Standing.{IsReady, Knows};
ghost use Rattle.c_results.specs.Standing.{senses_made, IsWithin, Rowed};
ghost use Rattle.parsed_tree_laws.specs.family_laws.Families.{Families};
ghost use Rattle.struct_rows.specs.Built.{HasTagTypes};
ghost use Rattle.unit_worlds.specs.unit_limits.Unions.{AreUnions};
ghost use Rattle.unit_worlds.specs.Growing.{Grows, completed_at};
ghost use Rattle.unit_walk.specs.unit_rows.Standing.{IsKnown, source_known, nodes_known, world_there};

use crate::unit_rows::known::Known;
use c_results::{Made, Results};
use core_nodes::CheckFault;
use core_tree::node::Unit;
use std::alloc::Global;
use struct_rows::struct_row;
use unit_worlds::unit_limits::note_behind;

/// The row of a specifier of a structure or union (C11 6.7.2.1, 6.7.2.3), behind the rows of all nodes before it.
pub(in crate::unit_rows) fn structure(
    alloc: Global,
    unit: &mut Unit,
    known: &Known,
    results: &Results,
    unions: &mut Vec<bool>,
    at: u32,
) -> Result<Made, CheckFault>
    requires known { IsKnown known.now }
    requires ready { IsReady unit.old }
    requires results { All (IsWithin unit.old) results.now }
    requires types { HasTagTypes (source_known known.now) unit.old.types }
    requires knows { Knows (world_there known.now unit.old results.now at) unit.old }
    requires unions { AreUnions unit.old.types unions.old.items }
    requires senses { AreSenses (source_known known.now) (senses_made unit.old results.now) }
    requires families { Families (source_known known.now) }
    requires long { length results.now ≡ at }
    requires inside { at < nodes_known known.now }
    requires at { is_a (source_known known.now) p_struct at ≡ true }
    ensures ready { IsReady unit.new }
    ensures within { IfOk result (IsWithin unit.new) }
    ensures grows { let sense = sense_in (senses_made unit.old results.now) in
        IfOk result (λ m. Grows unit.old unit.new (completed_at (source_known known.now) sense at)) }
    ensures unions { IfOk result (λ m. AreUnions unit.new.types unions.new.items) }
    ensures row { let sense = sense_in (senses_made unit.old results.now) in
        let w = world_there known.now unit.old results.now at in
        Rowed unit.new result (struct_row w (source_known known.now) sense at) }
{
    // (What every table keeps is told by its count.)
    let _types = unit.types.type_count();
    let syntax = &known.numbered.syntax;
    let tag = known.numbered.tags.seen_at(at);
    let made = match struct_row(alloc, unit, syntax, results, tag, at) {
        Ok(made) => made,
        Err(fault) => return Err(fault),
    };
    note_behind(unit, unions, syntax, at, &made);
    Ok(made)
}
