// Rows of specifiers and of parts of declarators.
ghost use Rattle.std.specs.Prelude.{◌≡◌, ◌<◌, ℕ, true, List, length, IfOk, All};
ghost use Rattle.c_senses.specs.Tree.{production_at};
ghost use Rattle.c_senses.specs.Entities as entities;
ghost use Rattle.c_senses.specs.World.{World};
ghost use Rattle.c_senses.specs.Sense.{sense_in};
ghost use Rattle.c_senses.specs.Rows as spec;
ghost use Rattle.c_conversions.specs.constant_values.Constants.{HasConstants};
ghost use Rattle.core_nodes.specs.Standing.{IsReady, Builds, Knows};
ghost use Rattle.c_meanings.specs.Linkages.{AreLinkages};
ghost use Rattle.c_results.specs.Standing.{senses_made, IsWithin, Rowed};
ghost use Rattle.tree_reads.specs.Sources.{source_read, source_in};
ghost use Rattle.unit_walk.specs.unit_rows.Standing.{IsKnown, AreKept, source_known, nodes_known};
ghost use Rattle.unit_walk.specs.unit_rows.Built.{is_part, is_derivation};

use crate::unit_rows::known::Known;
use crate::unit_rows::names::type_specifier;
use c_declarators::{parameter_row, specs_row, suffix_row, type_name_row};
use c_grammar::productions::{ALIGN, ASSERT, ENUM, PARAMETER, SPECS, SUFFIX, TYPE};
use c_meanings::Linkages;
use c_results::{Made, Results};
use c_tags::{align_specifier, assert_row, enum_row, enumerator_row};
use core_nodes::CheckFault;
use core_tree::node::Unit;
use std::alloc::Global;
use tree_reads::Syntax;

/// The row of an assertion, or of a part of specifiers.
pub(in crate::unit_rows) fn specifier(
    alloc: Global,
    unit: &mut Unit,
    known: &Known,
    results: &Results,
    linkages: &mut Linkages,
    production: u32,
    at: u32,
    children: &[u32],
) -> Result<Made, CheckFault>
    requires known { IsKnown known.now }
    requires linkages { AreLinkages known.now.numbered.now.syntax results.now known.now.names.now linkages.old }
    requires ready { IsReady unit.old }
    requires results { All (IsWithin unit.old) results.now }
    requires kept { AreKept (nodes_known known.now) unit.old results.now }
    requires at { at < nodes_known known.now }
    requires production { production ≡ production_at (source_known known.now) at }
    requires part { is_part production ≡ true }
    ensures linkages { AreLinkages known.now.numbered.now.syntax results.now known.now.names.now linkages.new }
    ensures ready { IsReady unit.new }
    ensures builds { Builds unit.old unit.new }
    ensures within { IfOk result (IsWithin unit.new) }
    ensures row { (w : World) →
        let s = source_known known.now in
        let sense = sense_in (senses_made unit.old results.now) in
        Knows w unit.old →
        ((leaf : ℕ) → w.meaning leaf ≡ entities.meaning_at s sense leaf) →
        Rowed unit.new result (spec.declaring_row w s sense production at children.now) }
{
    let syntax = &known.numbered.syntax;
    if production == ASSERT {
        return assert_row(unit, syntax, results, at);
    }
    if production == SPECS {
        return specs_row(alloc, unit, syntax, results, at, children);
    }
    if production == ALIGN {
        return align_specifier(unit, syntax, results, at, children);
    }
    if production == TYPE {
        let names = known.names;
        return type_specifier(alloc, unit, syntax, names, results, linkages, at, children);
    }
    if production == ENUM {
        return enum_row(unit, syntax, known.numbered.tags.seen_at(at), at);
    }
    enumerator_row(unit, syntax, results, at, children)
}

/// The row of a part of a declarator, or of a parameter or a type name.
pub(in crate::unit_rows) fn derivation(
    alloc: Global,
    unit: &mut Unit,
    syntax: &Syntax,
    results: &Results,
    production: u32,
    at: u32,
    children: &[u32],
) -> Result<Made, CheckFault>
    requires ready { IsReady unit.old }
    requires results { All (IsWithin unit.old) results.now }
    requires rows { All (HasConstants unit.old) results.now }
    requires at { at < length syntax.now.tree.now.nodes.items }
    requires part { is_derivation production ≡ true }
    ensures ready { IsReady unit.new }
    ensures builds { Builds unit.old unit.new }
    ensures within { IfOk result (IsWithin unit.new) }
    ensures row { (w : World) (uses : List (ℕ × ℕ)) →
        let sense = sense_in (senses_made unit.old results.now) in
        Rowed unit.new result (spec.declaring_row w (source_in syntax.now uses) sense production at children.now) }
{
    if production == SUFFIX {
        return suffix_row(alloc, unit, syntax, results, at, children);
    }
    if production == PARAMETER {
        return parameter_row(alloc, unit, syntax, results, at);
    }
    type_name_row(alloc, unit, syntax, results, at)
}
