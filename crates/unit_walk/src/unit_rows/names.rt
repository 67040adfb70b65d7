// What type specifiers name.
ghost use Rattle.std.specs.Prelude.{◌≡◌, ◌<◌, ℕ, List, IfOk, IfSome, All, length, get_or, Option};
ghost use Rattle.core_tree.specs.declared.node.Unit.{Unit as UnitSpec};
ghost use Rattle.c_senses.specs.Entities as entities;
ghost use Rattle.c_senses.specs.Specifiers as spec;
ghost use Rattle.c_senses.specs.World.{World};
ghost use Rattle.c_senses.specs.Sense.{sense_in};
ghost use Rattle.core_nodes.specs.Standing.{IsReady, Builds};
ghost use Rattle.c_results.specs.Standing.{senses_made, IsWithin, Rowed};
ghost use Rattle.tree_reads.specs.Sources.{source_in};
ghost use Rattle.c_declarators.specs.Named.{IsNamed, IsNamedWithin};
ghost use Rattle.c_meanings.specs.Known.{AreNames, ArePaired};
ghost use Rattle.c_meanings.specs.Linkages.{AreLinkages};
ghost use Rattle.c_meanings.specs.Meanings.{meaning_seen, IsMeaningWithin};

use c_declarators::{NamedType, type_row};
use c_meanings::{Linkages, Meaning, Names, meaning_at};
use c_results::{Made, Results};
use core_nodes::CheckFault;
use core_tree::node::Unit;
use std::alloc::Global;
use tree_reads::Syntax;

// The type that a meaning is, if it is one.
fn type_meant(meaning: Option<Meaning>) -> NamedType
    ensures named { (u : UnitSpec) → IsNamed u result (meaning_seen u meaning) }
    ensures within { (u : UnitSpec) → IsMeaningWithin u meaning → IsNamedWithin u result }
{
    match meaning {
        None => NamedType::Undeclared,
        Some(Meaning::TypeName(ty)) => NamedType::Named(ty),
        Some(Meaning::Object { .. }) => NamedType::NoType,
        Some(Meaning::Function { .. }) => NamedType::NoType,
        Some(Meaning::Value(_)) => NamedType::NoType,
    }
}

/// The row of a type specifier (C11 6.7.2, 6.7.8), by what its leaf means where it is a name.
pub(in crate::unit_rows) fn type_specifier(
    alloc: Global,
    unit: &mut Unit,
    syntax: &Syntax,
    names: &Names,
    results: &Results,
    linkages: &mut Linkages,
    at: u32,
    children: &[u32],
) -> Result<Made, CheckFault>
    requires ready { IsReady unit.old }
    requires results { All (IsWithin unit.old) results.now }
    requires names { AreNames syntax.now unit.old results.now names.now }
    requires linkages { AreLinkages syntax.now results.now names.now linkages.old }
    ensures linkages { AreLinkages syntax.now results.now names.now linkages.new }
    ensures ready { IsReady unit.new }
    ensures builds { Builds unit.old unit.new }
    ensures within { IfOk result (IsWithin unit.new) }
    ensures row { (w : World) (uses : List (ℕ × ℕ)) →
        let s = source_in syntax.now uses in
        let sense = sense_in (senses_made unit.old results.now) in
        ArePaired names.now uses →
        ((leaf : ℕ) → w.meaning leaf ≡ entities.meaning_at s sense leaf) →
        Rowed unit.new result (spec.type_row w s sense at children.now) }
{
    if children.is_empty() {
        return Err(CheckFault::BadOperand(at));
    }
    let meaning = meaning_at(alloc, unit, syntax, names, results, linkages, children[0])?;
    type_row(
        alloc,
        unit,
        syntax,
        results,
        at,
        children,
        type_meant(meaning),
    )
}
