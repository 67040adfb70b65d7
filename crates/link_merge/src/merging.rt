//! One table for the types of several units (C11 6.2.7).

ghost use Rattle.std.specs.Prelude.{◌≡◌, ◌<◌, ◌^◌, IfOk, length, map};
ghost use Rattle.core_tree.specs.declared.node.Unit.{Unit as UnitSpec};
ghost use Rattle.link_model.specs.link_types.Starts.{AreSums};
ghost use Rattle.unit_link.specs.link_program.Merging.{AreMerged};
ghost use Rattle.link_merge.specs.Classes.{AreClasses, AreCountedAs};
ghost use Rattle.link_merge.specs.Tags.{AreKept, AreMade, AreTags, tag_counts_of};

use crate::complete::complete_all;
use crate::counted::counted;
use crate::labels::label_leaders;
use crate::refine::settled;
use crate::tags::{all_tags, tables_told};
use c_types::table::TypeTable;
use core_tree::Unit;
use link_model::Item;
use link_model::link_types::starts::{starts, tag_counts, type_counts};
use pta_base::OutOfMemory;
use std::alloc::Global;

// Where each unit's types begin among those of all units.
fn type_starts_of(alloc: Global, units: &[Unit]) -> Result<Vec<u32>, OutOfMemory>
    ensures { IfOk result (λ list. AreSums (map (λ (x : UnitSpec). length x.types.terms) units.now) list.items) }
{
    let counts = type_counts(alloc, units)?;
    starts(alloc, counts.as_slice())
}

// Where each unit's tags begin among those of all units.
fn tag_starts_of(alloc: Global, units: &[Unit]) -> Result<Vec<u32>, OutOfMemory>
    ensures { IfOk result (λ list. AreSums (tag_counts_of units.now) list.items) }
{
    let counts = tag_counts(alloc, units)?;
    starts(alloc, counts.as_slice())
}

// The first tag of the label of each tag, and the place of the one whose list counts.
fn labelled(
    alloc: Global,
    units: &[Unit],
    tag_starts: &[u32],
    tags: &[Item],
) -> Result<(Vec<u32>, Vec<Option<u32>>), OutOfMemory>
    requires kept { AreKept units.now }
    requires sums { AreSums (tag_counts_of units.now) tag_starts.now }
    requires tags { AreTags units.now tag_starts.now tags.now }
    requires few { length tags.now < 2 ^ 32 }
    ensures classes { IfOk result (λ r. AreClasses units.now tag_starts.now r.0.items) }
    ensures leaders { IfOk result (λ r. length r.0.items ≡ length tags.now) }
    ensures counts { IfOk result (λ r. AreCountedAs units.now tag_starts.now r.1.items) }
    ensures many { IfOk result (λ r. length r.1.items ≡ length tags.now) }
{
    let first = label_leaders(alloc, units, tag_starts, tags)?;
    let lists = counted(alloc, units, tags, first.as_slice())?;
    Ok((first, lists))
}

// The table of all units, given where their types and tags begin, and all tags.
fn merged_in(
    alloc: Global,
    units: &[Unit],
    type_starts: &[u32],
    tag_starts: &[u32],
    tags: &[Item],
) -> Result<TypeTable, OutOfMemory>
    requires kept { AreKept units.now }
    requires made { AreMade units.now }
    requires type_sums { AreSums (map (λ (x : UnitSpec). length x.types.terms) units.now) type_starts.now }
    requires sums { AreSums (tag_counts_of units.now) tag_starts.now }
    requires tags { AreTags units.now tag_starts.now tags.now }
    requires few { length tags.now < 2 ^ 32 }
    ensures { IfOk result (AreMerged units.now type_starts.now) }
{
    let (first, counted) = labelled(alloc, units, tag_starts, tags)?;
    let lists = counted.as_slice();
    let (mut types, numbers) = settled(alloc, units, type_starts, tag_starts, tags, lists, first)?;
    let list = numbers.as_slice();
    complete_all(alloc, &mut types, units, type_starts, tag_starts, list)?;
    Ok(types)
}

/// One table for the types of all units, in which the structures and unions that are one type have one tag, and where
/// each unit's types begin there. Only memory may want.
pub fn merge(alloc: Global, units: &[Unit]) -> Result<(TypeTable, Vec<u32>), OutOfMemory>
    requires { AreKept units.now }
    ensures { IfOk result (λ r. AreMerged units.now r.1.items r.0) }
{
    if units.len() > u32::MAX as usize {
        return Err(OutOfMemory);
    }
    tables_told(units);
    let type_starts = type_starts_of(alloc, units)?;
    let tag_starts = tag_starts_of(alloc, units)?;
    let tags = all_tags(alloc, units, tag_starts.as_slice())?;
    if tags.len() > u32::MAX as usize {
        return Err(OutOfMemory);
    }
    let types = merged_in(
        alloc,
        units,
        type_starts.as_slice(),
        tag_starts.as_slice(),
        tags.as_slice(),
    )?;
    Ok((types, type_starts))
}
