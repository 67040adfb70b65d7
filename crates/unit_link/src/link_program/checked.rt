//! The faults of linking (C11 6.2.7p2, 6.9p5, 5.1.2.2.1).

ghost use Rattle.std.specs.Prelude.{◌≡◌, ◌<◌, ◌^◌, ℕ, IfOk, MatchResult, Some, length, slice_get};
ghost use Rattle.core_tree.specs.declared.node.Unit.{Unit};
ghost use Rattle.link_names.specs.Externals.{entities_if, AreDeclarations};
ghost use Rattle.link_names.specs.Said.{IsFaultUnless};
ghost use Rattle.link_names.specs.Scene.{IsScene};
ghost use Rattle.unit_link.specs.Linked.{LinksBadlyAt};
ghost use Rattle.unit_link.specs.Needs.{AreLinkable};
ghost use Rattle.unit_link.specs.link_program.Merging.{AreMerged};
ghost use Rattle.unit_link.specs.link_program.Checked.{joined_by, AreChecked};

use crate::link_program::counts::entity_counts;
use c_types::table::TypeTable;
use core_tree::Unit;
use link_names::declared::declarations;
use link_names::{Declared, LinkFault, Names, Scene, check_names};
use pta_base::{OutOfMemory, Text};
use std::alloc::Global;

/// All declarations of external names in order, where the units and their entities can be counted.
fn declared_in(alloc: Global, units: &[Unit]) -> Result<Vec<Declared>, OutOfMemory>
    ensures many { IfOk result (λ _. length units.now < 2 ^ 32) }
    ensures small { IfOk result (λ _. (u : ℕ) → length (entities_if (slice_get units.now u)) < 2 ^ 32) }
    ensures declared { IfOk result (λ list. AreDeclarations units.now list.items) }
{
    if units.len() > u32::MAX as usize {
        return Err(OutOfMemory);
    }
    let _counts = entity_counts(alloc, units)?;
    declarations(alloc, units)
}

/// The declarations of external names in order and what they say of each name, where the units have no fault of linking.
/// Else the first fault: of the declarations in order of unit and place (a type that doesn't agree with the earlier
/// declarations or lacks a library name's shape, before a second definition), then the first use of a name that nothing
/// defines, then the want of `main`, or where entries are named of the first name that isn't one.
pub fn checked(
    alloc: Global,
    units: &[Unit],
    types: &TypeTable,
    type_starts: &[u32],
    entries: &[Text],
) -> Result<(Vec<Declared>, Names), LinkFault>
    requires units { AreLinkable units.now }
    requires merged { AreMerged units.now type_starts.now types.now }
    ensures { MatchResult result
        (λ r. AreChecked entries.now (joined_by units.now types.now type_starts.now) r.0.items r.1)
        (λ fault. IsFaultUnless fault (LinksBadlyAt entries.now units.now fault)) }
{
    let declared = declared_in(alloc, units)?;
    let _count = types.type_count();
    let scene = Scene {
        units,
        types,
        type_starts,
        declared: declared.as_slice(),
    };
    match check_names(alloc, &scene, entries) {
        Ok(names) => Ok((declared, names)),
        Err(fault) => Err(fault),
    }
}
