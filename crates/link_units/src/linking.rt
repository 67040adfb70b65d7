//! Linking units (C11 5.1.1.2).

ghost use Rattle.std.specs.Prelude.{◌≢◌, ◌≤◌, ℕ, List, IfOk, IfErr, MatchResult, length};
ghost use Rattle.link_names.specs.declared.fault.LinkFault.TheVariants.{NoMain, NoEntry};
ghost use Rattle.core_tree.specs.Range.{InRange};
ghost use Rattle.core_tree.specs.Typed.{trees_in};
ghost use Rattle.core_tree.specs.Valid.{ValidProgram};
ghost use Rattle.link_model.specs.filled_units.Filled.{AreFilled};
ghost use Rattle.link_model.specs.link_types.Starts.{AreSums};
ghost use Rattle.link_units.specs.Nodes.{node_counts_of};
ghost use Rattle.link_names.specs.Said.{IsFaultUnless};
ghost use Rattle.unit_link.specs.link_program.Merging.{AreMerged};
ghost use Rattle.unit_link.specs.Linked.{Linked, LinkedAt, LinksBadly, LinksBadlyAt};
ghost use Rattle.unit_link.specs.Needs.{AreLinkable};

use crate::link_whole::entries::entry_numbers;
use crate::link_whole::single::entities_of;
use crate::nodes::names_and_nodes;
use c_types::table::TypeTable;
use core_tree::{Program, Unit};
use link_merge::merge;
use link_merge::tags::tables_told;
use link_model::link_types::starts::starts;
use link_names::LinkFault;
use pta_base::{OutOfMemory, Text};
use std::alloc::Global;
use unit_link::link_program::counts::node_counts;
use unit_link::link_program::ready::ready;

// Where each unit's nodes begin in the program.
fn node_starts_of(alloc: Global, units: &[Unit]) -> Result<Vec<u32>, OutOfMemory>
    ensures { IfOk result (λ list. AreSums (node_counts_of units.now) list.items) }
{
    let counts = node_counts(alloc, units)?;
    starts(alloc, counts.as_slice())
}

// The program of units whose types stand in one table, entered at those names, or begun at `main` where there are none; or
// the first fault.
fn link_merged(
    alloc: Global,
    units: Vec<Unit>,
    merged: TypeTable,
    type_starts: &[u32],
    entries: &[Text],
) -> Result<Program, LinkFault>
    requires linkable { AreLinkable units.items }
    requires filled { AreFilled units.items }
    requires merged { AreMerged units.items type_starts.now merged }
    ensures linked { MatchResult result (LinkedAt entries.now units.items)
        (λ fault. IsFaultUnless fault (LinksBadlyAt entries.now units.items fault)) }

    // Each type, node and entity that is named is in range, and children come first.
    ensures range { IfOk result (λ p. InRange (trees_in p)) }
    ensures valid { IfOk result (λ p. ValidProgram p) }
{
    tables_told(units.as_slice());
    if units.len() > u32::MAX as usize {
        return Err(LinkFault::OutOfMemory);
    }
    let mut types = merged;
    let _old = types.type_count();
    ready(alloc, &mut types)?;
    let _now = types.type_count();
    let node_starts = node_starts_of(alloc, units.as_slice())?;
    let (entities, numbers) = entities_of(alloc, units.as_slice(), &types, type_starts, entries)?;
    let first = node_starts.as_slice();
    let (names, nodes) = names_and_nodes(alloc, units, type_starts, first, &numbers)?;
    let entered = entry_numbers(alloc, entities.as_slice(), entries)?;
    Ok(Program {
        names,
        types,
        nodes,
        entities,
        entries: entered,
    })
}

/// Links valid units of distinct names into one program: one object or function for each external name, every other one of
/// each unit, all their nodes in order, and their types in one table, in which the structures and unions that they share
/// are one. Or the first fault: of the declarations in order of unit and place (a type that doesn't agree with the earlier
/// ones or lacks a library name's shape, before a second definition), then the first use of a name that nothing defines,
/// then the want of `main` (C11 6.2.7p2, 6.9p5, 5.1.2.2.1). The units initialise only objects that they define; the program
/// of them is valid then: each node stands in its row, each node and entity where it may stand, and each object has a size.
/// It begins at `main`, and never answers `NoEntry`.
pub fn link(alloc: Global, units: Vec<Unit>) -> Result<Program, LinkFault>
    requires linkable { AreLinkable units.items }
    requires filled { AreFilled units.items }
    ensures linked { MatchResult result (Linked units.items) (λ fault. IsFaultUnless fault (LinksBadly units.items fault)) }

    // Each type, node and entity that is named is in range, and children come first.
    ensures range { IfOk result (λ p. InRange (trees_in p)) }
    ensures valid { IfOk result (λ p. ValidProgram p) }
    ensures entry { IfErr result (λ fault. (name : List ℕ) → fault ≢ NoEntry name) }
{
    let (types, type_starts) = merge(alloc, units.as_slice())?;
    let none = Vec::new(alloc);
    link_merged(alloc, units, types, type_starts.as_slice(), none.as_slice())
}

/// Links units as `link` does into a program that is entered at these names, at least one, in their order: `entries` of the
/// program are their functions. Where one of them isn't a function of external linkage that a unit defines, of integers and
/// pointers alone, not variadic, and whose result is void, an integer or a pointer, the first of these is the fault, in the
/// place of the want of `main`; it never answers `NoMain`.
pub fn link_entries(alloc: Global, units: Vec<Unit>, entries: &[Text]) -> Result<Program, LinkFault>
    requires linkable { AreLinkable units.items }
    requires filled { AreFilled units.items }
    requires some { 1 ≤ length entries.now }
    ensures linked { MatchResult result (LinkedAt entries.now units.items)
        (λ fault. IsFaultUnless fault (LinksBadlyAt entries.now units.items fault)) }

    // Each type, node and entity that is named is in range, and children come first.
    ensures range { IfOk result (λ p. InRange (trees_in p)) }
    ensures valid { IfOk result (λ p. ValidProgram p) }
    ensures main { IfErr result (λ fault. fault ≢ NoMain) }
{
    let (types, type_starts) = merge(alloc, units.as_slice())?;
    link_merged(alloc, units, types, type_starts.as_slice(), entries)
}
