//! The program that units are.

ghost use Rattle.std.specs.Prelude.{ℕ, ◌+◌, ◌<◌, ◌^◌, IfOk, List, length, MatchResult};
ghost use Rattle.core_tree.specs.Range.{InRange};
ghost use Rattle.core_tree.specs.Typed.{trees_in};
ghost use Rattle.link_model.specs.filled_units.Filled.{AreFilled};
ghost use Rattle.link_merge.specs.Tags.{AreMade};
ghost use Rattle.link_names.specs.Said.{IsFaultUnless};
ghost use Rattle.unit_link.specs.Linked.{LinkedAt, LinksBadlyAt};
ghost use Rattle.unit_link.specs.Needs.{AreLinkable};
ghost use Rattle.core_tree.specs.declared.node.Unit.{Unit as UnitSpec};
ghost use Rattle.unit_report.specs.unit_system.Faults.{IsFaultOf};

use crate::unit_system::fault::UnitFault;
use core_tree::{Program, Unit};
use link_merge::tags::tables_told;
use link_names::LinkFault;
use link_units::{link, link_entries};
use pta_base::Text;
use std::alloc::Global;

// A fault of linking as one of units.
fn fault_of(fault: LinkFault) -> UnitFault
    ensures { (entered : List (List ℕ)) (units : List UnitSpec) →
        IsFaultUnless fault (LinksBadlyAt entered units fault) → IsFaultOf entered units result }
{
    match fault {
        LinkFault::OutOfMemory => UnitFault::OutOfMemory,
        LinkFault::Conflict(..)
        | LinkFault::Twice(..)
        | LinkFault::Undefined(..)
        | LinkFault::NoMain
        | LinkFault::NoEntry(_) => UnitFault::Link(fault),
    }
}

// The program that units are: with entries of these names, or where there are none it begins at main.
fn linked_at(alloc: Global, units: Vec<Unit>, entries: &[Text]) -> Result<Program, LinkFault>
    requires linkable { AreLinkable units.items }
    requires filled { AreFilled units.items }
    ensures linked { MatchResult result (LinkedAt entries.now units.items)
        (λ fault. IsFaultUnless fault (LinksBadlyAt entries.now units.items fault)) }
    ensures range { IfOk result (λ p. InRange (trees_in p)) }
{
    if entries.is_empty() {
        link(alloc, units)
    } else {
        link_entries(alloc, units, entries)
    }
}

/// The program that units are, whose numbers are all in range, or the first fault of linking them. A table of 2^32 - 2 types or more,
/// whose signatures would be past numbers of 32 bits, is want of memory.
pub(in crate::unit_system) fn linked(
    alloc: Global,
    units: Vec<Unit>,
    entries: &[Text],
) -> Result<Program, UnitFault>
    requires linkable { AreLinkable units.items }
    requires filled { AreFilled units.items }
    ensures linked { MatchResult result (LinkedAt entries.now units.items) (IsFaultOf entries.now units.items) }
    ensures range { IfOk result (λ p. InRange (trees_in p)) }
    ensures room { IfOk result (λ p. length p.types.terms + 2 < 2 ^ 32) }
    ensures tables { AreMade units.items }
{
    tables_told(units.as_slice());
    match linked_at(alloc, units, entries) {
        Ok(program) => {
            if program.types.type_count() >= u32::MAX - 1 {
                return Err(UnitFault::OutOfMemory);
            }
            Ok(program)
        }
        Err(fault) => Err(fault_of(fault)),
    }
}
