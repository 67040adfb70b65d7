//! All tags of the units, in order.

ghost use Rattle.std.specs.Prelude.{◌≡◌, ◌<◌, ◌^◌, ◌+◌, IfOk, OnOk, length};
ghost use Rattle.link_model.specs.link_types.Starts.{AreSums};
ghost use Rattle.link_merge.specs.Tags.{AreMade, AreTags, AreUnions, TagsUpTo, tag_counts_of};

use core_tree::Unit;
use link_model::Item;
use link_model::link_types::labels::unions_of;
use pta_base::OutOfMemory;
use std::alloc::Global;

/// What every table of types keeps, told of each unit's table; it takes no memory.
pub fn tables_told(units: &[Unit])
    ensures { AreMade units.now }
{
    for unit in units {
        let _count = unit.types.type_count();
    }
}

// Adds the tags of a unit.
fn add_tags(
    list: &mut Vec<Item>,
    units: &[Unit],
    starts: &[u32],
    unit: u32,
) -> Result<(), OutOfMemory>
    requires starts { AreSums (tag_counts_of units.now) starts.now }
    requires unit { unit < length units.now }
    requires before { TagsUpTo units.now starts.now unit 0 list.old.items }
    ensures { OnOk result (TagsUpTo units.now starts.now (unit + 1) 0 list.new.items) }
{
    let count = units[unit as usize].types.tag_count();
    for number in 0..count {
        list.push(Item { unit, number })?;
    }
    Ok(())
}

/// All tags of the units, where the tags of unit u begin at `starts[u]`.
pub fn all_tags(alloc: Global, units: &[Unit], starts: &[u32]) -> Result<Vec<Item>, OutOfMemory>
    requires starts { AreSums (tag_counts_of units.now) starts.now }
    requires few { length units.now < 2 ^ 32 }
    ensures { IfOk result (λ list. AreTags units.now starts.now list.items) }
{
    let mut list = Vec::new(alloc);
    for unit in 0..units.len() {
        add_tags(&mut list, units, starts, unit as u32)?;
    }
    Ok(list)
}

/// For each tag of the units, whether it stands in a union.
pub fn all_unions(alloc: Global, units: &[Unit], starts: &[u32]) -> Result<Vec<bool>, OutOfMemory>
    requires starts { AreSums (tag_counts_of units.now) starts.now }
    ensures { IfOk result (λ list. AreUnions units.now starts.now list.items) }
{
    let mut list = Vec::new(alloc);
    for unit in units {
        let own = unions_of(alloc, &unit.types)?;
        list.extend_from_slice(own.as_slice())?;
    }
    Ok(list)
}
