//! The number of each entity in the program: declarations of one external name are one, and every other entity is one of
//! its own (C11 6.2.2).

ghost use Rattle.std.specs.Prelude.{◌≡◌, ◌++◌, IfOk, OnOk, map};
ghost use Rattle.unit_link.specs.link_program.Rows.{all_entities, label_of, entity_in, AreEntityNumbers, OneNumber, OnlyNumbers};

use crate::link_program::counts::entity_counts;
use crate::link_program::labels::leaders_alike;
use core_tree::{Entity, Unit};
use link_model::link_types::leaders::numbered;
use link_model::link_types::starts::starts;
use link_names::declared::is_external;
use pta_base::{OutOfMemory, Text};
use std::alloc::Global;

/// Where each unit's entities start among those of all units, in order; there the first one that is the same, and the
/// number that they have in the program, which has so many.
#[derive(Drop)]
pub struct EntityNumbers {
    pub starts: Vec<u32>,
    pub leaders: Vec<u32>,
    pub numbers: Vec<u32>,
    pub count: u32,
}

// The name of a declaration of an external name.
fn label_of(alloc: Global, entity: &Entity) -> Result<Option<Text>, OutOfMemory>
    ensures { IfOk result (λ label. label ≡ label_of entity.now) }
{
    if is_external(entity) {
        let name = Text::copy_of(alloc, entity.name.as_str())?;
        Ok(Some(name))
    } else {
        Ok(None)
    }
}

// The labels of a unit's entities behind those that are there.
fn add_labels(
    alloc: Global,
    list: &mut Vec<Option<Text>>,
    entities: &[Entity],
) -> Result<(), OutOfMemory>
    ensures { OnOk result (list.new.items ≡ list.old.items ++ map label_of entities.now) }
{
    for entity in entities {
        let label = label_of(alloc, entity)?;
        list.push(label)?;
    }
    Ok(())
}

// The labels of all entities in order.
fn all_labels(alloc: Global, units: &[Unit]) -> Result<Vec<Option<Text>>, OutOfMemory>
    ensures { IfOk result (λ list. list.items ≡ map label_of (all_entities units.now)) }
{
    let mut list = Vec::new(alloc);
    for unit in units {
        add_labels(alloc, &mut list, unit.entities.as_slice())?;
    }
    Ok(list)
}

/// The number of each entity in the program.
pub fn entity_numbers(alloc: Global, units: &[Unit]) -> Result<EntityNumbers, OutOfMemory>
    ensures are { IfOk result (AreEntityNumbers units.now) }
    ensures one { IfOk result (λ n. OneNumber units.now (entity_in n.starts.items n.numbers.items)) }
    ensures only { IfOk result (λ n. OnlyNumbers units.now (entity_in n.starts.items n.numbers.items) n.count) }
{
    let counts = entity_counts(alloc, units)?;
    let starts = starts(alloc, counts.as_slice())?;
    let labels = all_labels(alloc, units)?;
    if labels.len() > u32::MAX as usize {
        return Err(OutOfMemory);
    }
    let leaders = leaders_alike(alloc, labels.as_slice())?;
    let (numbers, count) = numbered(alloc, leaders.as_slice())?;
    Ok(EntityNumbers {
        starts,
        leaders,
        numbers,
        count,
    })
}
