//! The entries of a program, by their names.

ghost use Rattle.std.specs.Prelude.{◌≡◌, ◌<◌, ◌^◌, ◌&&◌, All, IfOk, length};
ghost use Rattle.std.specs.List.{AllZip};
ghost use Rattle.std.specs.Str.{bytes_eq};
ghost use Rattle.link_names.specs.Externals.{is_external};
ghost use Rattle.link_units.specs.link_whole.Entries.{IsEntryOf, HasEntryOf};

use core_tree::Entity;
use link_names::declared::is_external;
use pta_base::{OutOfMemory, Text};
use std::alloc::Global;

// Whether an entity is the object or function of that name.
fn is_of_name(entity: &Entity, name: &str) -> bool
    ensures { result ≡ (is_external entity.now && bytes_eq entity.now.name name.now) }
{
    is_external(entity) && entity.name.as_str() == name
}

// The number of the entity that is the object or function of that name.
fn entity_named(entities: &[Entity], name: &str) -> u32
    requires few { length entities.now < 2 ^ 32 }
    requires stands { HasEntryOf entities.now name.now }
    ensures { IsEntryOf entities.now name.now result }
{
    for (e, entity) in entities.iter().enumerate() {
        if is_of_name(entity, name) {
            return e as u32;
        }
    }
    unreachable!()
}

/// The numbers of the entities of those names, in the order of the names.
pub fn entry_numbers(
    alloc: Global,
    entities: &[Entity],
    entries: &[Text],
) -> Result<Vec<u32>, OutOfMemory>
    requires { All (λ name. HasEntryOf entities.now name) entries.now }
    ensures { IfOk result (λ list. AllZip (IsEntryOf entities.now) entries.now list.items) }
{
    if entities.len() > u32::MAX as usize {
        return Err(OutOfMemory);
    }
    let mut list = Vec::new(alloc);
    for name in entries {
        let entity = entity_named(entities, name.as_str());
        list.push(entity)?;
    }
    Ok(list)
}
