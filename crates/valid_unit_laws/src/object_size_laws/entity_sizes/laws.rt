//! That each object of a unit has a size, or is only declared.
ghost use Rattle.valid_unit_laws.specs.object_size_laws.entity_sizes.Entities.{EntitiesSized};

/// In a unit that is built of a text, each entity is a function, or an object whose type has a size and a number of nodes, where an array
/// without a length counts as one of one element and has external linkage (C11 6.7p7, 6.9.2); or the object is only declared and its type
/// stays open.
pub fn entities_sized()
    ensures { EntitiesSized }
{}
