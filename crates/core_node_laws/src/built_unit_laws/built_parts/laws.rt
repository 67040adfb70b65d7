//! That the unit which is put together of the parts of a walk is built.
ghost use Rattle.core_node_laws.specs.built_unit_laws.built_parts.Parts.{PartsAreBuilt};

/// What is put together of the nodes that stay of a walk over a whole tree and of what its names declare has all that a right unit has, but
/// for its being valid: each thing that is declared has its entity, each tag its members and its key, and each node is a body or stands
/// under one.
pub fn parts_are_built()
    ensures { PartsAreBuilt }
{}
