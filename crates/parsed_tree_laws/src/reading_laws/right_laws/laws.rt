//! The law: a function that does nothing, whose contract it is.
ghost use Rattle.parsed_tree_laws.specs.reading_laws.right_laws.Alike.{RightAlike};

/// Two units that are right for one source, with one numbering of its tags, are alike: they have the same tags with the same members and
/// keys, as many entities and as many nodes, and each entity and each node of one has its like in the other: an entity with the same name,
/// place, type, linkage and storage, the same first use, an owner that is like its own, and a body with the same tree; a node that stands
/// for the same tree (C11 6.2.2 to 6.2.4, 6.9). Only the numbers of entities and nodes and the tables of types may differ.
pub fn right_alike()
    ensures { RightAlike }
{}
