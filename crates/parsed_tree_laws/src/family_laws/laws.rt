//! The law: a function that does nothing, whose contract it is.
ghost use Rattle.parsed_tree_laws.specs.family_laws.Families.{UnitsAreFamilies};

/// In a unit that is cut into tokens and read (C11 6.7.2.1), each node of the tree is a child of one node at most, the children of a node
/// ascend, lists of members have declarations of members and these have fields, and a specifier of a structure or union has `union` as its
/// first word or nowhere, and a tag or a list.
pub fn units_are_families()
    ensures { UnitsAreFamilies }
{}
