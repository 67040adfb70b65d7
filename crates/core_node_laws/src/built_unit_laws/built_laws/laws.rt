//! What a unit that is made of the walk over a tree holds of its keys, its uses and its numbers.
ghost use Rattle.core_node_laws.specs.built_unit_laws.built_laws.Fields.{AreInRange, KeysAreRight, UsesAreRight};
ghost use Rattle.core_node_laws.specs.built_unit_laws.built_laws.Placed.{NodesStand};

/// Each tag has one key or none, and no two tags have one key (C11 6.2.7p1).
pub fn keys_are_right()
    ensures { KeysAreRight }
{}

/// Each entity is used first at the least place of the nodes that name it, or nowhere.
pub fn uses_are_right()
    ensures { UsesAreRight }
{}

/// Each type, entity and node that is named in the unit is in range, and children come before their nodes.
pub fn are_in_range()
    ensures { AreInRange }
{}

/// Each node stands by a tree that stands in the body of something that is declared by a name.
pub fn nodes_stand()
    ensures { NodesStand }
{}
