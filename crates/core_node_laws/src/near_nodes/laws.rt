//! The law: a function that does nothing, whose contract it is.
ghost use Rattle.core_node_laws.specs.near_nodes.Near.{NearTreesHold};

/// In the trees of nodes that stand near each other names, initialisers, compound literals and the lists of blocks pass a test where what
/// the row of each of these nodes makes passes it (C11 6.5, 6.7, 6.8).
pub fn near_trees_hold()
    ensures { NearTreesHold }
{}
