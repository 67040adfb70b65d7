//! The law: a function that does nothing, whose contract it is.
ghost use Rattle.core_node_laws.specs.parted_nodes.Parted.{PartedTreesHold};

/// In the trees of nodes that stand near each other names, initialisers, compound literals and the lists of blocks pass a test where what
/// the row of each of these nodes that is no suffix makes passes it, also where what stands below the suffix of a declarator is not near:
/// the tree of a length, or of what else a list of parameters has in it, goes into no other tree (C11 6.7.6).
pub fn parted_trees_hold()
    ensures { PartedTreesHold }
{}
