//! That a node which stands by a fixed tree is fixed.
ghost use Rattle.parsed_tree_laws.specs.sense_laws.fixed_trees.Fixed.{TreesAreFixed};

/// Where nodes stand in their rows, a node that stands by a tree of fixed numbers, places and pointers is fixed before the program runs
/// (C11 6.6, 6.7.9p4).
pub fn trees_are_fixed()
    ensures { TreesAreFixed }
{}
