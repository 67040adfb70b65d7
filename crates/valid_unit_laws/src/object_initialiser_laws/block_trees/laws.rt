//! The law: a function that does nothing, whose contract it is.
ghost use Rattle.valid_unit_laws.specs.object_initialiser_laws.block_trees.Covered.{BlocksCover};

/// In the tree of a function's block, each node that names an object of a block in it, or initialises it, stands under a node that lists
/// the object (C11 6.2.1, 6.2.4).
pub fn blocks_cover()
    ensures { BlocksCover }
{}
