//! The law: a function that does nothing, whose contract it is.
ghost use Rattle.core_node_laws.specs.literal_nodes.Unnamed.{LiteralsUnnamed};

/// The object of a compound literal is known by a leaf that is no name (C11 6.5.2.5), in all trees that rows give.
pub fn literals_unnamed()
    ensures { LiteralsUnnamed }
{}
