//! The law: a function that does nothing, whose contract it is.
ghost use Rattle.core_node_laws.specs.fetched_nodes.Tested.{ValuesTested};

/// In all trees that rows give what is fetched from a place is a scalar, or a structure or union with members (C11 6.3.2.1p2), and what a
/// call gives is void or has a size (6.5.2.2p1), in the world at the tree's end.
pub fn values_tested()
    ensures { ValuesTested }
{}
