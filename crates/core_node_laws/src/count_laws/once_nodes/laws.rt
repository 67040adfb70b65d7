//! The law: a function that does nothing, whose contract it is.
ghost use Rattle.core_node_laws.specs.count_laws.once_nodes.Once.{NodesOnce};

/// Where the rows of a parsed tree make at most one node of a kind and place, a unit that is made of their senses has at most one.
pub fn nodes_once()
    ensures { NodesOnce }
{}
