//! The law: a function that does nothing, whose contract it is.
ghost use Rattle.core_node_laws.specs.count_laws.Counting.{CountingLaw};

/// Over all nodes of a parsed tree: the nodes of a kind and place in the trees of all bodies (blocks of functions, initialisers that
/// don't run where they stand, and those that are left out) are no more than what the rows make themselves, each once.
pub fn counting()
    ensures { CountingLaw }
{}
