//! The law: a function that does nothing, whose contract it is.
ghost use Rattle.core_node_laws.specs.built_unit_laws.value_laws.Values.{ValuesSized};

/// In a unit that is built each value of structure or union type has a size and a number of nodes (C11 6.3.2.1p2, 6.5.2.2p1), where nodes
/// stand in their rows, members are complete (6.7.2.1p3), and what is complete has a size below 2^63.
pub fn values_sized()
    ensures { ValuesSized }
{}
