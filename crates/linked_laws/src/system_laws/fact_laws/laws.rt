//! The nodes and members of types in a system (C11 6.2.5p20, 6.7.2.1).
ghost use Rattle.linked_laws.specs.system_laws.fact_laws.Known.{FactsValid, NodesKnown, MembersKnown};

/// The position of each member is below the number of its type's nodes.
pub fn facts_valid()
    ensures { FactsValid }
{}

/// Each node of a type of the table is one of the type's number in the system.
pub fn nodes_known()
    ensures { NodesKnown }
{}

/// Each member of a type is one of the type's number in the system.
pub fn members_known()
    ensures { MembersKnown }
{}
