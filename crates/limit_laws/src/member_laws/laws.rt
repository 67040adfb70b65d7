//! The laws: functions that do nothing, whose contracts they are.
ghost use Rattle.limit_laws.specs.member_laws.Members.{MembersAreComplete};
ghost use Rattle.limit_laws.specs.member_laws.Measured.{ValuesHaveSizes};

/// In a unit that is built each member of structure or union type is complete (C11 6.7.2.1p3), where syntax trees are families.
pub fn members_complete()
    ensures { MembersAreComplete }
{}

/// In a unit that is built each value of structure or union type has a size and a number of nodes (C11 6.3.2.1p2, 6.5.2.2p1), where nodes
/// stand in their rows and what is complete has a size below 2^63 and at most 2^24 nodes.
pub fn values_have_sizes()
    ensures { ValuesHaveSizes }
{}
