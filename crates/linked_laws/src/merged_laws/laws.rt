//! What the structures and unions of units are in the table that is merged from theirs (C11 6.2.7).
ghost use Rattle.linked_laws.specs.merged_laws.Merged.{MembersKept, MergedFit};

/// A member of a unit's structure or union is that member in the merged table, with the table's tags.
pub fn members_kept()
    ensures { MembersKept }
{}

/// Each structure of a table that is merged from valid units' has at most 2^24 nodes.
pub fn merged_fit()
    ensures { MergedFit }
{}
