//! What the types of units take in the table that is merged from theirs (C11 6.2.7).
ghost use Rattle.linked_laws.specs.sized_laws.Sizes.{SizesKept, MergedSized};

/// What is complete in a unit is complete in the merged table, and has a size there if it has one in the unit.
pub fn sizes_kept()
    ensures { SizesKept }
{}

/// Each complete structure or union of a table that is merged from valid units' has a size.
pub fn merged_sized()
    ensures { MergedSized }
{}
