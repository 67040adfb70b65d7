//! Rows of a system that must have equal sets, systems with one row for all of them, and why their least solutions agree.
ghost use Rattle.row_share.specs.share_laws.Laws.{ClassesHaveEqualSets, ReducedGivesLeast, ReducedHasEqualSets};
ghost use Rattle.row_share.specs.share_laws.Laws.{ReducedHasSameGraph, ReducedIsValid};

/// Rows of one class have equal sets in the least solution.
pub fn classes_have_equal_sets()
    ensures { ClassesHaveEqualSets }
{}

/// A row's set in the least solution is that of its new row in the least solution of the reduced system.
pub fn reduced_has_equal_sets()
    ensures { ReducedHasEqualSets }
{}

/// The reduced system is valid.
pub fn reduced_is_valid()
    ensures { ReducedIsValid }
{}

/// The least solution of the reduced system, read through the new numbers, is the least solution: so there is one.
pub fn reduced_gives_least()
    ensures { ReducedGivesLeast }
{}

/// Its calls have the same targets, and its call graph the same edges.
pub fn reduced_has_same_graph()
    ensures { ReducedHasSameGraph }
{}
