//! That the nodes of a linked program stand in their rows (C11 6.5 to 6.8).
ghost use Rattle.linked_laws.specs.row_laws.Rows.{LinkedInRows};

/// In a program that is linked from valid units, in which each initialiser is the body of an object that its unit defines,
/// each node stands in its row, and what a static object is initialised with is fixed.
pub fn linked_in_rows()
    ensures { LinkedInRows }
{}
