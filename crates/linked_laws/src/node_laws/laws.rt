//! What the nodes of valid units are in the program that is linked from these (C11 5.1.1.2, 6.5).
ghost use Rattle.linked_laws.specs.node_laws.Rows.{LinkedRows};

/// In a program that is linked from valid units a member is one of its whole, and what an assignment, a choice or a sequence takes is a
/// value of its type.
pub fn linked_rows()
    ensures { LinkedRows }
{}
