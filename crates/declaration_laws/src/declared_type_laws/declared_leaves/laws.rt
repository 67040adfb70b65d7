//! That declarators have the names that stand in them.
ghost use Rattle.declaration_laws.specs.declared_type_laws.declared_leaves.Leaves.{LeavesDeclared};

/// An outermost declarator whose row fits has the name that stands in it (C11 6.7.6), it is the outermost declarator of that name, and its
/// specifiers are known there.
pub fn leaves_declared()
    ensures { LeavesDeclared }
{}
