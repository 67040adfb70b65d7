//! That names are declared where their declarators end, one after another, and used behind.
ghost use Rattle.declaration_laws.specs.name_order.Order.{UnitsOrdered};

/// In a unit that is cut into tokens and read, the declarations of ordinary names that name resolution finds (C11 6.2.1p7) are made at
/// declarators and enumerators, in rising order, each for the name that its declarator has, and a name that a primary begins with is paired
/// with a name whose declarator stands before it.
pub fn units_ordered()
    ensures { UnitsOrdered }
{}
