//! The law: a function that does nothing, whose contract it is.
ghost use Rattle.parsed_tree_laws.specs.placed_laws.Placed.{UnitsAreFilled};

/// What is right for a unit that is read from its tokens initialises only objects that it defines: each initialiser is the body of its
/// object, which is neither a function nor only declared (C11 6.7.9, 6.9.2). A function that is declared has no initialiser, since its
/// declarator's words refuse one; and the name that is resolved there is that of the declarator, which has one alone.
pub fn units_are_filled()
    ensures { UnitsAreFilled }
{}
