//! The law: a function that does nothing, whose contract it is.
ghost use Rattle.valid_unit_laws.specs.object_initialiser_laws.block_uses.Uses.{UsesStayWithin};

/// In a text that is read, a name that a declaration in a block or in a `for` statement declares is used below that block or statement
/// alone (C11 6.2.1p4, 6.8.5p5).
pub fn uses_stay_within()
    ensures { UsesStayWithin }
{}
