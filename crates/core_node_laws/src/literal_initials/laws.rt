//! The law: a function that does nothing, whose contract it is.
ghost use Rattle.core_node_laws.specs.literal_initials.Placed.{InitialsPlaced};

/// In all trees that rows give an initialiser is that of a name's declarator (C11 6.7.9), or it stands directly under the compound literal
/// whose object it initialises (6.5.2.5).
pub fn initials_placed()
    ensures { InitialsPlaced }
{}
