//! The law: a function that does nothing, whose contract it is.
ghost use Rattle.valid_unit_laws.specs.body_node_laws.known_initials.Initials.{InitialsKnown};

/// In a parsed unit whose rows all fit, what is initialised in the body of anything is declared by a name (C11 6.7.9), or it is the object
/// of a compound literal that stands in the same body (6.5.2.5).
pub fn initials_known()
    ensures { InitialsKnown }
{}
