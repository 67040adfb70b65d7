//! The law: a function that does nothing, whose contract it is.
ghost use Rattle.valid_unit_laws.specs.body_node_laws.raised_parts.Raised.{PartsInitialiseOnce};

/// In a unit that is put together of the parts of a walk over a whole tree, in which automatic objects have the bodies that are found for
/// their leaves, each initialiser is the body of its entity (C11 6.5.2.5, 6.7.9).
pub fn parts_initialise_once()
    ensures { PartsInitialiseOnce }
{}
