//! The law: a function that does nothing, whose contract it is.
ghost use Rattle.valid_unit_laws.specs.object_initialiser_laws.once_initialised.Once.{InitialisedOnce};

/// In all bodies that the senses of a text that is read bring (blocks of functions, and initialisers that don't run where they stand), the
/// Initialise of a name without linkage stands once at most (C11 6.7.9).
pub fn initialised_once()
    ensures { InitialisedOnce }
{}
