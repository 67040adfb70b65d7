//! That the body of what is no function is the own initialiser of an object.
ghost use Rattle.valid_unit_laws.specs.object_initialiser_laws.bodies_fit.Bodies.{BodiesFit};

/// In a unit that is built of a text, in which internal names have the types of their entities, what has a body and isn't stored as a
/// function is an object (C11 6.7.9p3), whose body is its own Initialise: that of a name (6.7.9), or of a compound literal (6.5.2.5).
pub fn bodies_fit()
    ensures { BodiesFit }
{}
