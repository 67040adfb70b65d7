//! The law: a function that does nothing, whose contract it is.
ghost use Rattle.limit_laws.specs.literal_laws.Units.{UnitsAreReadable};

/// In a unit that is cut into tokens and read (C11 6.4.4.1, 6.4.5, 6.5.1), each integer constant is below 2^64, and a primary that begins
/// with a string has strings of bytes alone.
pub fn units_are_readable()
    ensures { UnitsAreReadable }
{}
