//! That a unit which is built of a text is valid.
ghost use Rattle.valid_unit_laws.specs.built_valid.Whole.{BuiltIsValid};

/// A unit that is built of the walk over a text that is cut into tokens, read and bound is valid (C11 6.5 to 6.9), where each structure and
/// union of its table of types is that of a specifier.
pub fn built_is_valid()
    ensures { BuiltIsValid }
{}
