//! The law: a function that does nothing, whose contract it is.
ghost use Rattle.text_units.specs.Kinds.{KindsBuilt};

/// A text that is refused with status 4 is refused for a construct that isn't accepted, under the kind of that construct: while it is
/// read (C11 6.9), for one of its names (C11 6.2.1), or by one of its rows (C11 6.5 to 6.9). The kind is never `NotBuilt` or
/// `VariadicDefinition`.
pub fn kinds_built()
    ensures { KindsBuilt }
{}
