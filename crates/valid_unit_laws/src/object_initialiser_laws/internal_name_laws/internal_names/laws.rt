//! That internal names fit their entities.
ghost use Rattle.valid_unit_laws.specs.object_initialiser_laws.internal_name_laws.internal_names.Fitting.{InternalsFit};

/// In a unit whose rows all fit, an internal name means a type that agrees with its entity's (C11 6.2.2, 6.2.7), and so does an open array
/// within its own initialiser whose length an earlier declaration has; an internal object that is initialised has the type that its
/// declarations give together (6.7.9).
pub fn internals_fit()
    ensures { InternalsFit }
{}
