//! That functions have bodies or are only declared.
ghost use Rattle.valid_unit_laws.specs.object_size_laws.function_storage.Stored.{FunctionsStored};

/// In a unit that is right for a text, each entity whose type is a function's is stored as a function's body, or it is only declared (C11
/// 6.2.2, 6.7, 6.9.1): no parameter (6.7.6.3p8) and no object has such a type.
pub fn functions_stored()
    ensures { FunctionsStored }
{}
