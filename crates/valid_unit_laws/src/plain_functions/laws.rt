//! That a function which is defined with () has no parameters.
ghost use Rattle.valid_unit_laws.specs.plain_functions.Plain.{FunctionsPlain};

/// In each unit that is right for a text the type of a function that is defined with () has no parameters (C11 6.7.6.3p14).
pub fn functions_plain()
    ensures { FunctionsPlain }
{}
