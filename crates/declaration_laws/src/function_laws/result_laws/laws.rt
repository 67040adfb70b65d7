//! The law: a function that does nothing, whose contract it is.
ghost use Rattle.declaration_laws.specs.function_laws.result_laws.Results.{ResultsSized};

/// In a unit that is built from a text that is cut into tokens and read, what a defined function gives is void or has a size and a number
/// of nodes (C11 6.9.1p3, 5.2.4.1), where bodies are right.
pub fn results_sized()
    ensures { ResultsSized }
{}
