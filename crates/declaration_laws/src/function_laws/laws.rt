//! The laws: functions that do nothing, whose contracts they are.
ghost use Rattle.declaration_laws.specs.function_laws.Functions.{FunctionsFit, GotosFit};

/// In a unit that is built from a text that is cut into tokens, read, and whose names are bound, each `goto` in a function's body has its
/// label there exactly once (C11 6.8.6.1), where nodes stand in their rows and the senses of the tree are sound.
pub fn gotos_fit()
    ensures { GotosFit }
{}

/// In such a unit, where bodies are right too, each node fits the function in whose body it stands: a `goto` has its label there exactly
/// once, and a value that is returned has the function's result type (C11 6.8.6.1, 6.8.6.4).
pub fn functions_fit()
    ensures { FunctionsFit }
{}
