//! The law: a function that does nothing, whose contract it is.
ghost use Rattle.declaration_laws.specs.function_laws.body_returns.Returns.{ReturnsFit};

/// In a unit that is built from a text that is cut into tokens and read, a value that is returned in a function's body has the function's
/// result type (C11 6.8.6.4), where nodes stand in their rows, bodies are bodies, and the senses of the tree are sound.
pub fn returns_fit()
    ensures { ReturnsFit }
{}
