//! That functions have blocks as bodies.
ghost use Rattle.declaration_laws.specs.function_laws.function_bodies.Bodies.{FunctionsStand};

/// In a unit that is built of a text's senses what is stored as a function's body is a function, and its body is a block (C11 6.9.1).
pub fn functions_stand()
    ensures { FunctionsStand }
{}
