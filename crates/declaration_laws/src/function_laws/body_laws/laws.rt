//! That no two entities of a unit that is built have one body.
ghost use Rattle.declaration_laws.specs.function_laws.body_laws.Bodies.{OneBodyEach};

/// In a unit that is built no two entities have one body, if each object's body is its own Initialise (C11 6.7.9, 6.9.1).
pub fn one_body_each()
    ensures { OneBodyEach }
{}
