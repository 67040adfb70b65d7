//! What a declaration's type is in the program that is linked from its unit (C11 6.2.7p3, 6.9.2), and that of what is defined with ().
ghost use Rattle.linked_laws.specs.alike_laws.Alike.{EntityTypes};
ghost use Rattle.linked_laws.specs.alike_laws.Plain.{LinkedPlain};

/// A program's entity gives what each of its declarations says that it gives, and has the type of each declaration whose type is neither a
/// function's nor an array's without a length.
pub fn entity_types()
    ensures { EntityTypes }
{}

/// Where each function that units define with () has no parameters (6.7.6.3p14), so it is in the program that is linked from them.
pub fn linked_plain()
    ensures { LinkedPlain }
{}
