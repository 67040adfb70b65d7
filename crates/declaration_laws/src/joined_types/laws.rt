//! How types agree that declarations of one name give together.
ghost use Rattle.declaration_laws.specs.joined_types.Joined.{TypesJoined};

/// What declarations give together agrees with the last one's type; and where each agrees with what those before it give (C11 6.2.7), each
/// type is that of all but for a length or a parameter list, and any two such types agree.
pub fn types_joined()
    ensures { TypesJoined }
{}
