//! How the declarations of an internal name that are seen agree with all of them.
ghost use Rattle.declaration_laws.specs.whole_types.Whole.{TypesWhole};

/// Where each declaration of a name agrees with those before (C11 6.2.7), what some of them give together agrees with what all give, also
/// where an open array then gets one element; and a type that lacks nothing is the one of all.
pub fn types_whole()
    ensures { TypesWhole }
{}
