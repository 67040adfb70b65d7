//! That types agree as a whole where each agrees with those before it.
ghost use Rattle.declaration_laws.specs.agreed_types.Agreed.{TypesAgreed};

/// Types of one name agree as a whole (C11 6.2.7) where each agrees with what those before it give together, which is what each
/// declaration of an internal name is asked.
pub fn types_agreed()
    ensures { TypesAgreed }
{}
