//! That the types of the declarations of an internal name agree.
ghost use Rattle.declaration_laws.specs.declared_type_laws.agreed_internals.Agreeing.{InternalsAgree};

/// In a unit whose rows all fit, the types that the declarations of an internal name give it agree one after another (C11 6.2.7p2), and
/// the entity by which the name is known has the same declarations (6.2.2p2).
pub fn internals_agree()
    ensures { InternalsAgree }
{}
