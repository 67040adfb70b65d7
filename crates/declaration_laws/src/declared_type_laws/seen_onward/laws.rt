//! That what a seen declaration sees is seen.
ghost use Rattle.declaration_laws.specs.declared_type_laws.seen_onward.Seen.{SeenOnward};

/// Of the declarations with linkage that are seen where a name with linkage is declared, each one saw only such as are seen there too
/// (C11 6.2.1p4, 6.2.2p4).
pub fn seen_onward()
    ensures { SeenOnward }
{}
