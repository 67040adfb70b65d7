//! That the declaration which stands for an internal name is one of it.
ghost use Rattle.valid_unit_laws.specs.object_initialiser_laws.internal_name_laws.representative_names.Representatives.{RepresentativesKnown};

/// The declaration by whose initialiser or definition an internal name has its body declares the name's own entity (C11 6.2.2p2).
pub fn representatives_known()
    ensures { RepresentativesKnown }
{}
