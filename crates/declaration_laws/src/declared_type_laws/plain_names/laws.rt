//! That a name without linkage has the type of its entity.
ghost use Rattle.declaration_laws.specs.declared_type_laws.plain_names.Plain.{PlainNamesFit};

/// What a name without linkage means at any node (C11 6.2.2p6) has a type that agrees with the one of its entity, as it is known by all
/// senses.
pub fn plain_names_fit()
    ensures { PlainNamesFit }
{}
