//! That names with linkage stand where the standard gives them one.
ghost use Rattle.declaration_laws.specs.definition_laws.linkage_laws.Linked.{LinkedNamesStand, EntitiesUnlinked};

/// A name with linkage is no parameter's, and it declares a function, or stands at file scope, or has the word `extern` (C11 6.2.2).
pub fn linked_names_stand()
    ensures { LinkedNamesStand }
{}

/// In a unit that is built of a text's senses an automatic object and a parameter have no linkage (C11 6.2.2p6).
pub fn entities_unlinked()
    ensures { EntitiesUnlinked }
{}
