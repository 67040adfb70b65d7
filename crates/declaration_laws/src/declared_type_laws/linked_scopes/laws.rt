//! What names with linkage see of the file scope.
ghost use Rattle.declaration_laws.specs.declared_type_laws.linked_scopes.Scoped.{LinkedScoped};

/// A name with linkage that is declared at file scope stands in no other scope, and one in a block has another (C11 6.2.1p4). Of the
/// declarations that are seen where a name with linkage is declared, those in blocks saw the same ones at file scope (6.2.2p4).
pub fn linked_scoped()
    ensures { LinkedScoped }
{}
