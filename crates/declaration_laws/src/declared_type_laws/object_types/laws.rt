//! That an initialised object without internal linkage has the type that its declarator gives it.
ghost use Rattle.declaration_laws.specs.declared_type_laws.object_types.Objects.{ObjectsTyped};

/// At the initialiser of an object that has no internal linkage (C11 6.2.2, 6.7.9), the object's type is the declarator's, with the length
/// that was seen of an array's name before (6.2.7p4), or else the initialiser gives it: where the declarator's type has a length, and
/// where the initialiser is the one of that name.
pub fn objects_typed()
    ensures { ObjectsTyped }
{}
