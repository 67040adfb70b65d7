//! The law: a function that does nothing, whose contract it is.
ghost use Rattle.declaration_laws.specs.declared_type_laws.owner_laws.run_initialisers.Run.{UnitsRunInitialisers};

/// In a unit that is read (C11 6.7, 6.7.9) the initialisers in the rest of a declaration that run where they stand are among what the
/// declaration runs.
pub fn initialisers_run()
    ensures { UnitsRunInitialisers }
{}
