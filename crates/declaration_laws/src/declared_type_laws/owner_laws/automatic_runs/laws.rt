//! The law: a function that does nothing, whose contract it is.
ghost use Rattle.declaration_laws.specs.declared_type_laws.owner_laws.automatic_runs.Automatic.{AutomaticRuns};

/// In a unit that is read (C11 6.7, 6.7.9) the initialiser of an automatic object is among what its declaration runs.
pub fn automatic_initialisers_run()
    ensures { AutomaticRuns }
{}
