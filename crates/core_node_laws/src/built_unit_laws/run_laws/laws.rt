//! That a declaration runs the initialisers of its own objects.
ghost use Rattle.core_node_laws.specs.built_unit_laws.run_laws.Runs.{DeclarationsRun};

/// What a declaration in a function runs initialises automatic objects that it declares (C11 6.2.4, 6.7.9), wherever it is looked at.
pub fn declarations_run()
    ensures { DeclarationsRun }
{}
