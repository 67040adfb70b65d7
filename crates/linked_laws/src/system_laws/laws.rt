//! What is valid in each system of a program (Pearce, Kelly and Hankin 2007).
ghost use Rattle.linked_laws.specs.system_laws.Parts.{DemandsDecide, LocationsValid};

/// Each location of a system is valid, if it has a type and the nodes under it are locations: its function is the one whose location it is.
pub fn locations_valid()
    ensures { LocationsValid }
{}

/// A system of a program with a function that has a body, and whose calls are of values, is valid, if its types, parameters and constraints
/// are: its rows, locations, functions, calls and library's effects are in any case.
pub fn demands_decide()
    ensures { DemandsDecide }
{}
