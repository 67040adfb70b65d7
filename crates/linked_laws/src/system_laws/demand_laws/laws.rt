//! That what nodes demand are constraints of the system (Pearce, Kelly and Hankin 2007; Andersen 1994).
ghost use Rattle.linked_laws.specs.system_laws.demand_laws.Demands.{DemandsFit};

/// The types of a system are right, and so is each of its constraints, if those of initialisers are.
pub fn demands_fit()
    ensures { DemandsFit }
{}
