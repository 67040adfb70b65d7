//! How often what a program demands stands in its system (Andersen 1994): these functions do nothing, and their contracts are
//! the laws.

ghost use Rattle.normal_form.specs.Laws.{EachDemand, NoDouble};

/// A constraint is listed exactly where the program demands it: by a node, by a call, of an object of the library, or for its
/// start.
pub fn each_demand()
    ensures { EachDemand }
{}

/// With one of its constraints listed once more, or with any other beside them, a list is no more that of the system.
pub fn no_double()
    ensures { NoDouble }
{}
