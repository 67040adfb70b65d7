//! The law of what is right and its unit: the function does nothing, and its contract is the law.
ghost use Rattle.unit_report.specs.unit_system.Numbered.{RightIsNumbered};

/// What is right for the tree of the unit of some number has that number in each entity and each place.
pub fn right_is_numbered()
    ensures { RightIsNumbered }
{}
