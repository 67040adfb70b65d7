//! The law: a function that does nothing, whose contract it is.
ghost use Rattle.valid_unit_laws.specs.object_initialiser_laws.static_value_laws.static_literals.Static.{LiteralsBuilt};

/// In a unit that is built of a text a compound literal that stands in no block has its object for the whole run (C11 6.5.2.5p5).
pub fn literals_static()
    ensures { LiteralsBuilt }
{}
