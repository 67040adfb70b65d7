//! The law: a function that does nothing, whose contract it is.
ghost use Rattle.valid_unit_laws.specs.object_initialiser_laws.static_value_laws.fixed_laws.Fixed.{FixedWhole};

/// In a unit that is built of a text each value in the initialiser of an object that lives for the whole run is fixed (C11 6.7.9p4), where
/// nodes stand in their rows and a compound literal that stands in no block has its object for the whole run (6.5.2.5p5).
pub fn fixed_whole()
    ensures { FixedWhole }
{}
