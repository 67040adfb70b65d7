//! That whatever unit is made of the parts of a text is valid.
ghost use Rattle.valid_unit_laws.specs.lowered_laws.Complete.{TextsComplete};

/// Of what the walk over a text that is cut, read and bound gives (`AreParts`: the rows of all its nodes fit), whatever unit is made is
/// valid (C11 6.5 to 6.9): each entity that is named there is declared, once, and each Initialise is its entity's body. So nothing of it
/// has to be tested where the unit is made.
pub fn texts_complete()
    ensures { TextsComplete }
{}
