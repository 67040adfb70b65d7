//! Laws of what trees stand for: these functions do nothing, and their contracts are the laws.
ghost use Rattle.sense_cases.specs.Run.{BoundSource, Computed, DeclarationsMade, OneReading};

/// A tree has the senses of all its nodes or one first node whose row refuses, with its kind: never both, and never two of either.
pub fn one_reading()
    ensures { OneReading }
{}

/// Where the names of a unit are bound, the unit's source has the pairs of uses and declarations that were found.
pub fn bound_source()
    ensures { BoundSource }
{}

/// Each use of a name or a tag in a unit's source is paired with a declaration that the source has.
pub fn declarations_made()
    ensures { DeclarationsMade }
{}

/// What the run of all rows comes to, by which the cases are computed, is what the rows give.
pub fn computed()
    ensures { Computed }
{}
