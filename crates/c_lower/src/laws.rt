//! The law of lowering: a function that does nothing, whose contract it is.
ghost use Rattle.c_lower.specs.Laws.{OneAnswer};

/// A text has one answer: it is lowered to a right unit, or refused by the first of its rows that doesn't fit, with one kind and one node,
/// and never both, whatever numbers its tags are given by lowering.
pub fn one_answer()
    ensures { OneAnswer }
{}
