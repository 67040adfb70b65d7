//! That programs which are one, but for numbers, have rows of one size.
ghost use Rattle.twin_report_laws.specs.outcome_laws.twin_words.Words.{AsManyLocations, AsManyRows, OneWordTotal};

/// Programs that are one, but for numbers, on tables that the tables' own functions made, have as many locations.
pub fn as_many_locations()
    ensures { AsManyLocations }
{}

/// Programs that are one, but for numbers, on tables that the tables' own functions made, have as many rows.
pub fn as_many_rows()
    ensures { AsManyRows }
{}

/// Two programs that are linked from units which are alike one by one, with entries of the same names, whose nodes are all bodies or stand
/// under one, on tables that the tables' own functions made, have as many words of rows.
pub fn one_word_total()
    ensures { OneWordTotal }
{}
