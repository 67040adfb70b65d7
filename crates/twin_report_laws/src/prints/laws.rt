//! That programs whose systems are one, but for numbers, have one report and one text of answers.
ghost use Rattle.twin_report_laws.specs.prints.Prints.{OneReport, OneText};

/// Two programs with the same names of units, whose locations have the same names in the same order and whose systems are one, but for
/// numbers, have one report: the same bytes.
pub fn one_report()
    ensures { OneReport }
{}

/// Where besides no two locations have one name, such programs answer a script with the same bytes.
pub fn one_text()
    ensures { OneText }
{}
